// The orders of a workshop's day: how a line is spelled, what it means, and what is printed for it.
#![tactic(auto)]

mod day;
mod decoding;
mod digits;
mod ending;
mod lines;
mod no_room;
mod number;
mod order;
mod reply;

pub use day::{LONGEST_MASTER, LONGEST_ORDERS, room_for, run_day};
pub use digits::Digits;
pub use ending::Ending;
pub use no_room::NoRoom;
pub use order::Order;
pub use reply::Reply;
