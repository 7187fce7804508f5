// Loans and strokes: the job of one opened file, and the calls on it.
#![tactic(auto)]

mod amount;
mod call;
mod docket;
mod ending;
mod job;
mod last;
mod ledger;
mod lending;
mod loan;
mod mark;
mod newest;
mod opening;
mod outcome;
mod painting;
mod report;
mod run_fault;
mod running;
mod scrapping;
mod searching;
mod shelves;
mod shipping;
mod sifting;
mod target;
mod testing;
mod undoing;
mod unspent;

pub use call::{Answer, Call};
pub use docket::Docket;
pub use job::Job;
pub use loan::Loan;
pub use mark::Mark;
pub use painting::Painting;
pub use report::Report;
pub use run_fault::RunFault;
pub use running::run;
pub use scrapping::scrap;
pub use shelves::Shelves;
pub use shipping::ship;
pub use unspent::Unspent;
