// What calls did to a file, in words: which bytes changed, whose they are, who painted them, and the calls with their answers.
#![tactic(auto)]

mod change;
mod changes;
mod text;
mod traced;

pub use change::Change;
pub use changes::{Changes, changed_bytes};
pub use text::{AnswerText, CallText};
pub use traced::{TracedChange, last_piece};
