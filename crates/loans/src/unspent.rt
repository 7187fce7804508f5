// A docket that comes back from a ship that was refused.
use crate::docket::Docket;
use refusal::Refusal;

/// A docket that could not be spent, and why.
#[derive(PartialEq, Eq, Debug)]
pub struct Unspent {
    /// the docket that was handed in
    pub docket: Docket,
    /// OtherDocket or LoansOut
    pub refusal: Refusal,
}
