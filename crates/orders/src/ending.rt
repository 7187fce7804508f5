// How a day ends.
use refusal::Refusal;

/// How a day ends: the texture or the orders are refused, or all loans were handed in and the texture ships, or it does not.
#[derive(Clone, Copy, PartialEq, Eq, Debug)]
pub enum Ending {
    /// nothing was done: an input is over its limit, or the texture is not opened
    Refused(Refusal),
    /// all loans were handed in, and the texture ships
    Shipped,
    /// a loan was out, and all of its strokes are taken back
    Scrapped,
}
