// How a loan ends.

#[derive(Clone, Copy)]
pub(crate) enum Outcome {
    Kept,
    Cancelled,
}
