// The newest mark of a loan.

// A loan's newest mark: its position on its shelf, and where its kept bytes begin on theirs.
#[derive(Clone, Copy)]
pub(crate) struct Newest {
    pub(crate) position: usize,
    pub(crate) begin: usize,
}
