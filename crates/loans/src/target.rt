// Where a paint is to lay its bytes.

// Where a stroke is to lie: the position of its loan among the loans out, and its place in the file.
#[derive(Clone, Copy)]
pub(crate) struct Target {
    pub(crate) position: usize,
    pub(crate) place: usize,
}
