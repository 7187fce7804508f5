// How much stands on the two shelves.

// So much of the two shelves: how many marks, and how many bytes that are kept of their strokes.
#[derive(Clone, Copy)]
pub(crate) struct Amount {
    pub(crate) marks: usize,
    pub(crate) bytes: usize,
}
