// What a job shelves of each stroke that can still be undone.

/// An undoable stroke. What the file held under it stands on the other shelf.
#[derive(Clone, Copy, PartialEq, Eq, Debug, Default)]
pub struct Mark {
    /// its loan's number
    pub loan: u32,
    /// its first byte's place in the file
    pub place: usize,
    /// how many bytes it has
    pub length: usize,
}
