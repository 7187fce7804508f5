// The row bytes and rows of an image.

/// What an image takes in the file: rows one after the other, each of so many bytes.
/// Of an image with a side out of range it is the default: nothing.
#[derive(Clone, Copy, PartialEq, Eq, Debug, Default)]
pub struct Extent {
    /// how many bytes a row has
    pub row_bytes: u32,
    /// how many rows there are
    pub rows: u32,
}
