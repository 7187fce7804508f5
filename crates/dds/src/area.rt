// Where a piece stands in its file.

/// The bytes of a piece: `length` of them from `place` on, `rows` rows of `row_bytes` each.
#[derive(Clone, Copy, PartialEq, Eq, Debug, Default)]
pub struct Area {
    /// the file's byte where it begins, from 0 on
    pub place: u64,
    /// how many bytes it has: row bytes times rows
    pub length: u64,
    /// how many bytes a row has
    pub row_bytes: u32,
    /// how many rows there are; in a block format a row is one of blocks
    pub rows: u32,
}
