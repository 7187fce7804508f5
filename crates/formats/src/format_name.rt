// A format as a table writes it.
use crate::block::Block;
use crate::linear::Linear;
use crate::paired::Paired;

/// A format as a table writes it: the arrangement, with the bits of a pixel or the bytes of a block.
/// It may say a size that no format has.
#[derive(Clone, Copy, PartialEq, Eq, Debug)]
pub enum FormatName {
    /// pixel after pixel, with the bits of a pixel
    Linear(u32),
    /// two neighbouring pixels together
    Paired,
    /// blocks of four by four pixels, with the bytes of a block
    Block(u32),
}
