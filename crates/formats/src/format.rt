// A pixel format.
use crate::block::Block;
use crate::linear::Linear;
use crate::paired::Paired;

/// A pixel format: one of the three, with a size that is allowed for it.
#[derive(Clone, Copy)]
pub enum Format {
    /// pixel after pixel
    Linear(Linear),
    /// two neighbouring pixels together
    Paired,
    /// blocks of four by four pixels
    Block(Block),
}
