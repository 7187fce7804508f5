// What a layout was made from.
use crate::header::Header;
use crate::shape::Shape;
use crate::source::FormatSource;

/// Where a layout comes from: the header as it was read, the shape that it means, and where the format comes from.
#[derive(Clone, Copy, PartialEq, Eq, Debug)]
pub struct Origin {
    pub header: Header,
    pub shape: Shape,
    pub source: FormatSource,
}
