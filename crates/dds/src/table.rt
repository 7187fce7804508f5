// The table of a texture's levels.
use crate::level::Level;

/// Where all pieces of a file stand. The first `level_count` entries of `levels` are the levels of every element; the others
/// are blank. An element's bytes are `stride`; pixel data run from `pixel_begin` to `pixel_end`; the file has `length` bytes.
#[derive(Clone, Copy)]
pub struct Table {
    // an array with a count beside it: a layout takes no memory of the heap and is copied, which an ArrayVec is not
    pub levels: [Level; 15],
    pub level_count: u32,
    pub elements: u32,
    pub stride: u64,
    pub pixel_begin: u64,
    pub pixel_end: u64,
    pub length: u64,
}
