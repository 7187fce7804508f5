// What kind of texture a file holds.

/// A texture's shape. An element is one image with its smaller levels; a line is one pixel high; a cube has six elements, one
/// for each face; a volume is one element whose levels are stacks of slices, as many as its depth in the first.
#[derive(Clone, Copy, PartialEq, Eq, Debug)]
pub enum Shape {
    /// an array of lines, with the number of elements
    Line(u64),
    /// a flat array, with the number of elements
    Flat(u64),
    /// an array of cubes, with the number of elements: six for each cube
    Cube(u64),
    /// a volume, with its depth
    Volume(u32),
}
