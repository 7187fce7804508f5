// One image of a texture.

/// A piece is one image of the texture: one level of one element, in a volume one slice of that. Each number counts from 0.
#[derive(Clone, Copy, PartialEq, Eq, Debug, Default)]
pub struct Piece {
    /// the array element or cube face
    pub element: u32,
    /// the mip level
    pub level: u32,
    /// the depth slice in a volume, else 0
    pub slice: u32,
}
