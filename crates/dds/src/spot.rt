// Where a byte lies in its element.

/// Where a byte lies in its element: a level, a slice of it, and the byte's offset in that piece.
#[derive(Clone, Copy)]
pub struct Spot {
    pub level: u32,
    pub slice: u32,
    pub offset: u32,
}
