// The sides of a level.

/// The sides of an image, and how many such images a level stacks.
#[derive(Clone, Copy)]
pub struct Sides {
    pub width: u32,
    pub height: u32,
    pub depth: u32,
}
