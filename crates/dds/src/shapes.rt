// Which shape a header means, and how long its chain of levels may be.
ghost use Rattle.std.specs.Prelude.{◌≡◌};
ghost use Rattle.dds.specs.Shapes.{plain_shape, extended_shape, shape_of, elements_of, depth_of, limit_of, is_in_range, largest_side, shape_read};
ghost use Rattle.dds.specs.Levels.{levels_of};

use crate::chain::longest_chain;
use crate::header::Header;
use crate::shape::Shape;
use refusal::Refusal;

// Bits of the fields caps2, flags and misc.
const CUBE: u32 = 0x200;

const ALL_FACES: u32 = 0xfc00;

const VOLUME: u32 = 0x20_0000;

const DEPTH: u32 = 0x80_0000;

const TEXTURE_CUBE: u32 = 0x4;

impl Header {
    // The shape of a file with a plain header, where the field caps2 decides.
    fn plain_shape(&self) -> Option<Shape>
        ensures { result ≡ plain_shape self.now }
    {
        let cube = self.caps2 & CUBE != 0;
        let volume = self.caps2 & VOLUME != 0;
        match (cube, volume) {
            (false, false) => Some(Shape::Flat(1)),
            (true, false) if self.caps2 & ALL_FACES == ALL_FACES && self.width == self.height =>
                Some(Shape::Cube(6)),
            (false, true) if self.flags & DEPTH != 0 => Some(Shape::Volume(self.depth)),
            _ => None,
        }
    }

    // The shape of a file with an extended header, where caps2 does not count.
    fn extended_shape(&self) -> Option<Shape>
        ensures { result ≡ extended_shape self.now }
    {
        let cube = self.misc & TEXTURE_CUBE != 0;
        let count = self.array_size as u64;
        match self.dimension {
            2 if !cube && self.height == 1 => Some(Shape::Line(count)),
            3 if !cube => Some(Shape::Flat(count)),
            3 if self.width == self.height => Some(Shape::Cube(6 * count)),
            4 if !cube && count == 1 && self.flags & DEPTH != 0 => Some(Shape::Volume(self.depth)),
            _ => None,
        }
    }

    /// The shape that the header means, if any.
    pub fn shape(&self) -> Option<Shape>
        ensures { result ≡ shape_of self.now }
    {
        if self.is_extended() {
            self.extended_shape()
        } else {
            self.plain_shape()
        }
    }

    /// How many levels each element has: a count of 0 means one.
    pub fn levels(&self) -> u32
        ensures { result ≡ levels_of self.now }
    {
        self.level_count.max(1)
    }

    // Both sides, a volume's depth and the number of elements are in range.
    fn is_in_range(&self, shape: Shape) -> bool
        ensures { result ≡ is_in_range self.now shape }
    {
        let limit = shape.limit();
        (1..=limit).contains(&self.width)
            && (1..=limit).contains(&self.height)
            && (1..=limit).contains(&shape.depth())
            && (1..=2048).contains(&shape.elements())
    }

    // The side that can be halved most often.
    fn largest_side(&self, shape: Shape) -> u32
        ensures { result ≡ largest_side self.now shape }
    {
        self.width.max(self.height).max(shape.depth())
    }

    /// The shape of the file. Refuses with NoShape, OutOfRange or TooManyLevels, in this order.
    pub fn read_shape(&self) -> Result<Shape, Refusal>
        ensures { result ≡ shape_read self.now }
    {
        let shape = self.shape().ok_or(Refusal::NoShape)?;
        if !self.is_in_range(shape) {
            return Err(Refusal::OutOfRange);
        }
        if self.levels() > longest_chain(self.largest_side(shape)) {
            return Err(Refusal::TooManyLevels);
        }
        Ok(shape)
    }
}

impl Shape {
    /// How many elements the file holds.
    pub fn elements(self) -> u64
        ensures { result ≡ elements_of self }
    {
        match self {
            Shape::Line(count) | Shape::Flat(count) | Shape::Cube(count) => count,
            Shape::Volume(_) => 1,
        }
    }

    /// The slices of the first level: a volume's depth, else one.
    pub fn depth(self) -> u32
        ensures { result ≡ depth_of self }
    {
        match self {
            Shape::Volume(depth) => depth,
            _ => 1,
        }
    }

    // The largest that a side may be.
    fn limit(self) -> u32
        ensures { result ≡ limit_of self }
    {
        match self {
            Shape::Volume(_) => 2048,
            _ => 16384,
        }
    }
}
