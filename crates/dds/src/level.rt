// One mip level of a texture, as a table has it.
ghost use Rattle.std.specs.Prelude.{◌≡◌, ◌*◌, ◌^◌, ◌<◌};
ghost use Rattle.dds.specs.LevelEnds.{level_end};

/// A level: the sides of its images, how many slices it has, what each image takes, and where the level begins in its
/// element, counted in bytes from the element's first. The default, which is all zeros, stands in a table behind its last level.
#[derive(Clone, Copy, PartialEq, Eq, Debug, Default)]
pub struct Level {
    /// of each image, in pixels
    pub width: u32,
    /// of each image, in pixels
    pub height: u32,
    /// how many images it has in an element: more than one only in a volume
    pub slices: u32,
    /// how many bytes a row of an image has
    pub row_bytes: u32,
    /// how many rows an image has
    pub rows: u32,
    /// where it begins in its element, in bytes
    pub begin: u64,
}

impl Level {
    /// The bytes of one image.
    pub fn piece_length(&self) -> u64
        ensures { result ≡ self.now.row_bytes * self.now.rows }
    {
        self.row_bytes as u64 * self.rows as u64
    }

    // Where the level ends in its element.
    pub(crate) fn end(&self) -> u64
        requires { level_end self.now < 2 ^ 64 }
        ensures { result ≡ level_end self.now }
    {
        self.begin + self.slices as u64 * self.piece_length()
    }
}
