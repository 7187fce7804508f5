// A run of bytes that changed.
ghost use Rattle.std.specs.Prelude.{length};

/// A run of bytes that changed: the place of its first byte, and how many bytes it has.
#[derive(Clone, Copy, PartialEq, Eq, Debug)]
pub struct Change {
    /// The place of the first byte.
    pub place: usize,
    /// How many bytes.
    pub length: usize,
}
