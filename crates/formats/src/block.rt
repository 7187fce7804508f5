// Blocks of four by four pixels.
ghost use Rattle.std.specs.Prelude.{◌≡◌, ◌≤◌, true, false, MatchOption};
ghost use Rattle.formats.specs.Sizes.{is_block_size};

/// Blocks of four by four pixels, each of the same number of bytes. Other sizes are allowed than of linear pixels, and rows are laid out
/// otherwise, so a kind generic over both rules would say no less.
#[derive(Clone, Copy)]
pub struct Block {
    bytes: u32,
    ghost ok: { is_block_size bytes ≡ true },
}

impl Block {
    ghost use Rattle.formats.specs.Kinds.{bytes_of};

    /// Blocks of so many bytes; none where no block has that size.
    pub fn new(bytes: u32) -> Option<Block>
        ensures { MatchOption result (is_block_size bytes ≡ false)
            (λ f. (is_block_size bytes ≡ true) × (bytes_of f ≡ bytes)) }
    {
        if bytes == 8 || bytes == 16 {
            Some(Block { bytes })
        } else {
            None
        }
    }

    /// How many bytes a block has: 8 or 16.
    pub fn bytes(self) -> u32
        ensures value { result ≡ bytes_of self }
        ensures bound { (8 ≤ result) × (result ≤ 16) }
    {
        self.bytes
    }
}
