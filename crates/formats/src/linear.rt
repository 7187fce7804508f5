// Pixel after pixel.
ghost use Rattle.std.specs.Prelude.{◌≡◌, ◌≤◌, true, false, MatchOption};
ghost use Rattle.formats.specs.Sizes.{is_pixel_size};

/// Pixel after pixel along a row, each of the same number of bits.
#[derive(Clone, Copy)]
pub struct Linear {
    bits: u32,
    ghost ok: { is_pixel_size bits ≡ true },
}

impl Linear {
    ghost use Rattle.formats.specs.Kinds.{bits_of};

    /// Pixels of so many bits; none where no pixel has that size. An `if` and no `then`, whose closure would have to require the size again;
    /// so too for blocks.
    pub fn new(bits: u32) -> Option<Linear>
        ensures { MatchOption result (is_pixel_size bits ≡ false)
            (λ f. (is_pixel_size bits ≡ true) × (bits_of f ≡ bits)) }
    {
        if bits == 1 || bits % 8 == 0 && (8..=128).contains(&bits) {
            Some(Linear { bits })
        } else {
            None
        }
    }

    /// How many bits a pixel has: 1 to 128.
    pub fn bits(self) -> u32
        ensures value { result ≡ bits_of self }
        ensures bound { (1 ≤ result) × (result ≤ 128) }
    {
        self.bits
    }
}
