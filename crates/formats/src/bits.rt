// Which format the pixel flags and the bit count of a header mean, where no code decides.
ghost use Rattle.std.specs.Prelude.{◌≡◌};
ghost use Rattle.std.specs.Option.{option_map};
ghost use Rattle.formats.specs.Names.{name_of};
ghost use Rattle.formats.specs.BitCounts.{name_by_bit_count};

use crate::format::Format;
use crate::linear::Linear;

// The pixel flags that announce plain pixels: alpha only, colour, luma and chroma, luminance.
const ALPHA: u32 = 0x2;

const RGB: u32 = 0x40;

const YUV: u32 = 0x200;

const LUMINANCE: u32 = 0x2_0000;

/// The format of plain pixels: linear, with the bit count for its size. None where no flag announces plain pixels, or the
/// bit count is not 8, 16, 24 or 32.
pub fn bit_count_format(pixel_flags: u32, bit_count: u32) -> Option<Format>
    ensures { option_map name_of result ≡ name_by_bit_count pixel_flags bit_count }
{
    let plain = pixel_flags & ALPHA != 0
        || pixel_flags & RGB != 0
        || pixel_flags & YUV != 0
        || pixel_flags & LUMINANCE != 0;
    match bit_count {
        8 | 16 | 24 | 32 if plain => Linear::new(bit_count).map(Format::Linear),
        _ => None,
    }
}
