// Where the format of a file comes from.
ghost use Rattle.std.specs.Prelude.{◌≡◌};
ghost use Rattle.dds.specs.Sources.{kind_of, source_of};

use crate::header::Header;
use crate::pixel_kind::PixelKind;

/// Where the format of a file comes from: where its header says it, as users know it, or the caller.
#[derive(Clone, Copy, PartialEq, Eq, Debug)]
pub enum FormatSource {
    /// The code of a plain header.
    Code(u32),
    /// The DXGI code of an extended header.
    Dxgi(u32),
    /// The pixel flags, and how many bits a pixel has.
    BitCount { kind: PixelKind, bits: u32 },
    /// The caller, who handed a family in. No header says this.
    HandedIn,
}

// The pixel flags that tell what plain pixels hold: an alpha channel besides, alpha only, colour, luma and chroma, luminance.
const ALPHA_BESIDES: u32 = 0x1;

const RGB: u32 = 0x40;

const YUV: u32 = 0x200;

const LUMINANCE: u32 = 0x2_0000;

// What plain pixels hold. Where several flags are set, colour counts before luminance, luminance before luma and chroma, and alpha only where
// none of them is set.
fn kind_of(pixel_flags: u32) -> PixelKind
    ensures { result ≡ kind_of pixel_flags }
{
    let alpha_besides = pixel_flags & ALPHA_BESIDES != 0;
    if pixel_flags & RGB != 0 {
        if alpha_besides {
            PixelKind::Rgba
        } else {
            PixelKind::Rgb
        }
    } else if pixel_flags & LUMINANCE != 0 {
        if alpha_besides {
            PixelKind::LuminanceWithAlpha
        } else {
            PixelKind::Luminance
        }
    } else if pixel_flags & YUV != 0 {
        PixelKind::Yuv
    } else {
        PixelKind::Alpha
    }
}

impl Header {
    /// Where the header says its format.
    pub fn source(&self) -> FormatSource
        ensures { result ≡ source_of self.now }
    {
        if self.is_extended() {
            FormatSource::Dxgi(self.dxgi_code)
        } else if self.code_decides() {
            FormatSource::Code(self.code)
        } else {
            FormatSource::BitCount {
                kind: kind_of(self.pixel_flags),
                bits: self.bit_count,
            }
        }
    }
}
