// Where formats come from, shapes, pieces and areas as text.
ghost use Rattle.std.specs.Prelude.{◌≡◌, Some, None, if◌then◌else◌};
ghost use Rattle.std.specs.Char.{is_ascii_alphanumeric};
ghost use Rattle.std.specs.List.{list_all};
ghost use Rattle.std.specs.Option.{option_map};
ghost use Rattle.dds.specs.Texts.{kind_text, source_text, shape_text, piece_text, area_text};

use crate::area::Area;
use crate::piece::Piece;
use crate::pixel_kind::PixelKind;
use crate::shape::Shape;
use crate::source::FormatSource;
use formats::dxgi_name;
use std::{fmt, str};

impl fmt::Display for PixelKind {
    ghost output = { λ kind. Some (kind_text kind) };

    fn fmt<W: fmt::Write>(&self, f: &mut fmt::Formatter<W>) -> fmt::Result {
        match self {
            PixelKind::Rgba => write!(f, "RGBA"),
            PixelKind::Rgb => write!(f, "RGB"),
            PixelKind::LuminanceWithAlpha => write!(f, "luminance with alpha"),
            PixelKind::Luminance => write!(f, "luminance"),
            PixelKind::Yuv => write!(f, "YUV"),
            PixelKind::Alpha => write!(f, "alpha"),
        }
    }
}

// Each byte is a letter or a digit.
fn are_letters(bytes: &[u8]) -> bool
    ensures { result ≡ list_all is_ascii_alphanumeric bytes.now }
{
    bytes.iter().all(|byte| byte.is_ascii_alphanumeric())
}

// The bytes as text, where each is a letter or a digit.
#[tactic(auto, using(crate::proofs::Letters::letters_are_text))]
fn letters_of(bytes: &[u8]) -> Option<&str>
    ensures { option_map (λ text. text.now) result
        ≡ if list_all is_ascii_alphanumeric bytes.now then Some bytes.now else None }
{
    if !are_letters(bytes) {
        return None;
    }
    str::from_utf8(bytes).ok()
}

impl fmt::Display for FormatSource {
    ghost output = { λ source. Some (source_text source) };

    fn fmt<W: fmt::Write>(&self, f: &mut fmt::Formatter<W>) -> fmt::Result {
        match *self {
            FormatSource::Code(code) => match letters_of(&code.to_le_bytes()) {
                Some(letters) => write!(f, "{letters}"),
                None => write!(f, "code {code}"),
            },
            FormatSource::Dxgi(code) => match dxgi_name(code) {
                Some(name) => write!(f, "{name} ({code})"),
                None => write!(f, "DXGI code {code}"),
            },
            FormatSource::BitCount { kind, bits } => write!(f, "{kind} {bits} bits"),
            FormatSource::HandedIn => write!(f, "handed in"),
        }
    }
}

impl fmt::Display for Shape {
    ghost output = { λ shape. Some (shape_text shape) };

    fn fmt<W: fmt::Write>(&self, f: &mut fmt::Formatter<W>) -> fmt::Result {
        match self {
            Shape::Line(count) => write!(f, "line array of {count}"),
            Shape::Flat(count) => write!(f, "flat array of {count}"),
            Shape::Cube(count) => write!(f, "cube array of {count}"),
            Shape::Volume(depth) => write!(f, "volume of depth {depth}"),
        }
    }
}

impl fmt::Display for Piece {
    ghost output = { λ piece. Some (piece_text piece) };

    fn fmt<W: fmt::Write>(&self, f: &mut fmt::Formatter<W>) -> fmt::Result {
        let Piece {
            element,
            level,
            slice,
        } = *self;
        write!(f, "{element} {level} {slice}")
    }
}

impl fmt::Display for Area {
    ghost output = { λ area. Some (area_text area) };

    fn fmt<W: fmt::Write>(&self, f: &mut fmt::Formatter<W>) -> fmt::Result {
        let Area {
            place,
            length,
            row_bytes,
            rows,
        } = *self;
        write!(f, "{place} {length} {row_bytes} {rows}")
    }
}
