// What a header says of its file, for people.
ghost use Rattle.std.specs.Prelude.{◌≡◌};
ghost use Rattle.dds.specs.Readings.{reading_in};
ghost use Rattle.listing.specs.Facts.{facts_read};

use dds::{FileHead, FormatSource, Header, Shape};
use formats::{BuiltInCodes, FormatName};
use refusal::Refusal;

/// What a header says of its file: where it says the format and which it is, the shape, the sides of the first level in pixels and the
/// number of levels.
#[derive(Clone, Copy, PartialEq, Eq, Debug)]
pub struct Facts {
    /// Where the header says the format.
    pub source: FormatSource,
    /// The format, with its size.
    pub format: FormatName,
    /// The shape, with the number of elements or the depth.
    pub shape: Shape,
    /// The width of the first level, in pixels.
    pub width: u32,
    /// The height of the first level, in pixels.
    pub height: u32,
    /// How many levels each element has.
    pub levels: u32,
}

impl Facts {
    /// From a file's head and its length, with the built-in table of codes. Refuses as opening does, with 1 to 8 in their order, but does
    /// not look where the pieces end (9).
    pub fn read(head: FileHead<'_>) -> Result<Facts, Refusal>
        ensures { result ≡ facts_read (reading_in head.entry) }
    {
        let header = Header::read(head)?;
        let format = header.format(&BuiltInCodes).ok_or(Refusal::UnknownFormat)?;
        let shape = header.read_shape()?;
        Ok(Facts {
            source: header.source(),
            format: FormatName::from(format),
            shape,
            width: header.width,
            height: header.height,
            levels: header.levels(),
        })
    }
}
