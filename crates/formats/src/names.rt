// A format from its name, and back.
ghost use Rattle.std.specs.Prelude.{◌≡◌, ◌++◌, codes, Some};
ghost use Rattle.formats.specs.Names.{name_of, Reads};
ghost use Rattle.formats.specs.Texts.{name_text};

use crate::block::Block;
use crate::format::Format;
use crate::format_name::FormatName;
use crate::linear::Linear;
use std::error::Error;
use std::fmt;

/// A name that says a size which no format has.
#[derive(Clone, Copy, PartialEq, Eq, Debug)]
pub struct NoSuchSize(pub FormatName);

impl TryFrom<FormatName> for Format {
    type Error = NoSuchSize;

    ghost try_from_gives = { Reads };

    fn try_from(name: FormatName) -> Result<Format, NoSuchSize> {
        let format = match name {
            FormatName::Linear(bits) => Linear::new(bits).map(Format::Linear),
            FormatName::Paired => Some(Format::Paired),
            FormatName::Block(bytes) => Block::new(bytes).map(Format::Block),
        };
        format.ok_or(NoSuchSize(name))
    }
}

impl From<Format> for FormatName {
    ghost from_gives = { λ format name. name ≡ name_of format };

    fn from(format: Format) -> FormatName {
        match format {
            Format::Linear(family) => FormatName::Linear(family.bits()),
            Format::Paired => FormatName::Paired,
            Format::Block(family) => FormatName::Block(family.bytes()),
        }
    }
}

impl fmt::Display for NoSuchSize {
    ghost output = { λ error. Some (codes "no such size: " ++ name_text error.0) };

    fn fmt<W: fmt::Write>(&self, f: &mut fmt::Formatter<W>) -> fmt::Result {
        let name = self.0;
        write!(f, "no such size: {name}")
    }
}

impl Error for NoSuchSize {}
