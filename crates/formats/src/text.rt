// A format's name as text.
ghost use Rattle.std.specs.Prelude.{◌++◌, Some};
ghost use Rattle.formats.specs.Texts.{name_text};

use crate::format_name::FormatName;
use std::fmt;

impl fmt::Display for FormatName {
    ghost output = { λ name. Some (name_text name) };

    fn fmt<W: fmt::Write>(&self, f: &mut fmt::Formatter<W>) -> fmt::Result {
        match self {
            FormatName::Linear(1) => write!(f, "linear of 1 bit"),
            FormatName::Linear(bits) => write!(f, "linear of {bits} bits"),
            FormatName::Paired => write!(f, "paired"),
            FormatName::Block(bytes) => write!(f, "block of {bytes} bytes"),
        }
    }
}
