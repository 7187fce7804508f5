// Which format the codes of a plain header name: four letters, or a number.
ghost use Rattle.std.specs.Prelude.{◌≡◌, ℕ, Option};
ghost use Rattle.std.specs.Option.{option_map};
ghost use Rattle.formats.specs.declared.format_name.FormatName.{FormatName};
ghost use Rattle.formats.specs.Names.{name_of};
ghost use Rattle.formats.specs.Codes.{name_for, plain_rows, Unambiguous};

use crate::format::Format;
use crate::format_name::FormatName;
use crate::tables::{CodeRow, format_in};

/// A table of the codes other than DX10, known by the name that it has for each code. Asking changes nothing in it.
pub trait CodeTable: Copy {
    /// the name that the table has for a code, if any
    ghost name_at: { Self → ℕ → Option FormatName };

    /// The format that a code names, if any.
    fn format_of(&self, code: u32) -> Option<Format>
        ensures { option_map name_of result ≡ name_at self.now code };
}

/// The table that comes with the library.
#[derive(Clone, Copy)]
pub struct BuiltInCodes;

// Four letters stand in the file in reading order, so the first is the number's lowest byte.
const PLAIN: [CodeRow; 22] = [
    CodeRow {
        // DXT1
        code: 0x3154_5844,
        name: FormatName::Block(8),
    },
    CodeRow {
        // BC4U
        code: 0x5534_4342,
        name: FormatName::Block(8),
    },
    CodeRow {
        // BC4S
        code: 0x5334_4342,
        name: FormatName::Block(8),
    },
    CodeRow {
        // DXT2
        code: 0x3254_5844,
        name: FormatName::Block(16),
    },
    CodeRow {
        // DXT3
        code: 0x3354_5844,
        name: FormatName::Block(16),
    },
    CodeRow {
        // DXT4
        code: 0x3454_5844,
        name: FormatName::Block(16),
    },
    CodeRow {
        // DXT5
        code: 0x3554_5844,
        name: FormatName::Block(16),
    },
    CodeRow {
        // ATI2
        code: 0x3249_5441,
        name: FormatName::Block(16),
    },
    CodeRow {
        // BC5S
        code: 0x5335_4342,
        name: FormatName::Block(16),
    },
    CodeRow {
        // RGBG
        code: 0x4742_4752,
        name: FormatName::Paired,
    },
    CodeRow {
        // GRGB
        code: 0x4247_5247,
        name: FormatName::Paired,
    },
    CodeRow {
        // UYVY
        code: 0x5956_5955,
        name: FormatName::Paired,
    },
    CodeRow {
        // YUY2
        code: 0x3259_5559,
        name: FormatName::Paired,
    },
    CodeRow {
        code: 36,
        name: FormatName::Linear(64),
    },
    CodeRow {
        code: 110,
        name: FormatName::Linear(64),
    },
    CodeRow {
        code: 113,
        name: FormatName::Linear(64),
    },
    CodeRow {
        code: 115,
        name: FormatName::Linear(64),
    },
    CodeRow {
        code: 112,
        name: FormatName::Linear(32),
    },
    CodeRow {
        code: 114,
        name: FormatName::Linear(32),
    },
    CodeRow {
        code: 111,
        name: FormatName::Linear(16),
    },
    CodeRow {
        code: 117,
        name: FormatName::Linear(16),
    },
    CodeRow {
        code: 116,
        name: FormatName::Linear(128),
    },
];

impl CodeTable for BuiltInCodes {
    ghost name_at = { λ _. name_for plain_rows };

    fn format_of(&self, code: u32) -> Option<Format>
        ensures names { option_map name_of result ≡ name_for plain_rows code }
        ensures unambiguous { Unambiguous plain_rows }
    {
        format_in(&PLAIN, code)
    }
}
