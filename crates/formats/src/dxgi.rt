// Which format a DXGI code names: the codes of an extended header.
ghost use Rattle.std.specs.Prelude.{◌≡◌};
ghost use Rattle.std.specs.Option.{option_map};
ghost use Rattle.formats.specs.Names.{name_of};
ghost use Rattle.formats.specs.Codes.{name_for, dxgi_rows, Unambiguous};

use crate::format::Format;
use crate::format_name::FormatName;
use crate::tables::{CodeRange, format_in};

// The codes of Microsoft's DXGI_FORMAT enumeration whose images these families lay out.
const DXGI: [CodeRange; 17] = [
    CodeRange {
        first: 1,
        last: 4,
        name: FormatName::Linear(128),
    },
    CodeRange {
        first: 5,
        last: 8,
        name: FormatName::Linear(96),
    },
    CodeRange {
        first: 9,
        last: 22,
        name: FormatName::Linear(64),
    },
    CodeRange {
        first: 23,
        last: 47,
        name: FormatName::Linear(32),
    },
    CodeRange {
        first: 48,
        last: 59,
        name: FormatName::Linear(16),
    },
    CodeRange {
        first: 60,
        last: 65,
        name: FormatName::Linear(8),
    },
    CodeRange {
        first: 66,
        last: 66,
        name: FormatName::Linear(1),
    },
    CodeRange {
        first: 67,
        last: 67,
        name: FormatName::Linear(32),
    },
    CodeRange {
        first: 68,
        last: 69,
        name: FormatName::Paired,
    },
    CodeRange {
        first: 70,
        last: 72,
        name: FormatName::Block(8),
    },
    CodeRange {
        first: 73,
        last: 78,
        name: FormatName::Block(16),
    },
    CodeRange {
        first: 79,
        last: 81,
        name: FormatName::Block(8),
    },
    CodeRange {
        first: 82,
        last: 84,
        name: FormatName::Block(16),
    },
    CodeRange {
        first: 85,
        last: 86,
        name: FormatName::Linear(16),
    },
    CodeRange {
        first: 87,
        last: 93,
        name: FormatName::Linear(32),
    },
    CodeRange {
        first: 94,
        last: 99,
        name: FormatName::Block(16),
    },
    CodeRange {
        first: 115,
        last: 115,
        name: FormatName::Linear(16),
    },
];

/// The format that a DXGI code names, if any.
pub fn dxgi_format(code: u32) -> Option<Format>
    ensures names { option_map name_of result ≡ name_for dxgi_rows code }
    ensures unambiguous { Unambiguous dxgi_rows }
{
    format_in(&DXGI, code)
}
