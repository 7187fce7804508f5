// Tables that give codes a format, and how one is looked up.
ghost use Rattle.std.specs.Prelude.{◌≡◌, map, find};
ghost use Rattle.formats.specs.declared.tables.CodeRange.{CodeRange};
ghost use Rattle.std.specs.Option.{option_map};
ghost use Rattle.formats.specs.Names.{name_of, admitted_of};
ghost use Rattle.formats.specs.Codes.{name_in, has_code};

use crate::format::Format;
use crate::format_name::FormatName;

/// The codes from `first` to `last`, both included, name one format.
#[derive(Clone, Copy)]
pub struct CodeRange {
    /// the lowest of the codes
    pub first: u32,
    /// the highest of the codes
    pub last: u32,
    /// the format that they name
    pub name: FormatName,
}

/// One code names a format.
#[derive(Clone, Copy)]
pub struct CodeRow {
    /// the code
    pub code: u32,
    /// the format that it names
    pub name: FormatName,
}

/// A line of a table: it gives a range of codes a format. `Into<CodeRange>` would not do: its ghost member is a relation, and what a
/// whole table means is a function of its lines.
pub trait Line {
    /// the range of codes that it is read as
    ghost means: { Self → CodeRange };

    /// The range of codes that it is read as.
    fn range(&self) -> CodeRange
        ensures { result ≡ means self.now };
}

impl Line for CodeRange {
    ghost means = { λ line. line };

    fn range(&self) -> CodeRange {
        *self
    }
}

impl Line for CodeRow {
    ghost means = { λ line. record { first = line.code; last = line.code; name = line.name } };

    fn range(&self) -> CodeRange {
        CodeRange {
            first: self.code,
            last: self.code,
            name: self.name,
        }
    }
}

// The format that a table gives a code, if any.
#[tactic(auto, using(crate::proofs::Named::name_found))]
pub(crate) fn format_in<L: Line>(lines: &[L], code: u32) -> Option<Format>
    ensures { option_map name_of result ≡ admitted_of (name_in (map L.means lines.now) code) }
{
    let range = range_of(lines, code)?;
    Format::try_from(range.name).ok()
}

// The first line's range that has the code, if any.
fn range_of<L: Line>(lines: &[L], code: u32) -> Option<CodeRange>
    ensures { result ≡ find (has_code code) (map L.means lines.now) }
{
    lines
        .iter()
        .map(|line| line.range())
        .find(|range| (range.first..=range.last).contains(&code))
}
