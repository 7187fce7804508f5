// How many bytes a row of an image takes, and how many rows.
ghost use Rattle.std.specs.Prelude.{◌≡◌, ℕ, ◌≤◌};
ghost use Rattle.formats.specs.Extents.{is_side, extent_of, row_bytes_of, rows_of, Bounded};
ghost use Rattle.formats.specs.Kinds.{bits_of, bytes_of};
ghost use Rattle.formats.specs.Names.{name_of};
ghost use Rattle.formats.specs.declared.format_name.FormatName.TheVariants.{Linear as LinearName, Paired as PairedName, Block as BlockName};
ghost use Rattle.formats.specs.Bounds.{linear_bounded};
ghost use Rattle.std.proofs.Common.{rules};
ghost use Rattle.formats.specs.declared.format.Format.TheVariants.{Linear, Paired, Block};

use crate::block::Block;
use crate::extent::Extent;
use crate::format::Format;
use crate::linear::Linear;
use crate::paired::Paired;

/// A way to lay an image out, known by two functions of its width and height: the bytes of a row and the number of rows.
/// Whoever adds one shows that its answers are these two functions, and that the law holds. Asking changes nothing in it: it can
/// be copied, so there is no cell in it that could remember a question.
pub trait Family: Copy {
    /// the bytes of a row, by the width and the height in pixels
    ghost row_bytes: { Self → ℕ → ℕ → ℕ };

    /// the number of rows, by the width and the height in pixels
    ghost rows: { Self → ℕ → ℕ → ℕ };

    /// Both functions at an image's sides, in pixels; 0 and 0 where a side is not 1 to 16,384.
    fn ask(&self, width: u32, height: u32) -> Extent
        ensures { result ≡ extent_of (row_bytes self.now) (rows self.now) width height };

    /// the law: where both sides are 1 to 16,384, a row has 1 to 16 × width bytes, and there are 1 to height rows
    ghost bounded: { (family : Self) (width height : ℕ)
        → 1 ≤ width → width ≤ 16384 → 1 ≤ height → height ≤ 16384
        → Bounded (row_bytes family) (rows family) width height };
}

// Each family asks it of both sides itself: a closure with the rest, under one guard, would have to require the same again.
fn is_side(side: u32) -> bool
    ensures { result ≡ is_side side }
{
    (1..=16384).contains(&side)
}

impl Family for Linear {
    ghost row_bytes = { λ family. row_bytes_of (LinearName (bits_of family)) };

    ghost rows = { λ family. rows_of (LinearName (bits_of family)) };

    ghost bounded = { λ family width height w1 w2 h1 h2.
        linear_bounded (bits_of family) width height family.ok w1 h1 };

    fn ask(&self, width: u32, height: u32) -> Extent {
        if !is_side(width) || !is_side(height) {
            return Extent::default();
        }
        Extent {
            row_bytes: (width * self.bits() + 7) / 8,
            rows: height,
        }
    }
}

impl Family for Paired {
    ghost row_bytes = { λ _. row_bytes_of PairedName };

    ghost rows = { λ _. rows_of PairedName };

    ghost bounded = { Prim.search rules };

    fn ask(&self, width: u32, height: u32) -> Extent {
        if !is_side(width) || !is_side(height) {
            return Extent::default();
        }
        Extent {
            row_bytes: (width + 1) / 2 * 4,
            rows: height,
        }
    }
}

impl Family for Block {
    ghost row_bytes = { λ family. row_bytes_of (BlockName (bytes_of family)) };

    ghost rows = { λ family. rows_of (BlockName (bytes_of family)) };

    ghost bounded = { Prim.search rules };

    fn ask(&self, width: u32, height: u32) -> Extent {
        if !is_side(width) || !is_side(height) {
            return Extent::default();
        }
        let row_bytes = (width + 3) / 4 * self.bytes();
        let rows = (height + 3) / 4;
        Extent { row_bytes, rows }
    }
}

impl Family for Format {
    ghost row_bytes = { λ format. row_bytes_of (name_of format) };

    ghost rows = { λ format. rows_of (name_of format) };

    ghost bounded = { elim [
      | Linear f ↦ λ width height w1 w2 h1 h2. linear_bounded (bits_of f) width height f.ok w1 h1
      | Paired ↦ λ width height w1 w2 h1 h2. Prim.search rules
      | Block f ↦ λ width height w1 w2 h1 h2. Prim.search rules
    ] };

    fn ask(&self, width: u32, height: u32) -> Extent {
        match self {
            Format::Linear(family) => family.ask(width, height),
            Format::Paired => Paired.ask(width, height),
            Format::Block(family) => family.ask(width, height),
        }
    }
}
