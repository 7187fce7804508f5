// The pieces of a layout by number, in the order of the file.
ghost use Rattle.std.specs.Prelude.{◌≡◌, ◌≤◌, length, sum_by};
ghost use Rattle.dds.specs.Counts.{count_at, SliceOf, piece_numbered};
ghost use Rattle.dds.specs.Layouts.{pieces_in};
ghost use Rattle.dds.specs.Sound.{slices_in};

use crate::layout::Layout;
use crate::level::Level;
use crate::piece::Piece;

// How many slices the levels have together.
fn slices_of(levels: &[Level]) -> u64
    requires { length levels.now ≤ 15 }
    ensures { result ≡ sum_by (λ l. l.slices) levels.now }
{
    levels.iter().map(|level| level.slices as u64).sum()
}

impl Layout {
    // How many pieces each element has.
    fn pieces_per_element(&self) -> u64
        ensures { result ≡ count_at (slices_in self.now.table) self.now.table.level_count }
    {
        slices_of(self.levels())
    }

    // The level and the slice of an element's piece, by the piece's number in the element.
    fn slice_numbered(&self, number: u64) -> Option<(u32, u32)>
        ensures { SliceOf self.now.table.levels self.now.table.level_count number result }
    {
        let mut left = number;
        for (position, level) in self.levels().iter().enumerate() {
            let slices = level.slices as u64;
            if left < slices {
                return Some((position as u32, left as u32));
            }
            left -= slices;
        }
        None
    }

    /// How many pieces there are.
    pub fn piece_count(&self) -> u64
        ensures { result ≡ length (pieces_in self.now) }
    {
        self.laid.table.elements as u64 * self.pieces_per_element()
    }

    /// The piece with that number, counted from 0 in the order of the file; none past the last.
    pub fn piece_number(&self, number: u64) -> Option<Piece>
        ensures { result ≡ piece_numbered self.now number }
    {
        let pieces = self.pieces_per_element();
        let element = number / pieces;
        if element >= self.laid.table.elements as u64 {
            return None;
        }
        let (level, slice) = self.slice_numbered(number % pieces)?;
        Some(Piece {
            element: element as u32,
            level,
            slice,
        })
    }
}
