// The pieces of a layout, one after the other.
ghost use Rattle.std.specs.Prelude.{◌≡◌};
ghost use Rattle.std.specs.Iterator.{YieldsFirst, item_count};
ghost use Rattle.dds.specs.Counts.{pieces_left, names_in};

use crate::layout::Layout;
use crate::piece::Piece;

/// All pieces of a layout, in the order of the file.
#[derive(Drop)]
pub struct Pieces<'a> {
    layout: &'a Layout,
    next: u64,
}

impl Layout {
    /// All pieces, in the order of the file.
    pub fn pieces(&self) -> Pieces<'_>
        ensures { pieces_left result ≡ names_in self.now }
    {
        Pieces {
            layout: self,
            next: 0,
        }
    }
}

impl Iterator for Pieces<'_> {
    type Item = Piece;

    ghost next_gives = { YieldsFirst pieces_left };

    ghost remaining = { item_count pieces_left };

    fn next(&mut self) -> Option<Piece> {
        let piece = self.layout.piece_number(self.next)?;
        self.next += 1;
        Some(piece)
    }
}
