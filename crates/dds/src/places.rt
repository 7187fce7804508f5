// Where the pieces of a layout stand, and which piece a byte lies in.
ghost use Rattle.std.specs.Prelude.{◌≡◌, ◌+◌, ◌<◌, ◌≤◌, get_or, MatchOption, slice_index_or};
ghost use Rattle.dds.specs.Tables.{blank};
ghost use Rattle.dds.specs.Places.{place_with, where_in, WhereIs, WhoseIs, Shown, Tiled};
ghost use Rattle.dds.specs.steps.Spots.{SpotOf};

use crate::area::Area;
use crate::layout::Layout;
use crate::level::Level;
use crate::piece::Piece;
use crate::spot::Spot;
use refusal::Refusal;

impl Layout {
    // The level that has the byte at an offset in its element: the last that begins there or before. Those that do are counted and
    // the last is not searched for, since a count over at most 15 levels has no branch that the processor could guess wrong.
    fn level_holding(&self, offset: u64) -> usize
        ensures within { result < self.now.table.level_count }
        ensures begun { (get_or self.now.table.levels result blank).begin ≤ offset }
        ensures last { result + 1 < self.now.table.level_count
            → offset < (get_or self.now.table.levels (result + 1) blank).begin }
    {
        let mut begun = 0;
        for level in self.levels() {
            begun += usize::from(level.begin <= offset);
        }
        begun - 1
    }

    // The spot of the byte at an offset in its element.
    fn spot_at(&self, offset: u64) -> Spot
        requires some { 1 ≤ self.now.table.elements }
        requires within { offset < self.now.table.stride }
        ensures { SpotOf self.now.table offset result }
    {
        let number = self.level_holding(offset);
        let level = self.laid.table.levels[number];
        let length = level.piece_length();
        let rest = offset - level.begin;
        Spot {
            level: number as u32,
            slice: (rest / length) as u32,
            offset: (rest % length) as u32,
        }
    }

    // The place of a piece of that level.
    fn place_in(&self, level: &Level, piece: Piece) -> u64
        requires { place_with self.now.table level.now piece ≤ 1073741824 }
        ensures { result ≡ place_with self.now.table level.now piece }
    {
        let element = self.laid.table.pixel_begin + piece.element as u64 * self.laid.table.stride;
        element + level.begin + piece.slice as u64 * level.piece_length()
    }

    /// A level of the table, if there is one of that number.
    pub fn level(&self, number: u32) -> Option<Level>
        ensures { MatchOption result
            (self.now.table.level_count ≤ number)
            (λ l. (number < self.now.table.level_count)
            × (l ≡ slice_index_or self.now.table.levels number blank)) }
    {
        self.levels().get(number as usize).copied()
    }

    /// Where a piece stands. Refuses with NoSuchPiece.
    pub fn place_of(&self, piece: Piece) -> Result<Area, Refusal>
        ensures value { WhereIs self.now piece result }
        ensures exact { result ≡ where_in self.now.table piece }
        ensures tiled { Tiled self.now }
    {
        let level = self.level(piece.level).ok_or(Refusal::NoSuchPiece)?;
        if piece.element >= self.laid.table.elements || piece.slice >= level.slices {
            return Err(Refusal::NoSuchPiece);
        }
        Ok(Area {
            place: self.place_in(&level, piece),
            length: level.piece_length(),
            row_bytes: level.row_bytes,
            rows: level.rows,
        })
    }

    /// The piece that has the byte at a place, and the byte's offset in it; none where the byte is of no piece, as in the header.
    /// One division finds the element, a pass over its levels the level, and a second division the slice. Refuses with PastFileEnd.
    pub fn piece_at(&self, place: u64) -> Result<Option<(Piece, u32)>, Refusal>
        ensures value { WhoseIs self.now place result }
        ensures tiled { Tiled self.now }
    {
        if place >= self.laid.table.length {
            return Err(Refusal::PastFileEnd);
        }
        if place < self.laid.table.pixel_begin || place >= self.laid.table.pixel_end {
            return Ok(None);
        }
        let inner = place - self.laid.table.pixel_begin;
        let spot = self.spot_at(inner % self.laid.table.stride);
        let piece = Piece {
            element: (inner / self.laid.table.stride) as u32,
            level: spot.level,
            slice: spot.slice,
        };
        Ok(Some((piece, spot.offset)))
    }

    /// The bytes of a piece, a part of the file. Refuses with OtherLength, then with NoSuchPiece.
    pub fn bytes_of<'a>(&self, file: &'a [u8], piece: Piece) -> Result<&'a [u8], Refusal>
        ensures { Shown self.now file.now piece result }
    {
        if file.len() as u64 != self.laid.table.length {
            return Err(Refusal::OtherLength);
        }
        let area = self.place_of(piece)?;
        let place = area.place as usize;
        Ok(&file[place..place + area.length as usize])
    }
}
