// What is told of a piece, and of a byte.
ghost use Rattle.std.specs.Prelude.{◌≡◌};
ghost use Rattle.listing.specs.Rows.{RowOf};
ghost use Rattle.listing.specs.Texts.{heading_text};

use dds::{Area, Layout, Piece};
use refusal::Refusal;

/// A line of the list of pieces: the piece, the sides of its level in pixels, and where it stands in the file.
#[derive(Clone, Copy, PartialEq, Eq, Debug)]
pub struct Row {
    /// The piece.
    pub piece: Piece,
    /// The width of its level, in pixels.
    pub width: u32,
    /// The height of its level, in pixels.
    pub height: u32,
    /// Where it stands in the file.
    pub area: Area,
}

impl Row {
    /// The line above rows: what stands in each of their columns.
    pub fn heading() -> &'static str
        ensures { result.now ≡ heading_text }
    {
        "element level slice width height      place     length row-bytes  rows"
    }

    /// The row of a piece in the list of pieces. Refuses with NoSuchPiece.
    pub fn of(layout: &Layout, piece: Piece) -> Result<Row, Refusal>
        ensures { RowOf layout.now piece result }
    {
        let area = layout.place_of(piece)?;
        let level = layout.level(piece.level).ok_or(Refusal::NoSuchPiece)?;
        Ok(Row {
            piece,
            width: level.width,
            height: level.height,
            area,
        })
    }
}
