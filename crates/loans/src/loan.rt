// A loan: one borrower's right to paint in one piece.
use dds::{Area, Piece};

/// One borrower's right to paint in one piece, known by a number that its job gives only once. A loan is out until it is kept or
/// cancelled, and spans its piece's bytes.
#[derive(Clone, Copy, PartialEq, Eq, Debug, Default)]
pub struct Loan {
    /// its number, from 1 on
    pub number: u32,
    /// who borrowed
    pub borrower: u32,
    /// the piece that was lent
    pub piece: Piece,
    /// where the piece lies
    pub area: Area,
    /// how many strokes it can still undo
    pub strokes: u32,
}
