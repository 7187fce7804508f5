// The calls on a job as values, and their answers.
use crate::painting::Painting;
use dds::Piece;
use refusal::Refusal;

/// What a call answers: its number where it was carried out, or why it was turned down.
pub type Answer = Result<u32, Refusal>;

// A loan and its borrower stay two numbers, as whoever calls gives them: a struct of both would be made for each call and taken apart
// at once.
/// A call with its arguments; each is made by the method of Job of that name. A paint borrows the bytes that it lays.
#[derive(Clone, Copy, PartialEq, Eq, Debug)]
pub enum Call<'a> {
    /// lend a piece to a borrower
    Loan { piece: Piece, borrower: u32 },
    /// lay a stroke
    Paint(Painting<'a>),
    /// take the newest stroke of a loan back
    Undo { loan: u32, borrower: u32 },
    /// end a loan and let its strokes stand
    Keep { loan: u32 },
    /// end a loan and take its strokes back
    Cancel { loan: u32 },
}
