// A job's two shelves.
ghost use Rattle.std.specs.Prelude.{◌≡◌};
ghost use Rattle.loans.specs.Stocks.{Fits, stock_of};

use crate::mark::Mark;
use shelf::Shelf;
use std::marker::Model;

// A call takes the file beside them, and not in one struct with them: a keep needs no file and a show no shelves, and callers read the
// file between calls, so a struct of both borrows would be made anew for each.
/// A job's two shelves: the marks of its undoable strokes and, in the same order, the bytes that they covered.
#[derive(Drop)]
pub struct Shelves<'a> {
    pub(crate) marks: Shelf<'a, Mark>,
    pub(crate) bytes: Shelf<'a, u8>,
}

impl<'a> Model for Shelves<'a> {
    ghost use Rattle.loans.specs.Stocks.{ShelfPair, Fits, stock_on};

    ghost Value = { ShelfPair };

    ghost view = { λ s. record { marks = s.marks; bytes = s.bytes } };

    ghost invariant = { λ s. Fits (stock_on s.marks s.bytes) };
}

impl<'a> Shelves<'a> {
    /// The two shelves as they are. A job can be given any: a call that needs its own refuses others with ForeignShelves.
    pub fn of(marks: Shelf<'a, Mark>, bytes: Shelf<'a, u8>) -> Shelves<'a>
        ensures { result ≡ record { marks = marks.entry; bytes = bytes.entry } }
    {
        // each call on a shelf tells that it holds no more than it can
        let _ = (marks.count(), bytes.count());
        Shelves { marks, bytes }
    }

    /// The shelf of marks.
    pub fn marks(&self) -> &Shelf<'a, Mark>
        ensures value { result.now ≡ self.now.marks }
        ensures fits { Fits (stock_of self.now) }
    {
        &self.marks
    }

    /// The shelf of kept bytes.
    pub fn bytes(&self) -> &Shelf<'a, u8>
        ensures value { result.now ≡ self.now.bytes }
        ensures fits { Fits (stock_of self.now) }
    {
        &self.bytes
    }
}
