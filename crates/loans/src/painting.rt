// Laying a stroke.
ghost use Rattle.std.specs.Prelude.{◌≡◌, ◌+◌, ◌*◌, ◌<◌, ◌≤◌, false, length, ◌==◌, slice_index_or};
ghost use Rattle.std.proofs.Math.Seq.{paste};
ghost use Rattle.loans.specs.Ledgers.{no_loan, NumbersRise};
ghost use Rattle.loans.specs.Rules.Request.{paint};
ghost use Rattle.loans.specs.Calls.{Called};
ghost use Rattle.loans.specs.steps.Writing.{book_counted};
ghost use Rattle.loans.specs.Books.{Orderly};
ghost use Rattle.loans.specs.Stocks.{Fits, OwnWhere, stock_of};
ghost use Rattle.loans.specs.steps.Finding.{Found};
ghost use Rattle.loans.specs.Strokes.{state_of, stock_with, painting_of, is_outside_row, lacks_space};
ghost use Rattle.loans.specs.steps.Holding.{Held, PaintTested};

use crate::job::Job;
use crate::loan::Loan;
use crate::mark::Mark;
use crate::searching::position_of;
use crate::shelves::Shelves;
use crate::target::Target;
use dds::Area;
use refusal::Refusal;

/// What a paint names.
#[derive(Clone, Copy, PartialEq, Eq, Debug)]
pub struct Painting<'a> {
    /// the loan's number
    pub loan: u32,
    /// who paints
    pub borrower: u32,
    /// the row of the loan's piece, from 0 on
    pub row: u32,
    /// the row's byte where the stroke begins, from 0 on
    pub first: u32,
    /// the bytes to lay, at least one
    pub bytes: &'a [u8],
}

// No bytes, no such row, or past the row's end. Ends are compared by differences, since a sum could wrap.
fn is_outside_row(area: Area, painting: Painting<'_>) -> bool
    ensures { result ≡ is_outside_row area (painting_of painting.entry) }
{
    let length = painting.bytes.len();
    let row_bytes = area.row_bytes as usize;
    length == 0
        || painting.row >= area.rows
        || length > row_bytes
        || painting.first as usize > row_bytes - length
}

impl Shelves<'_> {
    // The marks' shelf is full, or there is too little space for so many kept bytes.
    fn lack_space(&self, length: usize) -> bool
        ensures value { result ≡ lacks_space (stock_of self.now) length }
        ensures fits { Fits (stock_of self.now) }
    {
        self.marks.space_left() == 0 || self.bytes.space_left() < length
    }

    // Shelves a mark and the bytes that its stroke is to cover.
    fn shelve(&mut self, mark: Mark, covered: &[u8])
        requires { lacks_space (stock_of self.old) (length covered.now) ≡ false }
        ensures { stock_of self.new ≡ stock_with (stock_of self.old) mark covered.now }
    {
        // neither refuses: there is space for both
        let _ = self.marks.put(mark);
        let _ = self.bytes.put_all(covered);
    }
}

// Lays bytes at a place.
pub(crate) fn lay(file: &mut [u8], place: usize, bytes: &[u8])
    requires { place + length bytes.now ≤ length file.old }
    ensures { file.new ≡ paste file.old place bytes.now (length bytes.now) }
{
    file[place..place + bytes.len()].copy_from_slice(bytes);
}

impl Job {
    // The file has the job's length.
    pub(crate) fn has_length(&self, file: &[u8]) -> bool
        ensures { result ≡ (length file.now == self.now.layout.table.length) }
    {
        file.len() as u64 == self.layout.length()
    }

    // The position of the loan of a number among the loans out.
    pub(crate) fn position_of(&self, number: u32) -> Option<usize>
        ensures found { Found self.now.outs number result }
        ensures orderly { Orderly self.now }
    {
        position_of(self.outs(), number)
    }

    // The loan at a position among the loans out.
    pub(crate) fn loan_at(&self, position: usize) -> Loan
        requires { position < length self.now.outs }
        ensures value { result ≡ slice_index_or self.now.outs position no_loan }
        ensures inside { result.area.place + result.area.length
            ≤ self.now.layout.table.length }
        ensures rows { result.area.length ≡ result.area.row_bytes * result.area.rows }
    {
        self.outs()[position]
    }

    // The position of a loan that a borrower holds. Refuses with OtherLength, LoanNotOut, OtherBorrower or ForeignShelves, in this
    // order; shelves that are known to be the job's are not looked through.
    pub(crate) fn held(
        &self,
        file: &[u8],
        shelves: &Shelves<'_>,
        loan: u32,
        borrower: u32,
        known: bool,
    ) -> Result<usize, Refusal>
        requires { OwnWhere known self.now (stock_of shelves.now) }
        ensures { Held (state_of self.now file.now (stock_of shelves.now)) loan borrower result }
    {
        if !self.has_length(file) {
            return Err(Refusal::OtherLength);
        }
        let position = self.position_of(loan).ok_or(Refusal::LoanNotOut)?;
        if self.loan_at(position).borrower != borrower {
            return Err(Refusal::OtherBorrower);
        }
        if !self.owns_or_knows(shelves, known) {
            return Err(Refusal::ForeignShelves);
        }
        Ok(position)
    }

    // Where a stroke is to lie. Refuses as `held` does, then with OutsideRow or NoSpace.
    fn target_for(
        &self,
        file: &[u8],
        shelves: &Shelves<'_>,
        painting: Painting<'_>,
        known: bool,
    ) -> Result<Target, Refusal>
        requires { OwnWhere known self.now (stock_of shelves.now) }
        ensures { PaintTested (state_of self.now file.now (stock_of shelves.now))
            (painting_of painting.entry) result }
    {
        let position = self.held(file, shelves, painting.loan, painting.borrower, known)?;
        let loan = self.loan_at(position);
        if is_outside_row(loan.area, painting) {
            return Err(Refusal::OutsideRow);
        }
        if shelves.lack_space(painting.bytes.len()) {
            return Err(Refusal::NoSpace);
        }
        let row = painting.row as u64 * loan.area.row_bytes as u64;
        let place = loan.area.place + (row + painting.first as u64);
        Ok(Target {
            position,
            place: place as usize,
        })
    }

    // Writes down so many strokes of the loan at a position, and the counts of the shelves.
    pub(crate) fn count_strokes(&mut self, position: usize, strokes: u32, shelves: &Shelves<'_>)
        requires { position < length self.old.outs }
        ensures book { self.new ≡ book_counted self.old position strokes (stock_of shelves.now) }
        ensures rising { NumbersRise self.old.outs }
    {
        let ledger = &mut self.ledger;
        ledger.loans[position].strokes = strokes;
        ledger.marks = shelves.marks().count();
        ledger.bytes = shelves.bytes().count();
    }

    // Lays a stroke; see `paint`.
    pub(crate) fn paint_on(
        &mut self,
        file: &mut [u8],
        shelves: &mut Shelves<'_>,
        painting: Painting<'_>,
        known: bool,
    ) -> Result<u32, Refusal>
        requires { OwnWhere known self.old (stock_of shelves.old) }
        ensures { Called (paint (painting_of painting.entry)) self.old file.old shelves.old
            result self.new file.new shelves.new }
    {
        let target = self.target_for(file, shelves, painting, known)?;
        let place = target.place;
        let length = painting.bytes.len();
        let mark = Mark {
            loan: painting.loan,
            place,
            length,
        };
        shelves.shelve(mark, &file[place..place + length]);
        lay(file, place, painting.bytes);
        let strokes = self.loan_at(target.position).strokes + 1;
        self.count_strokes(target.position, strokes, shelves);
        Ok(strokes)
    }

    /// Lays bytes in a row of a loan's piece, shelves the stroke's mark and what it covers, and answers how many strokes the loan
    /// can then undo. Refuses with OtherLength, LoanNotOut, OtherBorrower, ForeignShelves, OutsideRow or NoSpace, in this order.
    pub fn paint(
        &mut self,
        file: &mut [u8],
        shelves: &mut Shelves<'_>,
        painting: Painting<'_>,
    ) -> Result<u32, Refusal>
        ensures { Called (paint (painting_of painting.entry)) self.old file.old shelves.old
            result self.new file.new shelves.new }
    {
        self.paint_on(file, shelves, painting, false)
    }
}
