// Taking a stroke back.
ghost use Rattle.std.specs.Prelude.{◌≡◌, ◌≤◌, length};
ghost use Rattle.loans.specs.Stocks.{lengths, OwnWhere, stock_of};
ghost use Rattle.loans.specs.Strokes.{state_of};
ghost use Rattle.loans.specs.steps.Taking.{FoundNewest, file_less, stock_less, Whole, UndoTested};
ghost use Rattle.loans.specs.Rules.Request.{undo};
ghost use Rattle.loans.specs.Calls.{Called};

use crate::job::Job;
use crate::last::Last;
use crate::mark::Mark;
use crate::newest::Newest;
use crate::painting::lay;
use crate::shelves::Shelves;
use refusal::Refusal;

// The newest mark of a loan, looked for from the end.
fn newest_of(marks: &[Mark], covered: usize, loan: u32) -> Option<Newest>
    requires covered { lengths marks.now ≡ covered }
    requires short { length marks.now ≤ 1073741824 }
    ensures { FoundNewest marks.now loan result }
{
    let mut begin = covered;
    let mut left = marks;
    while let [before @ .., mark] = left {
        begin -= mark.length;
        if mark.loan == loan {
            return Some(Newest {
                position: before.len(),
                begin,
            });
        }
        left = before;
    }
    None
}

impl Shelves<'_> {
    // Puts back what the stroke of the mark at a position covered, and takes mark and bytes off the shelves.
    fn take_back(&mut self, file: &mut [u8], newest: Newest)
        requires { Whole file.old (stock_of self.old) newest.position newest.begin }
        ensures file { file.new
            ≡ file_less file.old (stock_of self.old) newest.position newest.begin }
        ensures shelves { stock_of self.new
            ≡ stock_less (stock_of self.old) newest.position newest.begin }
    {
        let Newest { position, begin } = newest;
        let mark = self.marks.elements()[position];
        let end = begin + mark.length;
        lay(file, mark.place, &self.bytes.elements()[begin..end]);
        // neither refuses: mark and bytes stand on the shelves
        let _ = self.marks.take_off(position, 1);
        let _ = self.bytes.take_off(begin, mark.length);
    }
}

impl Job {
    // The stroke that an undo takes back. Refuses as `held` does, then with NothingToUndo.
    fn last_stroke(
        &self,
        file: &[u8],
        shelves: &Shelves<'_>,
        loan: u32,
        borrower: u32,
        known: bool,
    ) -> Result<Last, Refusal>
        requires { OwnWhere known self.now (stock_of shelves.now) }
        ensures { UndoTested (state_of self.now file.now (stock_of shelves.now))
            loan borrower result }
    {
        let position = self.held(file, shelves, loan, borrower, known)?;
        let marks = shelves.marks().elements();
        let newest = newest_of(marks, shelves.bytes().count(), loan).ok_or(Refusal::NothingToUndo)?;
        Ok(Last { position, newest })
    }

    // Takes a stroke back; see `undo`.
    pub(crate) fn undo_on(
        &mut self,
        file: &mut [u8],
        shelves: &mut Shelves<'_>,
        loan: u32,
        borrower: u32,
        known: bool,
    ) -> Result<u32, Refusal>
        requires { OwnWhere known self.old (stock_of shelves.old) }
        ensures { Called (undo loan borrower) self.old file.old shelves.old
            result self.new file.new shelves.new }
    {
        let last = self.last_stroke(file, shelves, loan, borrower, known)?;
        shelves.take_back(file, last.newest);
        let strokes = self.loan_at(last.position).strokes - 1;
        self.count_strokes(last.position, strokes, shelves);
        Ok(strokes)
    }

    /// Takes back the newest stroke of a loan: puts what it covered back where it lay, takes its mark and bytes off the shelves, and
    /// answers how many strokes the loan has left. Refuses with OtherLength, LoanNotOut, OtherBorrower, ForeignShelves or
    /// NothingToUndo, in this order.
    pub fn undo(
        &mut self,
        file: &mut [u8],
        shelves: &mut Shelves<'_>,
        loan: u32,
        borrower: u32,
    ) -> Result<u32, Refusal>
        ensures { Called (undo loan borrower) self.old file.old shelves.old
            result self.new file.new shelves.new }
    {
        self.undo_on(file, shelves, loan, borrower, false)
    }
}
