// Ending a loan: keeping or cancelling it.
ghost use Rattle.std.specs.Prelude.{◌≡◌, ◌<◌, length};
ghost use Rattle.loans.specs.Ledgers.{Balanced};
ghost use Rattle.loans.specs.steps.Writing.{kept_by, cancelled_by, ledger_ended, book_ended};
ghost use Rattle.loans.specs.Stocks.{lengths, OwnWhere, stock_of};
ghost use Rattle.loans.specs.LoanEnds.{restored, InFile};
ghost use Rattle.loans.specs.Rules.Request.{keep, cancel};
ghost use Rattle.loans.specs.Calls.{Called, CalledOnAny};
ghost use Rattle.loans.specs.Handed.{HandedWhere};

use crate::job::Job;
use crate::ledger::Ledger;
use crate::mark::Mark;
use crate::outcome::Outcome;
use crate::painting::lay;
use crate::shelves::Shelves;
use refusal::Refusal;

// Puts back all that a loan's strokes covered, the newest first.
fn restore(file: &mut [u8], marks: &[Mark], covered: &[u8], loan: u32)
    requires covered { lengths marks.now ≡ length covered.now }
    requires inside { InFile (length file.old) marks.now }
    ensures { file.new ≡ restored loan file.old marks.now covered.now }
{
    let mut end = covered.len();
    for mark in marks.iter().rev() {
        let begin = end - mark.length;
        if mark.loan == loan {
            lay(file, mark.place, &covered[begin..end]);
        }
        end = begin;
    }
}

impl Ledger {
    // Takes the loan at a position out of those that are out, counts how it ended, and writes down so many marks and bytes.
    fn end(&mut self, position: usize, outcome: Outcome, marks: usize, bytes: usize)
        requires balanced { Balanced self.old }
        requires out { position < self.old.out }
        ensures { self.new ≡ ledger_ended self.old position
            (kept_by outcome) (cancelled_by outcome) marks bytes }
    {
        match outcome {
            Outcome::Kept => self.kept += 1,
            Outcome::Cancelled => self.cancelled += 1,
        }
        let out = self.out as usize;
        self.loans.copy_within(position + 1..out, position);
        self.out -= 1;
        self.marks = marks;
        self.bytes = bytes;
    }
}

impl Job {
    // Writes down how the loan at a position ended, and the counts of the shelves. Answers how many loans are still out.
    fn end_loan(&mut self, position: usize, outcome: Outcome, shelves: &Shelves<'_>) -> u32
        requires { position < length self.old.outs }
        ensures book { self.new ≡ book_ended self.old position outcome (stock_of shelves.now) }
        ensures left { result ≡ length self.new.outs }
    {
        let marks = shelves.marks().count();
        let bytes = shelves.bytes().count();
        self.ledger.end(position, outcome, marks, bytes);
        self.ledger.out
    }

    // Ends a loan for good; see `keep`.
    pub(crate) fn keep_on(
        &mut self,
        shelves: &mut Shelves<'_>,
        loan: u32,
        known: bool,
    ) -> Result<u32, Refusal>
        requires { OwnWhere known self.old (stock_of shelves.old) }
        ensures rule { CalledOnAny (keep loan) self.old shelves.old result self.new shelves.new }
        ensures handed { HandedWhere loan result self.new }
    {
        let position = self.position_of(loan).ok_or(Refusal::LoanNotOut)?;
        if !self.owns_or_knows(shelves, known) {
            return Err(Refusal::ForeignShelves);
        }
        shelves.drop_loan(loan);
        Ok(self.end_loan(position, Outcome::Kept, shelves))
    }

    // Takes back all strokes of a loan and ends it; see `cancel`.
    pub(crate) fn cancel_on(
        &mut self,
        file: &mut [u8],
        shelves: &mut Shelves<'_>,
        loan: u32,
        known: bool,
    ) -> Result<u32, Refusal>
        requires { OwnWhere known self.old (stock_of shelves.old) }
        ensures rule { Called (cancel loan) self.old file.old shelves.old
            result self.new file.new shelves.new }
        ensures handed { HandedWhere loan result self.new }
    {
        if !self.has_length(file) {
            return Err(Refusal::OtherLength);
        }
        let position = self.position_of(loan).ok_or(Refusal::LoanNotOut)?;
        if !self.owns_or_knows(shelves, known) {
            return Err(Refusal::ForeignShelves);
        }
        restore(
            file,
            shelves.marks().elements(),
            shelves.bytes().elements(),
            loan,
        );
        shelves.drop_loan(loan);
        Ok(self.end_loan(position, Outcome::Cancelled, shelves))
    }

    /// Ends a loan: its strokes stand for good, and their marks and bytes leave the shelves. Answers how many loans are still out.
    /// Refuses with LoanNotOut, then with ForeignShelves.
    pub fn keep(&mut self, shelves: &mut Shelves<'_>, loan: u32) -> Result<u32, Refusal>
        ensures rule { CalledOnAny (keep loan) self.old shelves.old result self.new shelves.new }
        ensures handed { HandedWhere loan result self.new }
    {
        self.keep_on(shelves, loan, false)
    }

    /// Takes back all strokes of a loan, the newest first, and ends it. Answers how many loans are still out. Refuses with
    /// OtherLength, LoanNotOut or ForeignShelves, in this order.
    pub fn cancel(
        &mut self,
        file: &mut [u8],
        shelves: &mut Shelves<'_>,
        loan: u32,
    ) -> Result<u32, Refusal>
        ensures rule { Called (cancel loan) self.old file.old shelves.old
            result self.new file.new shelves.new }
        ensures handed { HandedWhere loan result self.new }
    {
        self.cancel_on(file, shelves, loan, false)
    }
}
