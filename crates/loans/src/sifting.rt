// Closing the gaps that a loan's strokes leave on the shelves.
ghost use Rattle.std.specs.Prelude.{◌≡◌, ◌+◌, ◌^◌, ◌<◌, ◌≤◌, length, drop};
ghost use Rattle.loans.specs.Stocks.{Fits, lengths, stock_of};
ghost use Rattle.loans.specs.LoanEnds.{stock_without};
ghost use Rattle.loans.specs.steps.Sifting.{Leads, CanSlide, stock_slid};

use crate::amount::Amount;
use crate::mark::Mark;
use crate::shelves::Shelves;

impl Amount {
    // Both together.
    fn and(self, more: Amount) -> Amount
        requires marks { self.marks + more.marks < 2 ^ 64 }
        requires bytes { self.bytes + more.bytes < 2 ^ 64 }
        ensures { result
            ≡ record { marks = self.marks + more.marks; bytes = self.bytes + more.bytes } }
    {
        Amount {
            marks: self.marks + more.marks,
            bytes: self.bytes + more.bytes,
        }
    }
}

// How much stands before the first mark of a loan.
fn before_first(marks: &[Mark], loan: u32) -> Amount
    requires { lengths marks.now < 2 ^ 64 }
    ensures { Leads marks.now loan result }
{
    let mut bytes = 0;
    for (position, mark) in marks.iter().enumerate() {
        if mark.loan == loan {
            return Amount {
                marks: position,
                bytes,
            };
        }
        bytes += mark.length;
    }
    Amount {
        marks: marks.len(),
        bytes,
    }
}

impl Shelves<'_> {
    // The marks behind so many.
    fn marks_behind(&self, passed: usize) -> &[Mark]
        requires { passed ≤ length self.now.marks.items }
        ensures marks { result.now ≡ drop passed self.now.marks.items }
        ensures fits { Fits (stock_of self.now) }
    {
        &self.marks.elements()[passed..]
    }

    // Moves a run of strokes that stands behind so much down to behind what stays.
    fn slide_strokes(&mut self, behind: Amount, run: Amount, stays: Amount)
        requires { CanSlide (stock_of self.old) behind run stays }
        ensures { stock_of self.new ≡ stock_slid (stock_of self.old) behind run stays }
    {
        // neither refuses: the run stands on the shelves, and goes down
        let _ = self.marks.slide(behind.marks, run.marks, stays.marks);
        let _ = self.bytes.slide(behind.bytes, run.bytes, stays.bytes);
    }

    // Takes all marks of a loan and their bytes off the shelves, in one pass that moves what stays at most once: each run of other
    // loans' strokes at one go.
    pub(crate) fn drop_loan(&mut self, loan: u32)
        requires { lengths self.old.marks.items ≡ length self.old.bytes.items }
        ensures { stock_of self.new ≡ stock_without (stock_of self.old) loan }
    {
        let mut stays = Amount { marks: 0, bytes: 0 };
        let mut passed = Amount { marks: 0, bytes: 0 };
        while let [mark, ..] = self.marks_behind(passed.marks) {
            if mark.loan == loan {
                let gone = Amount {
                    marks: 1,
                    bytes: mark.length,
                };
                passed = passed.and(gone);
            } else {
                let run = before_first(self.marks_behind(passed.marks), loan);
                self.slide_strokes(passed, run, stays);
                stays = stays.and(run);
                passed = passed.and(run);
            }
        }
        // neither refuses: no more stays than stood there
        let _ = self.marks.truncate(stays.marks);
        let _ = self.bytes.truncate(stays.bytes);
    }
}
