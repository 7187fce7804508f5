// Whether shelves are the job's.
ghost use Rattle.std.specs.Prelude.{◌≡◌, ◌≤◌, length};
ghost use Rattle.loans.specs.Stocks.{are_own, lies_in, OwnWhere, stock_of};
ghost use Rattle.loans.specs.Ledgers.{NumbersRise};
ghost use Rattle.loans.specs.steps.Tallies.{SoundAt, Tallied, agree};

use crate::job::Job;
use crate::loan::Loan;
use crate::mark::Mark;
use crate::searching::position_of;
use crate::shelves::Shelves;
use dds::Area;

// Ends are compared by differences, since a mark's place and length could be anything and their sum could wrap.
fn lies_in(area: Area, mark: Mark) -> bool
    ensures { result ≡ lies_in area mark }
{
    let place = mark.place as u64;
    let length = mark.length as u64;
    place >= area.place && length <= area.length && place - area.place <= area.length - length
}

// The position of the loan of a sound mark.
fn sound_position(loans: &[Loan], mark: Mark) -> Option<usize>
    ensures { SoundAt loans.now mark result }
{
    let position = position_of(loans, mark.loan)?;
    (mark.length >= 1 && lies_in(loans[position].area, mark)).then_some(position)
}

// How many marks each loan has, in one pass; none where a mark is not sound or they do not cover so many bytes together. The counts stand
// in fixed memory beside the loans, which are only read here, by a call that takes no memory of the heap.
fn tally(loans: &[Loan], marks: &[Mark], covered: usize) -> Option<[u32; 32]>
    requires few { length loans.now ≤ 32 }
    requires rising { NumbersRise loans.now }
    requires short { length marks.now ≤ 1073741824 }
    ensures { Tallied loans.now marks.now covered result }
{
    let mut counts = [0u32; 32];
    let mut left = covered;
    for mark in marks {
        let position = sound_position(loans, *mark)?;
        left = left.checked_sub(mark.length)?;
        counts[position] += 1;
    }
    (left == 0).then_some(counts)
}

// Each loan has as many strokes as were counted at its position.
fn counts_agree(loans: &[Loan], counts: &[u32]) -> bool
    requires { length loans.now ≤ length counts.now }
    ensures { result ≡ agree loans.now counts.now }
{
    loans
        .iter()
        .zip(counts)
        .all(|(loan, count)| loan.strokes == *count)
}

impl Job {
    // The shelves are the job's.
    pub(crate) fn owns(&self, shelves: &Shelves<'_>) -> bool
        ensures { result ≡ are_own self.now (stock_of shelves.now) }
    {
        let marks = shelves.marks().elements();
        let covered = shelves.bytes().count();
        if marks.len() != self.ledger.marks || covered != self.ledger.bytes {
            return false;
        }
        // tried as is_some_and: the check does not learn from the closure that its answer is that of all the marks
        match tally(self.outs(), marks, covered) {
            Some(counts) => counts_agree(self.outs(), &counts),
            None => false,
        }
    }

    // The same, without a pass over the marks where it is known. What is known stands in a `requires` of each function: a type of job,
    // file and shelves would owe it again after each call, where only the law over whole runs shows it, and a keep has no file.
    pub(crate) fn owns_or_knows(&self, shelves: &Shelves<'_>, known: bool) -> bool
        requires { OwnWhere known self.now (stock_of shelves.now) }
        ensures { result ≡ are_own self.now (stock_of shelves.now) }
    {
        known || self.owns(shelves)
    }
}
