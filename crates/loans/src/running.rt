// Running a list of calls on a newly opened job.
ghost use Rattle.std.specs.Prelude.{◌≡◌, Some, ◌+◌, ◌≤◌, IfOk, map, length, vec_len, vec_capacity};
ghost use Rattle.loans.specs.Stocks.{SameRoom, answer_limit, OwnWhere, stock_of};
ghost use Rattle.loans.specs.Strokes.{state_of};
ghost use Rattle.loans.specs.Rules.{request_of};
ghost use Rattle.loans.specs.Calls.{Called};
ghost use Rattle.loans.specs.Handed.{HandedBy};
ghost use Rattle.loans.specs.Runs.{AllDone, OwnAlong, is_empty, Ran, ordered};

use crate::call::{Answer, Call};
use crate::docket::Docket;
use crate::job::Job;
use crate::run_fault::RunFault;
use crate::shelves::Shelves;
use dds::{FileHead, Layout};
use formats::Family;
use refusal::Refusal;

impl Job {
    // Makes one call; shelves that are known to be the job's are not looked through. That is a flag and no closure, which would be called
    // or not by the same flag.
    fn call(
        &mut self,
        file: &mut [u8],
        shelves: &mut Shelves<'_>,
        call: Call<'_>,
        known: bool,
    ) -> Result<u32, Refusal>
        requires { OwnWhere known self.old (stock_of shelves.old) }
        ensures rule { Called (request_of call.entry) self.old file.old shelves.old
            result self.new file.new shelves.new }
        ensures handed { HandedBy (request_of call.entry) result self.new }
    {
        match call {
            Call::Loan { piece, borrower } => self.loan(piece, borrower),
            Call::Paint(painting) => self.paint_on(file, shelves, painting, known),
            Call::Undo { loan, borrower } => self.undo_on(file, shelves, loan, borrower, known),
            Call::Keep { loan } => self.keep_on(shelves, loan, known),
            Call::Cancel { loan } => self.cancel_on(file, shelves, loan, known),
        }
    }

    /// Makes one call that is given as a value. Refuses as the call's own method does. What the shelves can hold stays; the number
    /// that it answers is at most 65,535, or what the shelf of marks can hold where that is more.
    #[tactic(auto, using(crate::proofs::Limits::called_room, crate::proofs::Limits::called_within))]
    pub fn carry_out(
        &mut self,
        file: &mut [u8],
        shelves: &mut Shelves<'_>,
        call: Call<'_>,
    ) -> Result<u32, Refusal>
        ensures rule { Called (request_of call.entry) self.old file.old shelves.old
            result self.new file.new shelves.new }
        ensures handed { HandedBy (request_of call.entry) result self.new }
        ensures room { SameRoom (stock_of shelves.old) (stock_of shelves.new) }
        ensures limit { IfOk result (λ number. number ≤ answer_limit (stock_of shelves.old)) }
    {
        let answer = self.call(file, shelves, call, false);
        // what holds of every job and of all shelves bounds the number
        let _ = &self.ledger;
        let _ = &shelves.marks;
        answer
    }

    // Makes the calls in order, and puts their answers behind those in the Vec, which has room for them.
    fn call_all(
        &mut self,
        file: &mut [u8],
        shelves: &mut Shelves<'_>,
        calls: &[Call<'_>],
        known: bool,
        answers: &mut Vec<Answer>,
    )
        requires room { vec_len answers.old + length calls.now ≤ vec_capacity answers.old }
        requires along { OwnAlong known (state_of self.old file.old (stock_of shelves.old))
            (map request_of calls.now) }
        ensures { AllDone (map request_of calls.now)
            (state_of self.old file.old (stock_of shelves.old)) answers.old.items
            (state_of self.new file.new (stock_of shelves.new)) answers.new.items }
    {
        for call in calls {
            answers.push_reserved(self.call(file, shelves, *call, known));
        }
    }
}

impl Shelves<'_> {
    // Neither shelf holds anything.
    fn are_empty(&self) -> bool
        ensures { result ≡ is_empty (stock_of self.now) }
    {
        self.marks.count() == 0 && self.bytes.count() == 0
    }
}

/// Opens a job on a file with a family that is handed in, makes the calls in order on it and the shelves, puts an answer for each
/// behind those in the Vec, and gives the docket. It takes no memory: the Vec has to have room for one answer a call. Refuses as
/// Layout::read_with does, whatever room there is; then with NoRoom. Either way nothing changes.
/// Shelves that are empty at first are the job's all along, so that no call has to look through them.
pub fn run<F: Family>(
    job: &mut Job,
    file: &mut [u8],
    shelves: &mut Shelves<'_>,
    number: u32,
    family: &F,
    calls: &[Call<'_>],
    answers: &mut Vec<Answer>,
) -> Result<Docket, RunFault>
    ensures { Ran
        (ordered file.old number (F.row_bytes family.now) (F.rows family.now) shelves.old
        (map request_of calls.now) answers.old.items (vec_capacity answers.old))
        job.old result job.new file.new shelves.new answers.new.items }
{
    let layout = Layout::read_with(FileHead::of(file), family)?;
    if answers.capacity() - answers.len() < calls.len() {
        return Err(RunFault::NoRoom);
    }
    let mut opened = Job::fresh(layout, Some(number));
    opened.call_all(file, shelves, calls, shelves.are_empty(), answers);
    *job = opened;
    Ok(Docket::of(number))
}
