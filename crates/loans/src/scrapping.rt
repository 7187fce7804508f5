// Scrapping a job.
ghost use Rattle.std.specs.Prelude.{◌≡◌, IfOk};
ghost use Rattle.loans.specs.Books.{IsBalanced};
ghost use Rattle.loans.specs.Stocks.{stock_of};
ghost use Rattle.loans.specs.Strokes.{state_of};
ghost use Rattle.loans.specs.LoanEnds.{all_cancelled};
ghost use Rattle.loans.specs.Scrapping.{WithOwn, Scrapped};

use crate::docket::Docket;
use crate::job::Job;
use crate::report::Report;
use crate::shelves::Shelves;
use refusal::Refusal;

impl Job {
    // Cancels every loan out, in the order in which they were granted.
    fn cancel_all(&mut self, file: &mut [u8], shelves: &mut Shelves<'_>)
        requires { WithOwn (state_of self.old file.old (stock_of shelves.old)) }
        ensures { state_of self.new file.new (stock_of shelves.new)
            ≡ all_cancelled self.old.outs (state_of self.old file.old (stock_of shelves.old)) }
    {
        while let [first, ..] = self.outs() {
            let number = first.number;
            // it does not refuse: file and shelves are the job's
            let _ = self.cancel_on(file, shelves, number, true);
        }
    }
}

/// Ends a job whatever is out: cancels every loan out, empties the job, and answers the report after those cancels. Refuses with
/// OtherDocket, OtherLength or ForeignShelves, in this order; the docket is spent even then.
pub fn scrap(
    mut docket: Docket,
    job: &mut Job,
    file: &mut [u8],
    shelves: &mut Shelves<'_>,
) -> Result<Report, Refusal>
    ensures scrapped { Scrapped docket job.old file.old shelves.old
        result job.new file.new shelves.new }
    ensures balance { IfOk result IsBalanced }
{
    if !job.has_number(docket.spend()) {
        return Err(Refusal::OtherDocket);
    }
    if !job.has_length(file) {
        return Err(Refusal::OtherLength);
    }
    if !job.owns(shelves) {
        return Err(Refusal::ForeignShelves);
    }
    job.cancel_all(file, shelves);
    let report = job.report();
    *job = Job::empty();
    Ok(report)
}
