// Shipping a job.
ghost use Rattle.std.specs.Prelude.{◌≡◌, IfErr, IfOk};
ghost use Rattle.loans.specs.Books.{IsBalanced};
ghost use Rattle.loans.specs.Shipping.{is_job_number, Shipped};

use crate::docket::Docket;
use crate::job::Job;
use crate::report::Report;
use crate::unspent::Unspent;
use refusal::Refusal;

impl Job {
    // The job has that number; an empty job has none.
    pub(crate) fn has_number(&self, number: u64) -> bool
        ensures { result ≡ is_job_number self.now.number number }
    {
        self.ledger
            .number
            .is_some_and(|own| u64::from(own) == number)
    }
}

/// Ends a job with no loans out: empties it and answers its report. Refuses with OtherDocket, then with LoansOut, and hands the
/// docket back.
pub fn ship(mut docket: Docket, job: &mut Job) -> Result<Report, Unspent>
    ensures shipped { Shipped docket job.old result job.new }
    ensures same { IfErr result (λ unspent. unspent.docket ≡ docket) }
    ensures balance { IfOk result IsBalanced }
{
    if !job.has_number(docket.number()) {
        return Err(Unspent {
            docket,
            refusal: Refusal::OtherDocket,
        });
    }
    if !job.outs().is_empty() {
        return Err(Unspent {
            docket,
            refusal: Refusal::LoansOut,
        });
    }
    let _ = docket.spend();
    let report = job.report();
    *job = Job::empty();
    Ok(report)
}
