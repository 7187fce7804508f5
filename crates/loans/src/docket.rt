// The docket: what stands for an open job.
ghost use Rattle.std.specs.Prelude.{◌≡◌, ◌^◌};
ghost use Rattle.loans.specs.Dockets.{docket_number};

use std::mem;

// A number that no job has: jobs have numbers of 32 bits.
const SPENT: u64 = 1 << 32;

/// A token with a job's number. Whoever opens a job must hand it to ship or scrap: a program that lets one go otherwise is refused.
#[derive(PartialEq, Eq, Debug)]
pub struct Docket(u64);

impl Drop for Docket {
    // Only one with a number that no job has, which no caller ever gets.
    fn drop(self)
        requires { docket_number self ≡ 2 ^ 32 }
    {
        let Docket(_) = self;
    }
}

impl Docket {
    // A docket of a job's number.
    pub(crate) fn of(number: u32) -> Docket
        ensures { docket_number result ≡ number }
    {
        Docket(u64::from(number))
    }

    /// The number of the job that it stands for, which is below 2^32.
    pub fn number(&self) -> u64
        ensures { result ≡ docket_number self.now }
    {
        self.0
    }

    // Takes the job's number out: the only way to let a docket go.
    pub(crate) fn spend(&mut self) -> u64
        ensures number { result ≡ docket_number self.old }
        ensures spent { docket_number self.new ≡ 2 ^ 32 }
    {
        mem::replace(&mut self.0, SPENT)
    }
}
