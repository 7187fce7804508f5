// What a job writes down of its loans.
use crate::loan::Loan;

/// The first `out` of the loans are out, in the order in which they were granted; the rest is left from before. `marks` and `bytes`
/// are the counts of the job's two shelves. A job has a number while a file is open in it.
#[derive(Drop)]
pub struct Ledger {
    pub number: Option<u32>,
    // fixed memory with a count beside it: there are at most 32 loans out, and a call takes no memory of the heap
    pub loans: [Loan; 32],
    pub out: u32,
    pub granted: u32,
    pub kept: u32,
    pub cancelled: u32,
    pub marks: usize,
    pub bytes: usize,
}
