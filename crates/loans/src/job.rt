// The job: what is remembered of one opened file.
use crate::ledger::Ledger;
use dds::Layout;
use std::marker::Model;

/// What is remembered of one opened file: where its pieces stand, its loans, its counts. Not copyable: a copy would keep a loan out
/// that was handed in.
#[derive(Drop)]
pub struct Job {
    pub(crate) layout: Layout,
    pub(crate) ledger: Ledger,
}

impl Model for Job {
    ghost use Rattle.loans.specs.Ledgers.{InOrder};
    ghost use Rattle.loans.specs.Books.{Book, book_in};

    ghost Value = { Book };

    ghost view = { λ job. book_in job.layout job.ledger };

    ghost invariant = { λ job. InOrder job.layout.table.length job.ledger };
}
