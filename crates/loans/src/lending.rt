// Lending a piece.
ghost use Rattle.std.specs.Prelude.{◌≡◌, ◌<◌};
ghost use Rattle.loans.specs.Books.{Orderly};
ghost use Rattle.loans.specs.Lending.{piece_is_out};
ghost use Rattle.loans.specs.steps.Writing.{ledger_with};
ghost use Rattle.loans.specs.Rules.Request.{lend};
ghost use Rattle.loans.specs.Calls.{CalledAlone};

use crate::job::Job;
use crate::ledger::Ledger;
use crate::loan::Loan;
use dds::{Area, Piece};
use refusal::Refusal;

// How many loans can be out, and how many numbers a job gives.
const MOST_OUT: u32 = 32;

const MOST_GRANTED: u32 = 65535;

// One of the loans has the piece.
fn piece_is_out(loans: &[Loan], piece: Piece) -> bool
    ensures { result ≡ piece_is_out loans.now piece }
{
    loans.iter().any(|loan| loan.piece == piece)
}

impl Ledger {
    // Writes down one loan more.
    fn add_loan(&mut self, piece: Piece, borrower: u32, area: Area)
        requires room { self.old.out < 32 }
        requires numbers { self.old.granted < 65535 }
        ensures { self.new ≡ ledger_with self.old piece borrower area }
    {
        self.granted += 1;
        self.loans[self.out as usize] = Loan {
            number: self.granted,
            borrower,
            piece,
            area,
            strokes: 0,
        };
        self.out += 1;
    }
}

impl Job {
    // The loans out, in the order in which they were granted.
    pub(crate) fn outs(&self) -> &[Loan]
        ensures value { result.now ≡ self.now.outs }
        ensures orderly { Orderly self.now }
    {
        &self.ledger.loans[0..self.ledger.out as usize]
    }

    /// Lends a piece to a borrower, and answers the loan's number. Refuses with NoSuchPiece, PieceOut, TooManyLoans or
    /// NumbersUsedUp, in this order.
    pub fn loan(&mut self, piece: Piece, borrower: u32) -> Result<u32, Refusal>
        ensures { CalledAlone (lend piece borrower) self.old result self.new }
    {
        let area = self.layout.place_of(piece)?;
        if piece_is_out(self.outs(), piece) {
            return Err(Refusal::PieceOut);
        }
        if self.ledger.out >= MOST_OUT {
            return Err(Refusal::TooManyLoans);
        }
        if self.ledger.granted >= MOST_GRANTED {
            return Err(Refusal::NumbersUsedUp);
        }
        self.ledger.add_loan(piece, borrower, area);
        Ok(self.ledger.granted)
    }
}
