// Calls, answers and changes in words.
ghost use Rattle.std.specs.Prelude.{◌≡◌, Some};
ghost use Rattle.loans.specs.Rules.{request_of};
ghost use Rattle.trace.specs.Texts.{call_text, answer_text, counted_by, owned_text, painted_text, change_text};

use crate::change::Change;
use crate::traced::TracedChange;
use dds::Piece;
use loans::{Answer, Call};
use painters::Painter;
use std::fmt;

/// A call in words. It is a type of its own, as `AnswerText` is, since a crate gives no text to types of another.
#[derive(Clone, Copy, PartialEq, Eq, Debug)]
pub struct CallText<'a>(pub Call<'a>);

impl fmt::Display for CallText<'_> {
    ghost output = { λ text. Some (call_text (request_of text.0)) };

    fn fmt<W: fmt::Write>(&self, f: &mut fmt::Formatter<W>) -> fmt::Result {
        match self.0 {
            Call::Loan { piece, borrower } => write!(
                f,
                "loan of piece {piece} to borrower {borrower}"
            ),
            Call::Paint(painting) => {
                let loan = painting.loan;
                let borrower = painting.borrower;
                let row = painting.row;
                let first = painting.first;
                let length = painting.bytes.len();
                write!(
                    f,
                    "paint in loan {loan} by borrower {borrower}, row {row}, first {first}, {length} bytes"
                )
            }
            Call::Undo { loan, borrower } => write!(
                f,
                "undo in loan {loan} by borrower {borrower}"
            ),
            Call::Keep { loan } => write!(f, "keep of loan {loan}"),
            Call::Cancel { loan } => write!(f, "cancel of loan {loan}"),
        }
    }
}

/// An answer in words, with the call that it is to: the number with what it counts, or the refusal.
#[derive(Clone, Copy, PartialEq, Eq, Debug)]
pub struct AnswerText<'a>(pub Call<'a>, pub Answer);

// What the number of an answer counts.
fn counted_by(call: Call<'_>) -> &'static str
    ensures { result.now ≡ counted_by (request_of call.entry) }
{
    match call {
        Call::Loan { .. } => "loan",
        Call::Paint(_) | Call::Undo { .. } => "undoable",
        Call::Keep { .. } | Call::Cancel { .. } => "out",
    }
}

impl fmt::Display for AnswerText<'_> {
    ghost output = { λ text. Some (answer_text (request_of text.0) text.1) };

    fn fmt<W: fmt::Write>(&self, f: &mut fmt::Formatter<W>) -> fmt::Result {
        match self.1 {
            Ok(number) => {
                let counted = counted_by(self.0);
                write!(f, "{counted} {number}")
            }
            Err(refusal) => write!(f, "{refusal}"),
        }
    }
}

// Whose the first byte of a change is, behind the change; nothing where it is nobody's.
#[derive(Clone, Copy)]
struct OwnerText(Option<(Piece, u32)>);

impl fmt::Display for OwnerText {
    ghost output = { λ text. Some (owned_text text.0) };

    fn fmt<W: fmt::Write>(&self, f: &mut fmt::Formatter<W>) -> fmt::Result {
        match self.0 {
            Some((piece, offset)) => write!(f, ", piece {piece} offset {offset}"),
            None => Ok(()),
        }
    }
}

// Who painted the first byte of a change, behind its owner; nothing where nobody did.
#[derive(Clone, Copy)]
struct PainterText(Option<Painter>);

impl fmt::Display for PainterText {
    ghost output = { λ text. Some (painted_text text.0) };

    fn fmt<W: fmt::Write>(&self, f: &mut fmt::Formatter<W>) -> fmt::Result {
        match self.0 {
            Some(Painter { loan, borrower }) => write!(
                f,
                ", by borrower {borrower} in loan {loan}"
            ),
            None => Ok(()),
        }
    }
}

impl fmt::Display for TracedChange {
    ghost output = { λ traced. Some (change_text traced) };

    fn fmt<W: fmt::Write>(&self, f: &mut fmt::Formatter<W>) -> fmt::Result {
        let Change { place, length } = self.change;
        let owner = OwnerText(self.owner);
        let painter = PainterText(self.painter);
        write!(f, "{length} bytes from place {place} on{owner}{painter}")
    }
}

#[cfg(test)]
mod tests {
    use super::*;

    #[test]
    fn tells_nothing_of_nobody(rt: HostRuntime) {
        let traced = TracedChange {
            change: Change {
                place: 4,
                length: 2,
            },
            owner: None,
            painter: None,
        };
        let told = traced.to_string(rt.alloc());
        assert!(rt; told.is_ok_and(|text| text.as_str() == "2 bytes from place 4 on"));
    }
}
