// What a line orders.
ghost use Rattle.std.specs.Prelude.{◌≡◌, ◌<◌, ◌≤◌, IfOk, map, length, MatchOption};
ghost use Rattle.std.specs.List.{slice_split};
ghost use Rattle.std.specs.Option.{option_map};
ghost use Rattle.orders.specs.steps.Reading.{is_space, loan_at, paint_at, undo_at, only_at, order_of, order_at};
ghost use Rattle.orders.specs.Orders.{instruction_of};
ghost use Rattle.orders.specs.Words.{now_of};
ghost use Rattle.orders.specs.Orders.{Parsed, EachLineIsOneOrder, HasShortDigits, request_for};
ghost use Rattle.loans.specs.Calls.{Called};
ghost use Rattle.loans.specs.Stocks.{SameRoom, answer_limit, stock_of};

use crate::digits::Digits;
use crate::number::value;
use arrayvec::ArrayVec;
use dds::Piece;
use loans::{Answer, Call, Job, Painting, Shelves};
use refusal::Refusal;

/// A line of the order text, read. Its numbers have 32 bits; the bytes of a paint stay in the line, as digits.
#[derive(Clone, Copy, PartialEq, Eq, Debug)]
pub enum Order<'a> {
    /// `L element level slice borrower`
    Loan {
        /// the piece to lend
        piece: Piece,
        /// who borrows
        borrower: u32,
    },
    /// `L element borrower`, of the element's first piece
    LoanElement {
        /// the element whose first piece is lent
        element: u32,
        /// who borrows
        borrower: u32,
    },
    /// `P loan borrower row first digits`
    Paint {
        /// the loan's number
        loan: u32,
        /// who paints
        borrower: u32,
        /// the row of the piece, from 0 on
        row: u32,
        /// the row's byte where the stroke begins, from 0 on
        first: u32,
        /// the bytes to lay
        digits: Digits<'a>,
    },
    /// `U loan borrower`
    Undo {
        /// the loan's number
        loan: u32,
        /// who takes a stroke back
        borrower: u32,
    },
    /// `K loan`
    Keep {
        /// the loan's number
        loan: u32,
    },
    /// `C loan`
    Cancel {
        /// the loan's number
        loan: u32,
    },
}

fn loan<'a>(fields: &[&'a [u8]]) -> Option<Order<'a>>
    ensures { option_map instruction_of result ≡ loan_at (map now_of fields.now) }
{
    match fields {
        [element, level, slice, borrower] => Some(Order::Loan {
            piece: Piece {
                element: value(element)?,
                level: value(level)?,
                slice: value(slice)?,
            },
            borrower: value(borrower)?,
        }),
        [element, borrower] => Some(Order::LoanElement {
            element: value(element)?,
            borrower: value(borrower)?,
        }),
        _ => None,
    }
}

fn paint<'a>(fields: &[&'a [u8]]) -> Option<Order<'a>>
    ensures { option_map instruction_of result ≡ paint_at (map now_of fields.now) }
{
    let [loan, borrower, row, first, digits] = fields else {
        return None;
    };
    Some(Order::Paint {
        loan: value(loan)?,
        borrower: value(borrower)?,
        row: value(row)?,
        first: value(first)?,
        digits: Digits::of(digits)?,
    })
}

fn undo<'a>(fields: &[&'a [u8]]) -> Option<Order<'a>>
    ensures { option_map instruction_of result ≡ undo_at (map now_of fields.now) }
{
    let [loan, borrower] = fields else {
        return None;
    };
    Some(Order::Undo {
        loan: value(loan)?,
        borrower: value(borrower)?,
    })
}

// The number of a line that has only one.
fn only(fields: &[&[u8]]) -> Option<u32>
    ensures { result ≡ only_at (map now_of fields.now) }
{
    let [loan] = fields else {
        return None;
    };
    value(loan)
}

fn order_for<'a>(letter: char, fields: &[&'a [u8]]) -> Option<Order<'a>>
    ensures { option_map instruction_of result ≡ order_of letter (map now_of fields.now) }
{
    match letter {
        'L' => loan(fields),
        'P' => paint(fields),
        'U' => undo(fields),
        'K' => Some(Order::Keep {
            loan: only(fields)?,
        }),
        'C' => Some(Order::Cancel {
            loan: only(fields)?,
        }),
        _ => None,
    }
}

// What stands between the spaces of a line; none where that is more than any order has.
fn words(line: &[u8]) -> Option<ArrayVec<&[u8], 6>>
    ensures { MatchOption result (6 < length (slice_split is_space line.now))
        (λ words. map now_of words.items ≡ slice_split is_space line.now) }
{
    let mut words = ArrayVec::new();
    words.extend(line.split(|byte| *byte == b' ')).ok()?;
    Some(words)
}

impl<'a> Order<'a> {
    fn read(line: &'a [u8]) -> Option<Order<'a>>
        ensures { option_map instruction_of result ≡ order_at line.now }
    {
        match words(line)?.as_slice() {
            [[letter], fields @ ..] => order_for(char::from(*letter), fields),
            _ => None,
        }
    }

    /// The order that a line, without its end, tells. Refuses with MalformedOrder where it tells none.
    #[tactic(auto, using(crate::proofs::Spelled::parsed))]
    pub fn parse(line: &'a [u8]) -> Result<Order<'a>, Refusal>
        ensures line { Parsed line.now result }
        ensures unique { EachLineIsOneOrder }
    {
        Self::read(line).ok_or(Refusal::MalformedOrder)
    }

    // Makes the call that it means.
    pub(crate) fn carry_out(
        self,
        job: &mut Job,
        file: &mut [u8],
        shelves: &mut Shelves<'_>,
    ) -> Answer
        requires { HasShortDigits self }
        ensures rule { Called (request_for (instruction_of self.entry))
            job.old file.old shelves.old result job.new file.new shelves.new }
        ensures room { SameRoom (stock_of shelves.old) (stock_of shelves.new) }
        ensures limit { IfOk result (λ number. number ≤ answer_limit (stock_of shelves.old)) }
    {
        let call = match self {
            Order::Loan { piece, borrower } => Call::Loan { piece, borrower },
            Order::LoanElement { element, borrower } => {
                let piece = Piece {
                    element,
                    ..Piece::default()
                };
                Call::Loan { piece, borrower }
            }
            Order::Paint {
                loan,
                borrower,
                row,
                first,
                digits,
            } => {
                let bytes = digits.bytes();
                let painting = Painting {
                    loan,
                    borrower,
                    row,
                    first,
                    bytes: bytes.as_slice(),
                };
                return job.carry_out(file, shelves, Call::Paint(painting));
            }
            Order::Undo { loan, borrower } => Call::Undo { loan, borrower },
            Order::Keep { loan } => Call::Keep { loan },
            Order::Cancel { loan } => Call::Cancel { loan },
        };
        job.carry_out(file, shelves, call)
    }
}
