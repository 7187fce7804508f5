// Why a call is turned down. A refusal leaves everything as it was, but that a refused scrap takes its docket; docs/RULES.md has each
// number's meaning, the calls that give it, and the order in which they test.
#![tactic(auto)]

ghost use Rattle.std.specs.Prelude.{◌≡◌, ◌<◌, Some};
ghost use Rattle.refusal.specs.Numbers.{number_of, EachNumberIsOneRefusal};
ghost use Rattle.refusal.specs.Meanings.{meaning_of, refusal_text};

use std::error::Error;
use std::fmt;

#[cfg(test)]
mod tests;

/// Why a call is turned down: a number for users and other programs, and a meaning in words.
#[derive(Clone, Copy, PartialEq, Eq, Debug)]
pub enum Refusal {
    /// 1: file shorter than 128 or longer than 1073741824 bytes (open)
    WrongLength = 1,
    /// 2: wrong first four bytes (open)
    WrongMagic,
    /// 3: header size not 124, or pixel format size not 32 (open)
    WrongHeaderSize,
    /// 4: extended header in fewer than 148 bytes (open)
    ShortExtendedHeader,
    /// 5: unknown format (open with the format tables, never open with a family)
    UnknownFormat,
    /// 6: no shape (open)
    NoShape,
    /// 7: a side, a volume's depth or the number of elements out of range (open)
    OutOfRange,
    /// 8: more levels than the longest chain (open)
    TooManyLevels,
    /// 9: the last piece does not end at the file's end (open)
    WrongEnd,
    /// 10: no such piece (where, show, loan)
    NoSuchPiece,
    /// 11: place at or past the file's end (whose)
    PastFileEnd,
    /// 12: the file's length is not the job's (show, paint, undo, cancel, scrap)
    OtherLength,
    /// 13: the piece is out (loan)
    PieceOut,
    /// 14: 32 loans are out (loan)
    TooManyLoans,
    /// 15: 65535 loan numbers were given (loan)
    NumbersUsedUp,
    /// 16: loan not out (paint, undo, keep, cancel)
    LoanNotOut,
    /// 17: another borrower (paint, undo)
    OtherBorrower,
    /// 18: shelves not the job's (paint, undo, keep, cancel, scrap)
    ForeignShelves,
    /// 19: no bytes, no such row, or past the row's end (paint)
    OutsideRow,
    /// 20: marks shelf full, or too little space on the kept shelf (paint)
    NoSpace,
    /// 21: the loan has no stroke to take back (undo)
    NothingToUndo,
    /// 22: docket of another number (ship, scrap)
    OtherDocket,
    /// 23: loans are out (ship)
    LoansOut,
    /// 24: shelf full (put, put all)
    ShelfFull,
    /// 25: an end past the shelf's count (read, take off, part, slide, truncate)
    PastCount,
    /// 26: malformed order line (order program, for a line)
    MalformedOrder,
    /// 27: input over its limit (order program, for an input)
    OverLimit,
}

impl Refusal {
    /// The number by which users and other programs know it.
    pub fn number(self) -> u32
        ensures value { result ≡ number_of self }
        ensures unique { EachNumberIsOneRefusal }
        ensures small { result < 100 }
    {
        self as u32
    }

    /// What it means, in words.
    pub fn meaning(self) -> &'static str
        ensures { result.now ≡ meaning_of self }
    {
        match self {
            Refusal::WrongLength => "file shorter than 128 or longer than 1073741824 bytes",
            Refusal::WrongMagic => "wrong first four bytes",
            Refusal::WrongHeaderSize => "header size not 124, or pixel format size not 32",
            Refusal::ShortExtendedHeader => "extended header in fewer than 148 bytes",
            Refusal::UnknownFormat => "unknown format",
            Refusal::NoShape => "no shape",
            Refusal::OutOfRange =>
                "a side, a volume's depth or the number of elements out of range",
            Refusal::TooManyLevels => "more levels than the longest chain",
            Refusal::WrongEnd => "the last piece does not end at the file's end",
            Refusal::NoSuchPiece => "no such piece",
            Refusal::PastFileEnd => "place at or past the file's end",
            Refusal::OtherLength => "the file's length is not the job's",
            Refusal::PieceOut => "the piece is out",
            Refusal::TooManyLoans => "32 loans are out",
            Refusal::NumbersUsedUp => "65535 loan numbers were given",
            Refusal::LoanNotOut => "loan not out",
            Refusal::OtherBorrower => "another borrower",
            Refusal::ForeignShelves => "shelves not the job's",
            Refusal::OutsideRow => "no bytes, no such row, or past the row's end",
            Refusal::NoSpace => "marks shelf full, or too little space on the kept shelf",
            Refusal::NothingToUndo => "the loan has no stroke to take back",
            Refusal::OtherDocket => "docket of another number",
            Refusal::LoansOut => "loans are out",
            Refusal::ShelfFull => "shelf full",
            Refusal::PastCount => "an end past the shelf's count",
            Refusal::MalformedOrder => "malformed order line",
            Refusal::OverLimit => "input over its limit",
        }
    }
}

impl fmt::Display for Refusal {
    ghost output = { λ refusal. Some (refusal_text refusal) };

    fn fmt<W: fmt::Write>(&self, f: &mut fmt::Formatter<W>) -> fmt::Result {
        let number = self.number();
        let meaning = self.meaning();
        write!(f, "refusal {number}: {meaning}")
    }
}

impl Error for Refusal {}
