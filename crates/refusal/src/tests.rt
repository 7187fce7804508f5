// The numbers and meanings of docs/RULES.md, section 7, written by hand.
use crate::Refusal;
use std::process::Abort;
use std::test::Fail;

// Each refusal with its number and its meaning; numbers in the meanings are printed without commas.
#[rattlefmt::skip]
const RULES: [(Refusal, u32, &str); 27] = [
    (Refusal::WrongLength, 1, "file shorter than 128 or longer than 1073741824 bytes"),
    (Refusal::WrongMagic, 2, "wrong first four bytes"),
    (Refusal::WrongHeaderSize, 3, "header size not 124, or pixel format size not 32"),
    (Refusal::ShortExtendedHeader, 4, "extended header in fewer than 148 bytes"),
    (Refusal::UnknownFormat, 5, "unknown format"),
    (Refusal::NoShape, 6, "no shape"),
    (Refusal::OutOfRange, 7, "a side, a volume's depth or the number of elements out of range"),
    (Refusal::TooManyLevels, 8, "more levels than the longest chain"),
    (Refusal::WrongEnd, 9, "the last piece does not end at the file's end"),
    (Refusal::NoSuchPiece, 10, "no such piece"),
    (Refusal::PastFileEnd, 11, "place at or past the file's end"),
    (Refusal::OtherLength, 12, "the file's length is not the job's"),
    (Refusal::PieceOut, 13, "the piece is out"),
    (Refusal::TooManyLoans, 14, "32 loans are out"),
    (Refusal::NumbersUsedUp, 15, "65535 loan numbers were given"),
    (Refusal::LoanNotOut, 16, "loan not out"),
    (Refusal::OtherBorrower, 17, "another borrower"),
    (Refusal::ForeignShelves, 18, "shelves not the job's"),
    (Refusal::OutsideRow, 19, "no bytes, no such row, or past the row's end"),
    (Refusal::NoSpace, 20, "marks shelf full, or too little space on the kept shelf"),
    (Refusal::NothingToUndo, 21, "the loan has no stroke to take back"),
    (Refusal::OtherDocket, 22, "docket of another number"),
    (Refusal::LoansOut, 23, "loans are out"),
    (Refusal::ShelfFull, 24, "shelf full"),
    (Refusal::PastCount, 25, "an end past the shelf's count"),
    (Refusal::MalformedOrder, 26, "malformed order line"),
    (Refusal::OverLimit, 27, "input over its limit"),
];

#[test]
fn numbers_and_meanings_of_the_rules(rt: HostRuntime) -> Result<(), Fail> {
    for (refusal, number, meaning) in &RULES {
        assert_eq!(rt; refusal.number(), *number);
        assert_eq!(rt; refusal.meaning(), *meaning);
        let text = format!(in rt.alloc(); "refusal {number}: {meaning}")?;
        assert_eq!(rt; refusal.to_string(rt.alloc())?.as_str(), text.as_str());
    }
    Ok(())
}
