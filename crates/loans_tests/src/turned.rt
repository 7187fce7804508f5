// Calls to which more than one refusal applies, each with the number of the one that comes first. The numbers are those of
// docs/RULES.md, by hand.
use crate::altered::base_job;
use crate::desk::{Desk, file_of, opened, shelves_with};
use crate::expected::{BASE_STOCK, VOLUME_HEAD, VOLUME_PIECES};
use crate::scripts::{Line, Stock};
use dds::Piece;
use loans::{Job, Mark, Shelves};
use shelf::Shelf;
use std::alloc::AllocGlobal;
use std::process::Abort;
use std::test::Fail;

// A call, and the number that it is refused with.
type Turned<'a> = (Line<'a>, u32);

// After BASE loans 1, 2 and 4 are out, of borrowers 7, 8 and 9; loan 3 is not, and loan 4 has no strokes.
const CUT_FILE: &[Turned<'static>] = &[
    (Line::Paint(3, 7, 0, 0, b"Q"), 12),
    (Line::Paint(1, 8, 3, 0, b"Q"), 12),
    (Line::Undo(3, 7), 12),
    (Line::Undo(1, 8), 12),
    (Line::Cancel(3), 12),
    (Line::Cancel(1), 12),
    (Line::Keep(3), 16),
    (Line::Keep(1), 18),
];

const FOREIGN_SHELVES: &[Turned<'static>] = &[
    (Line::Paint(3, 7, 3, 0, b"Q"), 16),
    (Line::Paint(1, 8, 3, 0, b"Q"), 17),
    (Line::Paint(1, 7, 3, 0, b"Q"), 18),
    (Line::Undo(3, 7), 16),
    (Line::Undo(4, 7), 17),
    (Line::Undo(4, 9), 18),
    (Line::Keep(3), 16),
    (Line::Keep(4), 18),
    (Line::Cancel(3), 16),
    (Line::Cancel(4), 18),
];

// 13 of 20 bytes are kept, and 4 of 5 marks.
const OWN_SHELVES: &[Turned<'static>] = &[
    (Line::Paint(1, 8, 3, 0, b"ABCDEFGH"), 17),
    (Line::Paint(1, 7, 3, 0, b"ABCDEFGH"), 19),
    (Line::Paint(1, 7, 0, 0, b"ABCDEFGH"), 20),
    (Line::Undo(4, 7), 17),
    (Line::Undo(4, 9), 21),
];

fn check_turned(rt: &impl Abort, desk: &mut Desk<'_>, rows: &[Turned<'_>]) {
    for (line, number) in rows {
        let answer = desk.answer_to(*line).map_err(|refusal| refusal.number());
        assert_eq!(rt; answer, Err(*number));
    }
}

// The calls on the job after BASE, with a file cut to a length, and with that on the shelves.
fn check_on(
    rt: &(impl Abort + AllocGlobal),
    length: usize,
    stock: Stock<'_>,
    rows: &[Turned<'_>],
) -> Result<(), Fail> {
    let (job, mut file) = base_job(rt)?;
    file.truncate(length);
    let mut marks = [Mark::default(); 5];
    let mut bytes = [0u8; 20];
    let shelves = shelves_with(&mut marks, &mut bytes, stock)?;
    check_turned(rt, &mut Desk { job, file, shelves }, rows);
    Ok(())
}

#[test]
fn refusals_in_order(rt: HostRuntime) -> Result<(), Fail> {
    check_on(&rt, 327, (&[], b""), CUT_FILE)?;
    check_on(&rt, 328, (&[], b""), FOREIGN_SHELVES)?;
    check_on(&rt, 328, BASE_STOCK, OWN_SHELVES)
}

// 32 loans out, and no number left: the volume has 35 pieces, 20 and 10 and 5 of its levels.
const ALL_OUT: &[Turned<'static>] = &[
    (Line::Loan(0, 2, 5, 7), 10),
    (Line::Loan(0, 0, 0, 7), 13),
    (Line::Loan(0, 2, 4, 7), 14),
];

// 31 loans out.
const NO_NUMBERS: &[Turned<'static>] = &[
    (Line::Loan(0, 2, 5, 7), 10),
    (Line::Loan(0, 0, 0, 7), 13),
    (Line::Loan(0, 2, 4, 7), 15),
];

// Lends so many pieces of a level of the volume.
fn lend(rt: &impl Abort, job: &mut Job, level: u32, count: u32) {
    for slice in 0..count {
        let piece = Piece {
            element: 0,
            level,
            slice,
        };
        assert_eq!(rt; job.loan(piece, 7).err(), None);
    }
}

// All numbers but 32 are given for the first piece, which is handed in each time; the others for as many pieces. The last is a number
// like any other.
fn check_lending(rt: &impl Abort, desk: &mut Desk<'_>) {
    for number in 1..65504u32 {
        assert_eq!(rt; desk.job.loan(Piece::default(), 7), Ok(number));
        assert_eq!(rt; desk.job.keep(&mut desk.shelves, number), Ok(0));
    }
    lend(rt, &mut desk.job, 0, 20);
    lend(rt, &mut desk.job, 1, 10);
    lend(rt, &mut desk.job, 2, 2);
    check_turned(rt, desk, ALL_OUT);
    assert_eq!(rt; desk.job.keep(&mut desk.shelves, 65535), Ok(31));
    check_turned(rt, desk, NO_NUMBERS);
    assert_eq!(rt; desk.job.report().granted, 65535);
}

#[test]
fn all_loan_numbers(rt: HostRuntime) -> Result<(), Fail> {
    let file = file_of(rt.alloc(), VOLUME_HEAD, VOLUME_PIECES)?;
    let mut desk = Desk {
        job: opened(&file)?,
        file,
        shelves: Shelves::of(Shelf::new(&mut []), Shelf::new(&mut [])),
    };
    check_lending(&rt, &mut desk);
    Ok(())
}
