// Opening, shipping and scrapping, and the answers of an empty job.
use crate::altered::base_job;
use crate::desk::{Desk, docket_of, file_of, opened, shelves_with, spend};
use crate::expected::{
    ARRAY_HEAD, ARRAY_PIECES, BASE_SCRAPPED, BASE_STOCK, FOREIGN, PASSING_SCRAPS, TINY_HEAD,
    TINY_PIECES, VOLUME_HEAD, VOLUME_PIECES,
};
use crate::scripts::{Line, Row, State, Stock};
use dds::{Area, Piece};
use formats::{BuiltInCodes, Format, FormatName};
use loans::{
    Answer, Call, Docket, Job, Mark, Report, RunFault, Shelves, Unspent, run, scrap, ship,
};
use refusal::Refusal;
use shelf::Shelf;
use std::alloc::AllocGlobal;
use std::process::Abort;
use std::test::Fail;

const NOTHING: Stock<'static> = (&[], &[]);

// The report, or the refusal and the number of the docket that came back. A match and no map_err, here and below, since a docket must be spent in
// the arm that has it.
fn shipped(docket: Docket, job: &mut Job) -> Result<Report, (Refusal, u64)> {
    match ship(docket, job) {
        Ok(report) => Ok(report),
        Err(Unspent { docket, refusal }) => {
            let number = docket.number();
            spend(docket, &mut Job::empty());
            Err((refusal, number))
        }
    }
}

fn check_unshipped(
    rt: &impl Abort,
    file: &[u8],
    job: &mut Job,
    number: u32,
    refusal: Refusal,
) -> Result<(), Fail> {
    let before = job.report();
    assert_eq!(rt;
        shipped(docket_of(file, number)?, job),
        Err((refusal, u64::from(number)))
    );
    assert_eq!(rt; job.report(), before);
    Ok(())
}

// Dockets are matched by number alone, so another job's docket ships this one.
fn check_ship_by_number(
    rt: &impl Abort,
    file: &[u8],
    shelves: &mut Shelves<'_>,
) -> Result<(), Fail> {
    let mut job = opened(file)?;
    assert_eq!(rt; job.loan(Piece::default(), 7).err(), None);
    check_unshipped(rt, file, &mut job, 1, Refusal::LoansOut)?;
    check_unshipped(rt, file, &mut job, 0, Refusal::OtherDocket)?;
    assert_eq!(rt; job.keep(shelves, 1).err(), None);
    check_unshipped(rt, file, &mut job, 2, Refusal::OtherDocket)?;
    let report = job.report();
    assert_eq!(rt; shipped(docket_of(file, 1)?, &mut job), Ok(report));
    assert_eq!(rt;
        job.where_is(Piece::default()).err(),
        Some(Refusal::NoSuchPiece)
    );
    assert_eq!(rt; job.report(), Report::default());
    check_unshipped(rt, file, &mut job, 1, Refusal::OtherDocket)
}

#[test]
fn ship_by_number(rt: HostRuntime) -> Result<(), Fail> {
    let file = file_of(rt.alloc(), TINY_HEAD, TINY_PIECES)?;
    let mut shelves = Shelves::of(Shelf::new(&mut []), Shelf::new(&mut []));
    check_ship_by_number(&rt, &file, &mut shelves)
}

// 0 is a number like any other, and an empty job has none.
#[test]
fn ship_with_number_0(rt: HostRuntime) -> Result<(), Fail> {
    let file = file_of(rt.alloc(), TINY_HEAD, TINY_PIECES)?;
    let mut job = Job::empty();
    assert_eq!(rt;
        shipped(docket_of(&file, 0)?, &mut job),
        Err((Refusal::OtherDocket, 0))
    );
    let docket = job.open(&file, 0, &BuiltInCodes)?;
    assert_eq!(rt; shipped(docket, &mut job), Ok(Report::default()));
    Ok(())
}

// A scrap by a docket is refused, and changes nothing.
fn check_unscrapped(
    rt: &(impl Abort + AllocGlobal),
    docket: Docket,
    desk: &mut Desk<'_>,
    refusal: Refusal,
) -> Result<(), Fail> {
    let before = desk.snapshot(rt.alloc());
    let answer = desk.scrap(docket);
    let before = before?;
    assert_eq!(rt; desk.snapshot(rt.alloc())?, before);
    assert_eq!(rt; answer.err(), Some(refusal));
    Ok(())
}

// A scrap of the job after BASE by a docket of a number, with a file cut to a length, and with that on the shelves.
fn check_refused_scrap(
    rt: &(impl Abort + AllocGlobal),
    number: u32,
    length: usize,
    stock: Stock<'_>,
    refusal: Refusal,
) -> Result<(), Fail> {
    let (job, mut file) = base_job(rt)?;
    let mut marks = [Mark::default(); 5];
    let mut bytes = [0u8; 20];
    let shelves = shelves_with(&mut marks, &mut bytes, stock)?;
    let docket = docket_of(&file, number)?;
    file.truncate(length);
    let mut desk = Desk { job, file, shelves };
    check_unscrapped(rt, docket, &mut desk, refusal)
}

#[test]
fn refused_scraps(rt: HostRuntime) -> Result<(), Fail> {
    check_refused_scrap(&rt, 2, 327, NOTHING, Refusal::OtherDocket)?;
    check_refused_scrap(&rt, 1, 327, NOTHING, Refusal::OtherLength)?;
    for stock in FOREIGN {
        check_refused_scrap(&rt, 1, 328, *stock, Refusal::ForeignShelves)?;
    }
    Ok(())
}

// What a scrap of the job after BASE leaves: the pieces, empty shelves, and an empty job.
fn check_scrap(
    rt: &(impl Abort + AllocGlobal),
    stock: Stock<'_>,
    pieces: &[&[u8]],
) -> Result<(), Fail> {
    let (job, file) = base_job(rt)?;
    let mut marks = [Mark::default(); 5];
    let mut bytes = [0u8; 20];
    let shelves = shelves_with(&mut marks, &mut bytes, stock)?;
    let docket = docket_of(&file, 1)?;
    let mut desk = Desk { job, file, shelves };
    assert_eq!(rt; desk.scrap(docket).err(), None);
    let after = State {
        pieces,
        marks: &[],
        kept: b"",
        report: Report::default(),
    };
    desk.check_state(rt, ARRAY_HEAD, &after)
}

#[test]
fn scraps(rt: HostRuntime) -> Result<(), Fail> {
    check_scrap(&rt, BASE_STOCK, BASE_SCRAPPED)?;
    for (stock, pieces) in PASSING_SCRAPS {
        check_scrap(&rt, *stock, pieces)?;
    }
    Ok(())
}

const EMPTY_WITH_BYTES: &[Row<'static>] = &[
    (Line::Loan(0, 0, 0, 7), Err(Refusal::NoSuchPiece)),
    (Line::Paint(1, 7, 0, 0, b"A"), Err(Refusal::OtherLength)),
    (Line::Undo(1, 7), Err(Refusal::OtherLength)),
    (Line::Keep(1), Err(Refusal::LoanNotOut)),
    (Line::Cancel(1), Err(Refusal::OtherLength)),
];

const EMPTY_WITHOUT_BYTES: &[Row<'static>] = &[
    (Line::Loan(0, 0, 0, 7), Err(Refusal::NoSuchPiece)),
    (Line::Paint(0, 0, 0, 0, b"A"), Err(Refusal::LoanNotOut)),
    (Line::Undo(0, 0), Err(Refusal::LoanNotOut)),
    (Line::Keep(0), Err(Refusal::LoanNotOut)),
    (Line::Cancel(0), Err(Refusal::LoanNotOut)),
];

fn check_empty_looks(rt: &impl Abort, job: &Job, file: &[u8]) -> Result<(), Fail> {
    assert_eq!(rt; job.report(), Report::default());
    assert_eq!(rt;
        job.where_is(Piece::default()).err(),
        Some(Refusal::NoSuchPiece)
    );
    assert_eq!(rt; job.whose(0).err(), Some(Refusal::PastFileEnd));
    assert_eq!(rt;
        job.show(file, Piece::default()).err(),
        Some(Refusal::OtherLength)
    );
    assert_eq!(rt;
        job.show(&[], Piece::default()).err(),
        Some(Refusal::NoSuchPiece)
    );
    Ok(())
}

fn check_empty_calls(rt: &(impl Abort + AllocGlobal), desk: &mut Desk<'_>) -> Result<(), Fail> {
    desk.check_rows(rt, EMPTY_WITH_BYTES)?;
    check_unshipped(rt, &desk.file, &mut desk.job, 1, Refusal::OtherDocket)?;
    let docket = docket_of(&desk.file, 1)?;
    check_unscrapped(rt, docket, desk, Refusal::OtherDocket)?;
    desk.file.clear();
    desk.check_rows(rt, EMPTY_WITHOUT_BYTES)
}

#[test]
fn empty_job(rt: HostRuntime) -> Result<(), Fail> {
    let mut desk = Desk {
        job: Job::empty(),
        file: file_of(rt.alloc(), TINY_HEAD, TINY_PIECES)?,
        shelves: Shelves::of(Shelf::new(&mut []), Shelf::new(&mut [])),
    };
    check_empty_looks(&rt, &desk.job, &desk.file)?;
    check_empty_calls(&rt, &mut desk)
}

// A refused open leaves the job as it was; one that succeeds forgets its loans.
#[test]
fn open_again(rt: HostRuntime) -> Result<(), Fail> {
    let (mut job, file) = base_job(&rt)?;
    let before = job.report();
    let refusal = match job.open(&file[0..file.len().min(327)], 2, &BuiltInCodes) {
        Ok(docket) => {
            spend(docket, &mut job);
            return Err(Fail::new("a file that is too short opens"));
        }
        Err(refusal) => refusal,
    };
    assert_eq!(rt; refusal, Refusal::WrongEnd);
    assert_eq!(rt; job.report(), before);
    assert_eq!(rt;
        job.loan(Piece::default(), 9).err(),
        Some(Refusal::PieceOut)
    );
    let docket = job.open(&file, 2, &BuiltInCodes)?;
    let report = job.report();
    let number = docket.number();
    let first = job.loan(Piece::default(), 9);
    spend(docket, &mut job);
    assert_eq!(rt; report, Report::default());
    assert_eq!(rt; (number, first), (2, Ok(1)));
    Ok(())
}

// A run that is not made changes neither the job nor the answers.
fn check_refused_run(
    rt: &impl Abort,
    file: &mut [u8],
    job: &mut Job,
    answers: &mut Vec<Answer>,
    expected: RunFault,
) -> Result<(), Fail> {
    let before = job.report();
    let mut shelves = Shelves::of(Shelf::new(&mut []), Shelf::new(&mut []));
    let format = Format::try_from(FormatName::Linear(32))?;
    let calls = [Call::Keep { loan: 4 }; 20];
    match run(job, file, &mut shelves, 2, &format, &calls, answers) {
        Ok(docket) => {
            spend(docket, job);
            Err(Fail::new("the run is made"))
        }
        Err(fault) => {
            assert_eq!(rt; fault, expected);
            assert_eq!(rt; answers.len(), 1);
            assert_eq!(rt; job.report(), before);
            Ok(())
        }
    }
}

// Where there is no room for the answers either, the file's refusal comes first.
#[test]
fn refused_run(rt: HostRuntime) -> Result<(), Fail> {
    let (mut job, mut file) = base_job(&rt)?;
    let mut answers: Vec<Answer> = vec![in rt.alloc(); Ok(99)]?;
    check_refused_run(&rt, &mut file, &mut job, &mut answers, RunFault::NoRoom)?;
    file.truncate(327);
    let refused = RunFault::Refused(Refusal::WrongEnd);
    check_refused_run(&rt, &mut file, &mut job, &mut answers, refused)
}

// A job opened with a family and the number 7. Its docket is spent on another job.
fn opened_with(rt: &impl Abort, file: &[u8], bits: u32) -> Result<Job, Fail> {
    let family = Format::try_from(FormatName::Linear(bits))?;
    let mut job = Job::empty();
    let docket = job.open_with(file, 7, &family)?;
    let number = docket.number();
    spend(docket, &mut Job::empty());
    assert_eq!(rt; number, 7);
    Ok(job)
}

// A piece lies there, and has these bytes.
fn check_piece(rt: &impl Abort, job: &Job, file: &[u8], piece: Piece, area: Area, bytes: &[u8]) {
    assert_eq!(rt; job.where_is(piece), Ok(area));
    assert_eq!(rt; job.show(file, piece), Ok(bytes));
}

// 2 × 2 × 20 pixels of a byte behind 128 bytes, so the second level begins at 208 and the third at 218.
#[test]
fn volume_with_a_family(rt: HostRuntime) -> Result<(), Fail> {
    let file = file_of(rt.alloc(), VOLUME_HEAD, VOLUME_PIECES)?;
    let mut job = opened_with(&rt, &file, 8)?;
    let piece = Piece {
        element: 0,
        level: 2,
        slice: 4,
    };
    let area = Area {
        place: 222,
        length: 1,
        row_bytes: 1,
        rows: 1,
    };
    check_piece(&rt, &job, &file, piece, area, b"p");
    check_unshipped(&rt, &file, &mut job, 8, Refusal::OtherDocket)?;
    assert_eq!(rt;
        shipped(docket_of(&file, 7)?, &mut job),
        Ok(Report::default())
    );
    Ok(())
}

// 4 × 3 pixels of 4 bytes behind 148 bytes: 60 bytes an element, 48 and 8 and 4 of its levels.
#[test]
fn array_with_a_family(rt: HostRuntime) -> Result<(), Fail> {
    let file = file_of(rt.alloc(), ARRAY_HEAD, ARRAY_PIECES)?;
    let job = opened_with(&rt, &file, 32)?;
    let piece = Piece {
        element: 1,
        level: 1,
        slice: 0,
    };
    let area = Area {
        place: 256,
        length: 8,
        row_bytes: 8,
        rows: 1,
    };
    check_piece(&rt, &job, &file, piece, area, b"tcuhsvhb");
    Ok(())
}
