// Shelves that were altered, files of another length, and jobs on shelves of another job.
use crate::desk::{Desk, file_of, opened, shelves_with};
use crate::expected::{
    ARRAY_HEAD, ARRAY_PIECES, BASE, BASE_LINES, BASE_STOCK, FIRST_AT_OTHER_LENGTH, FIRST_OF,
    FOREIGN, PASSING,
};
use crate::scripts::{Line, Row, Stock, Trial, check_run, check_script};
use formats::FormatName;
use loans::{Job, Mark, Shelves};
use refusal::Refusal;
use shelf::Shelf;
use std::alloc::AllocGlobal;
use std::process::Abort;
use std::test::Fail;

// Calls that need the job's shelves, the last on a loan with no strokes. They come before a full shelf too: five marks fill it.
const REFUSED: &[Row<'static>] = &[
    (Line::Paint(1, 7, 0, 0, b"Q"), Err(Refusal::ForeignShelves)),
    (Line::Undo(1, 7), Err(Refusal::ForeignShelves)),
    (Line::Keep(2), Err(Refusal::ForeignShelves)),
    (Line::Cancel(2), Err(Refusal::ForeignShelves)),
    (Line::Keep(4), Err(Refusal::ForeignShelves)),
];

// The job after BASE, and its file.
pub(crate) fn base_job(rt: &(impl Abort + AllocGlobal)) -> Result<(Job, Vec<u8>), Fail> {
    let mut marks = [Mark::default(); 5];
    let mut bytes = [0u8; 20];
    let file = file_of(rt.alloc(), ARRAY_HEAD, ARRAY_PIECES)?;
    let mut desk = Desk {
        job: opened(&file)?,
        file,
        shelves: Shelves::of(Shelf::new(&mut marks), Shelf::new(&mut bytes)),
    };
    desk.check_rows(rt, BASE_LINES)?;
    let Desk { job, file, .. } = desk;
    Ok((job, file))
}

// On the shelves that another job left, a new job lends, but no call that needs shelves is carried out.
const NEXT_JOB: &[Row<'static>] = &[
    (Line::Loan(0, 0, 0, 7), Ok(1)),
    (Line::Paint(1, 7, 0, 0, b"Q"), Err(Refusal::ForeignShelves)),
    (Line::Undo(1, 7), Err(Refusal::ForeignShelves)),
    (Line::Keep(1), Err(Refusal::ForeignShelves)),
    (Line::Cancel(1), Err(Refusal::ForeignShelves)),
    (Line::Cancel(2), Err(Refusal::LoanNotOut)),
];

// Calls on a copy of the file, with that on the shelves.
fn check_on_stock(
    rt: &(impl Abort + AllocGlobal),
    job: Job,
    file: &[u8],
    stock: Stock<'_>,
    rows: &[Row<'_>],
) -> Result<(), Fail> {
    let mut marks = [Mark::default(); 5];
    let mut bytes = [0u8; 20];
    let mut desk = Desk {
        job,
        file: file.to_vec(rt.alloc())?,
        shelves: shelves_with(&mut marks, &mut bytes, stock)?,
    };
    desk.check_rows(rt, rows)
}

// The same on the job after BASE, which is made anew each time.
fn check_on_base(
    rt: &(impl Abort + AllocGlobal),
    file: &[u8],
    stock: Stock<'_>,
    rows: &[Row<'_>],
) -> Result<(), Fail> {
    let (job, _) = base_job(rt)?;
    check_on_stock(rt, job, file, stock, rows)
}

// The calls through `run`, on a copy of the file and with that on the shelves.
fn check_run_on_stock(
    rt: &(impl Abort + AllocGlobal),
    file: &[u8],
    stock: Stock<'_>,
    rows: &[Row<'_>],
) -> Result<(), Fail> {
    let mut marks = [Mark::default(); 5];
    let mut bytes = [0u8; 20];
    let mut desk = Desk {
        job: Job::empty(),
        file: file.to_vec(rt.alloc())?,
        shelves: shelves_with(&mut marks, &mut bytes, stock)?,
    };
    check_run(rt, FormatName::Linear(32), rows, &mut desk)
}

#[test]
fn base(rt: HostRuntime) -> Result<(), Fail> {
    check_script(&rt, &BASE)
}

#[test]
fn foreign_shelves(rt: HostRuntime) -> Result<(), Fail> {
    let (_, file) = base_job(&rt)?;
    for stock in FOREIGN {
        check_on_base(&rt, &file, *stock, REFUSED)?;
    }
    Ok(())
}

fn check_trial(
    rt: &(impl Abort + AllocGlobal),
    position: usize,
    trial: &Trial<'_>,
) -> Result<(), Fail> {
    let (job, file) = base_job(rt)?;
    let mut marks = [Mark::default(); 5];
    let mut bytes = [0u8; 20];
    let mut desk = Desk {
        job,
        file,
        shelves: shelves_with(&mut marks, &mut bytes, trial.stock)?,
    };
    let answer = desk.answer_to(trial.line);
    assert_eq!(rt; answer, Ok(trial.answer), "trial {position}");
    desk.check_state(rt, ARRAY_HEAD, &trial.after)?;
    let next = desk.answer_to(Line::Undo(4, 9));
    assert_ne!(rt;
        next,
        Err(Refusal::ForeignShelves),
        "the shelves are the job's still"
    );
    Ok(())
}

#[test]
fn altered_shelves_that_pass(rt: HostRuntime) -> Result<(), Fail> {
    for (position, trial) in PASSING.iter().enumerate() {
        check_trial(&rt, position, trial)?;
    }
    Ok(())
}

#[test]
fn which_refusal_comes_first(rt: HostRuntime) -> Result<(), Fail> {
    let (_, mut file) = base_job(&rt)?;
    let none: Stock<'_> = (&[], &[]);
    check_on_base(&rt, &file, none, FIRST_OF)?;
    file.push(0)?;
    check_on_base(&rt, &file, none, FIRST_AT_OTHER_LENGTH)?;
    file.truncate(327);
    check_on_base(&rt, &file, none, FIRST_AT_OTHER_LENGTH)?;
    check_on_base(&rt, &[], none, FIRST_AT_OTHER_LENGTH)
}

#[test]
fn shelves_of_an_earlier_job(rt: HostRuntime) -> Result<(), Fail> {
    let (_, file) = base_job(&rt)?;
    check_on_stock(&rt, opened(&file)?, &file, BASE_STOCK, NEXT_JOB)?;
    check_run_on_stock(&rt, &file, BASE_STOCK, NEXT_JOB)
}
