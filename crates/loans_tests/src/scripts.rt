// Scripts: lists of calls with what must come of them.
use crate::desk::{Desk, file_of, opened, spend};
use dds::Piece;
use formats::{Format, FormatName};
use loans::{Answer, Call, Job, Mark, Painting, Report, Shelves};
use painters::painter_of;
use refusal::Refusal;
use shelf::Shelf;
use std::alloc::{AllocGlobal, Global};
use std::ops::Range;
use std::process::Abort;
use std::test::Fail;

// A call, with its arguments in the order in which an order line has them.
#[derive(Clone, Copy)]
pub enum Line<'a> {
    Loan(u32, u32, u32, u32),
    Paint(u32, u32, u32, u32, &'a [u8]),
    Undo(u32, u32),
    Keep(u32),
    Cancel(u32),
}

// A call, and its answer.
pub type Row<'a> = (Line<'a>, Answer);

// What stands on the two shelves: of each mark the loan, the place and the length, which in a table of values take one line, where a
// Mark takes five; and the kept bytes.
pub type Stock<'a> = (&'a [(u32, usize, usize)], &'a [u8]);

// What calls leave: the bytes of each piece, both shelves, and the report.
#[derive(Clone, Copy)]
pub struct State<'a> {
    pub pieces: &'a [&'a [u8]],
    pub marks: &'a [(u32, usize, usize)],
    pub kept: &'a [u8],
    pub report: Report,
}

// Bytes of a file that one painter has, the loan and its borrower, or nobody: how many follow one another.
pub type Painted = (u64, Option<(u32, u32)>);

// A file as its head and its pieces, the capacities of two shelves, calls, what they leave, who painted each byte, and the pieces
// after a scrap then.
#[derive(Clone, Copy)]
pub struct Script<'a> {
    pub head: &'a [&'a [u8]],
    pub format: FormatName,
    pub before: &'a [&'a [u8]],
    pub marks: usize,
    pub space: usize,
    pub lines: &'a [Row<'a>],
    pub after: State<'a>,
    pub painters: &'a [Painted],
    pub scrapped: &'a [&'a [u8]],
}

// A call on altered shelves that is carried out, its answer, and what it leaves.
#[derive(Clone, Copy)]
pub struct Trial<'a> {
    pub stock: Stock<'a>,
    pub line: Line<'a>,
    pub answer: u32,
    pub after: State<'a>,
}

impl<'a> From<Line<'a>> for Call<'a> {
    fn from(line: Line<'a>) -> Call<'a> {
        match line {
            Line::Loan(element, level, slice, borrower) => Call::Loan {
                piece: Piece {
                    element,
                    level,
                    slice,
                },
                borrower,
            },
            Line::Paint(loan, borrower, row, first, bytes) => Call::Paint(Painting {
                loan,
                borrower,
                row,
                first,
                bytes,
            }),
            Line::Undo(loan, borrower) => Call::Undo { loan, borrower },
            Line::Keep(loan) => Call::Keep { loan },
            Line::Cancel(loan) => Call::Cancel { loan },
        }
    }
}

fn calls_of<'a>(heap: Global, rows: &[Row<'a>]) -> Result<Vec<Call<'a>>, Fail> {
    Ok(
        rows.iter()
            .map(|(line, _)| Call::from(*line))
            .collect(heap)?,
    )
}

fn check_answers(rt: &impl Abort, rows: &[Row<'_>], answers: &[Answer]) -> Result<(), Fail> {
    assert_eq!(rt; answers.len(), rows.len());
    for (position, (answer, (_, expected))) in answers.iter().zip(rows).enumerate() {
        assert_eq!(rt; *answer, *expected, "position {position}");
    }
    Ok(())
}

// The calls of rows through `run`, on a desk, are answered as they must be.
pub(crate) fn check_run(
    rt: &(impl Abort + AllocGlobal),
    format: FormatName,
    rows: &[Row<'_>],
    desk: &mut Desk<'_>,
) -> Result<(), Fail> {
    let calls = calls_of(rt.alloc(), rows)?;
    let mut answers = Vec::new(rt.alloc());
    let format = Format::try_from(format)?;
    let docket = desk.run(&format, &calls, &mut answers)?;
    spend(docket, &mut desk.job);
    check_answers(rt, rows, &answers)
}

// Calls that were made on a job, and how they were answered: two lists, as a run takes the one and gives the other.
#[derive(Clone, Copy)]
struct Made<'a> {
    job: &'a Job,
    calls: &'a [Call<'a>],
    answers: &'a [Answer],
}

impl Made<'_> {
    // The bytes at these places have that painter.
    fn check_painted(
        &self,
        rt: &impl Abort,
        places: Range<u64>,
        expected: Option<(u32, u32)>,
    ) -> Result<(), Fail> {
        for place in places {
            let painter = painter_of(self.job, self.calls, self.answers, place).map(|painter| (
                painter.loan,
                painter.borrower,
            ));
            assert_eq!(rt; painter, expected, "place {place}");
        }
        Ok(())
    }

    // Each byte of the file has its painter, and so has the place behind its last byte: nobody.
    fn check_painters(&self, rt: &impl Abort, runs: &[Painted]) -> Result<(), Fail> {
        let mut place = 0u64;
        for (length, painter) in runs {
            let end = place.saturating_add(*length);
            self.check_painted(rt, place..end, *painter)?;
            place = end;
        }
        self.check_painted(rt, place..place.saturating_add(1), None)
    }
}

// What a run left, and what it answered, beside the calls that it took. What stood among the answers before the run stands first.
fn check_left(
    rt: &(impl Abort + AllocGlobal),
    script: &Script<'_>,
    desk: &Desk<'_>,
    calls: &[Call<'_>],
    answers: &[Answer],
) -> Result<(), Fail> {
    desk.check_state(rt, script.head, &script.after)?;
    let [Ok(99), answers @ ..] = answers else {
        return Err(Fail::new("the answer before the run is gone"));
    };
    check_answers(rt, script.lines, answers)?;
    let made = Made {
        job: &desk.job,
        calls,
        answers,
    };
    made.check_painters(rt, script.painters)
}

// After a scrap each loan that was out counts as cancelled, and the job is empty.
fn check_scrapped(
    rt: &(impl Abort + AllocGlobal),
    script: &Script<'_>,
    answer: Result<Report, Refusal>,
    file: &[u8],
) -> Result<(), Fail> {
    let after = script.after.report;
    let report = Report {
        cancelled: after.cancelled.saturating_add(after.out),
        out: 0,
        ..after
    };
    assert_eq!(rt; answer, Ok(report));
    let expected = file_of(rt.alloc(), script.head, script.scrapped)?;
    assert!(rt; file == expected.as_slice(), "the file after a scrap");
    Ok(())
}

// The whole list through `run`, on a desk, and then a scrap.
fn run_and_scrap(
    rt: &(impl Abort + AllocGlobal),
    script: &Script<'_>,
    desk: &mut Desk<'_>,
) -> Result<(), Fail> {
    let calls = calls_of(rt.alloc(), script.lines)?;
    let mut answers: Vec<Answer> = vec![in rt.alloc(); Ok(99)]?;
    let format = Format::try_from(script.format)?;
    let docket = desk.run(&format, &calls, &mut answers)?;
    let left = check_left(rt, script, desk, &calls, &answers);
    let scrapped = desk.scrap(docket);
    left?;
    check_scrapped(rt, script, scrapped, &desk.file)
}

fn check_whole(rt: &(impl Abort + AllocGlobal), script: &Script<'_>) -> Result<(), Fail> {
    let mut marks = vec![in rt.alloc(); Mark::default(); script.marks]?;
    let mut bytes = vec![in rt.alloc(); 0u8; script.space]?;
    let mut desk = Desk {
        job: Job::empty(),
        file: file_of(rt.alloc(), script.head, script.before)?,
        shelves: Shelves::of(Shelf::new(&mut marks), Shelf::new(&mut bytes)),
    };
    run_and_scrap(rt, script, &mut desk)
}

// Call by call, on a job whose docket is spent already.
fn check_single_calls(rt: &(impl Abort + AllocGlobal), script: &Script<'_>) -> Result<(), Fail> {
    let mut marks = vec![in rt.alloc(); Mark::default(); script.marks]?;
    let mut bytes = vec![in rt.alloc(); 0u8; script.space]?;
    let file = file_of(rt.alloc(), script.head, script.before)?;
    let mut desk = Desk {
        job: opened(&file)?,
        file,
        shelves: Shelves::of(Shelf::new(&mut marks), Shelf::new(&mut bytes)),
    };
    desk.check_rows(rt, script.lines)?;
    desk.check_state(rt, script.head, &script.after)
}

// The script through `run`, and through the calls one by one.
pub(crate) fn check_script(
    rt: &(impl Abort + AllocGlobal),
    script: &Script<'_>,
) -> Result<(), Fail> {
    check_whole(rt, script)?;
    check_single_calls(rt, script)
}
