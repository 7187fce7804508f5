// What calls work on: files, shelves, jobs; and how they stand at one time.
use crate::scripts::{Line, Row, State, Stock};
use formats::{BuiltInCodes, Format};
use loans::{Answer, Call, Docket, Job, Mark, Report, Shelves, run, scrap};
use refusal::Refusal;
use shelf::Shelf;
use std::alloc::{AllocGlobal, Global};
use std::process::Abort;
use std::test::Fail;

// A file from the parts of its head and from its pieces.
pub(crate) fn file_of(heap: Global, head: &[&[u8]], pieces: &[&[u8]]) -> Result<Vec<u8>, Fail> {
    let mut file = Vec::new(heap);
    for part in head.iter().chain(pieces) {
        file.extend_from_slice(part)?;
    }
    Ok(file)
}

// Spends a docket, whatever it stands for: a scrap takes it even where it refuses.
pub(crate) fn spend(docket: Docket, job: &mut Job) {
    let mut shelves = Shelves::of(Shelf::new(&mut []), Shelf::new(&mut []));
    let _ = scrap(docket, job, &mut [], &mut shelves);
}

// A docket of a number: another job of that file is opened for it.
pub(crate) fn docket_of(file: &[u8], number: u32) -> Result<Docket, Fail> {
    Ok(Job::empty().open(file, number, &BuiltInCodes)?)
}

// A newly opened job of number 1. Its docket is spent on another job, so that a test can stop at any check.
pub(crate) fn opened(file: &[u8]) -> Result<Job, Fail> {
    let mut job = Job::empty();
    let docket = job.open(file, 1, &BuiltInCodes)?;
    spend(docket, &mut Job::empty());
    Ok(job)
}

fn put_marks(shelf: &mut Shelf<'_, Mark>, marks: &[(u32, usize, usize)]) -> Result<(), Fail> {
    for (loan, place, length) in marks {
        let _ = shelf.put(Mark {
            loan: *loan,
            place: *place,
            length: *length,
        })?;
    }
    Ok(())
}

// Shelves that hold a stock.
pub(crate) fn shelves_with<'a>(
    marks: &'a mut [Mark],
    bytes: &'a mut [u8],
    stock: Stock<'_>,
) -> Result<Shelves<'a>, Fail> {
    let mut marks = Shelf::new(marks);
    put_marks(&mut marks, stock.0)?;
    let mut bytes = Shelf::new(bytes);
    let _ = bytes.put_all(stock.1)?;
    Ok(Shelves::of(marks, bytes))
}

// The file, both shelves and the report at one time.
#[derive(PartialEq, Debug, Drop)]
pub(crate) struct Snapshot {
    file: Vec<u8>,
    marks: Vec<(u32, usize, usize)>,
    kept: Vec<u8>,
    report: Report,
}

impl Snapshot {
    // How all stands by an expected state of a file.
    pub(crate) fn expected(
        heap: Global,
        head: &[&[u8]],
        state: &State<'_>,
    ) -> Result<Snapshot, Fail> {
        Ok(Snapshot {
            file: file_of(heap, head, state.pieces)?,
            marks: state.marks.to_vec(heap)?,
            kept: state.kept.to_vec(heap)?,
            report: state.report,
        })
    }
}

// A job with its file and two shelves.
#[derive(Drop)]
pub(crate) struct Desk<'a> {
    pub(crate) job: Job,
    pub(crate) file: Vec<u8>,
    pub(crate) shelves: Shelves<'a>,
}

impl Desk<'_> {
    // How all stands now.
    pub(crate) fn snapshot(&self, heap: Global) -> Result<Snapshot, Fail> {
        let marks = self.shelves.marks().elements().iter();
        Ok(Snapshot {
            file: self.file.clone()?,
            marks: marks
                .map(|mark| (mark.loan, mark.place, mark.length))
                .collect(heap)?,
            kept: self.shelves.bytes().elements().to_vec(heap)?,
            report: self.job.report(),
        })
    }

    // All stands as it must.
    pub(crate) fn check_state(
        &self,
        rt: &(impl Abort + AllocGlobal),
        head: &[&[u8]],
        state: &State<'_>,
    ) -> Result<(), Fail> {
        let expected = Snapshot::expected(rt.alloc(), head, state)?;
        assert_eq!(rt; self.snapshot(rt.alloc())?, expected);
        Ok(())
    }

    // Opens the job with number 1, and makes the calls; there is room for their answers.
    pub(crate) fn run(
        &mut self,
        format: &Format,
        calls: &[Call<'_>],
        answers: &mut Vec<Answer>,
    ) -> Result<Docket, Fail> {
        answers.reserve(calls.len())?;
        Ok(run(
            &mut self.job,
            &mut self.file,
            &mut self.shelves,
            1,
            format,
            calls,
            answers,
        )?)
    }

    // Scraps the job.
    pub(crate) fn scrap(&mut self, docket: Docket) -> Result<Report, Refusal> {
        scrap(docket, &mut self.job, &mut self.file, &mut self.shelves)
    }

    // Makes the call of a line by the job's own method for it, since these methods are what is tried; `run` makes calls as values.
    pub(crate) fn answer_to(&mut self, line: Line<'_>) -> Answer {
        let Desk { job, file, shelves } = self;
        match line.into() {
            Call::Loan { piece, borrower } => job.loan(piece, borrower),
            Call::Paint(painting) => job.paint(file, shelves, painting),
            Call::Undo { loan, borrower } => job.undo(file, shelves, loan, borrower),
            Call::Keep { loan } => job.keep(shelves, loan),
            Call::Cancel { loan } => job.cancel(file, shelves, loan),
        }
    }

    // The call is answered as it must be, and where it is refused it changes nothing.
    fn check_row(
        &mut self,
        rt: &(impl Abort + AllocGlobal),
        position: usize,
        row: Row<'_>,
    ) -> Result<(), Fail> {
        let (line, expected) = row;
        let before = self.snapshot(rt.alloc())?;
        let answer = self.answer_to(line);
        assert_eq!(rt; answer, expected, "the call at {position}");
        if answer.is_err() {
            assert_eq!(rt; self.snapshot(rt.alloc())?, before);
        }
        Ok(())
    }

    pub(crate) fn check_rows(
        &mut self,
        rt: &(impl Abort + AllocGlobal),
        rows: &[Row<'_>],
    ) -> Result<(), Fail> {
        for (position, row) in rows.iter().enumerate() {
            self.check_row(rt, position, *row)?;
        }
        Ok(())
    }
}
