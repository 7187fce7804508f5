// The work of each kind, and its checksum.
use crate::heads::{Sample, array, canvas, handful};
use crate::random::{Random, Sum};
use crate::script::{Plan, calls};
use dds::{Layout, Piece};
use formats::{BuiltInCodes, Linear};
use loans::{Answer, Call, Docket, Job, Mark, Report, RunFault, Shelves, run, scrap};
use refusal::Refusal;
use shelf::Shelf;
use std::alloc::{AllocError, Global};
use thiserror::Error;

// The most kept bytes that the shelves hold.
const MOST_KEPT: usize = 67_108_864;

// Why a workload was not done.
#[derive(Debug, Drop, Error)]
pub(crate) enum Fault {
    #[error("{0}")]
    NoMemory(#[from] AllocError),
    #[error("{0}")]
    Refused(#[from] Refusal),
    #[error("{0}")]
    NotRun(#[from] RunFault),
}

fn open_all(samples: &[Sample], sum: &mut Sum) {
    for sample in samples {
        match Layout::read(sample.head(), &BuiltInCodes) {
            Ok(layout) => {
                sum.add(layout.length());
                sum.add(layout.piece_count());
            }
            Err(refusal) => sum.add(u64::from(refusal.number())),
        }
    }
}

fn open_often(samples: &[Sample], rounds: u32) -> u64 {
    let mut sum = Sum::new();
    for _ in 0..rounds {
        open_all(samples, &mut sum);
    }
    sum.value()
}

pub(crate) fn open_handful(heap: Global, rounds: u32) -> Result<u64, Fault> {
    let samples = handful(heap)?;
    Ok(open_often(&samples, rounds))
}

// An array, and the same of a file that is one byte longer.
pub(crate) fn open_array(
    heap: Global,
    elements: u32,
    levels: u32,
    rounds: u32,
) -> Result<u64, Fault> {
    let samples = [
        array(heap, elements, levels, 0)?,
        array(heap, elements, levels, 1)?,
    ];
    Ok(open_often(&samples, rounds))
}

fn owner_value(owner: Result<Option<(Piece, u32)>, Refusal>) -> u64 {
    match owner {
        Ok(Some((piece, offset))) => {
            u64::from(piece.element) << 40
                ^ u64::from(piece.level) << 36
                ^ u64::from(piece.slice) << 32
                ^ u64::from(offset)
        }
        Ok(None) => 1 << 63,
        Err(refusal) => u64::from(refusal.number()),
    }
}

fn ask_all(layout: &Layout, places: &[u64], sum: &mut Sum) {
    for place in places {
        sum.add(owner_value(layout.piece_at(*place)));
    }
}

// Places in a file of that length, and some past its end.
fn places_in(heap: Global, length: u64, count: u32) -> Result<Vec<u64>, AllocError> {
    let limit = u32::try_from(length).unwrap_or(0).saturating_add(8);
    let mut random = Random::new();
    let mut places = Vec::new(heap);
    for _ in 0..count {
        places.push(u64::from(random.below(limit)))?;
    }
    Ok(places)
}

pub(crate) fn ask_often(
    heap: Global,
    elements: u32,
    levels: u32,
    count: u32,
    rounds: u32,
) -> Result<u64, Fault> {
    let sample = array(heap, elements, levels, 0)?;
    let layout = Layout::read(sample.head(), &BuiltInCodes)?;
    let places = places_in(heap, layout.length(), count)?;
    let mut sum = Sum::new();
    for _ in 0..rounds {
        ask_all(&layout, &places, &mut sum);
    }
    Ok(sum.value())
}

fn add_marks(sum: &mut Sum, marks: &[Mark]) {
    for mark in marks {
        sum.add(u64::from(mark.loan));
        sum.add(mark.place as u64);
        sum.add(mark.length as u64);
    }
}

fn add_answers(sum: &mut Sum, answers: &[Answer]) {
    for answer in answers {
        sum.add(match answer {
            Ok(number) => u64::from(*number),
            Err(refusal) => 1 << 32 | u64::from(refusal.number()),
        });
    }
}

fn add_report(sum: &mut Sum, report: Report) {
    sum.add(u64::from(report.granted));
    sum.add(u64::from(report.kept));
    sum.add(u64::from(report.cancelled));
    sum.add(u64::from(report.out));
}

// Spends a docket on a job that it does not stand for: a scrap takes it even where it refuses, and the loans that are out need no end.
fn spend(docket: Docket) {
    let mut shelves = Shelves::of(Shelf::new(&mut []), Shelf::new(&mut []));
    let _ = scrap(docket, &mut Job::empty(), &mut [], &mut shelves);
}

// What calls are made on.
#[derive(Drop)]
struct Desk {
    file: Vec<u8>,
    marks: Vec<Mark>,
    bytes: Vec<u8>,
}

impl Desk {
    fn new(heap: Global, plan: Plan, random: &mut Random) -> Result<Desk, AllocError> {
        let strokes = plan.strokes as usize;
        let most_kept = strokes.saturating_mul(plan.length as usize).min(MOST_KEPT);
        Ok(Desk {
            file: canvas(heap)?.file(heap, random)?,
            marks: vec![in heap; Mark::default(); strokes]?,
            bytes: vec![in heap; 0u8; most_kept]?,
        })
    }

    // One run on empty shelves. Only the last round is summed up.
    fn make(&mut self, heap: Global, calls: &[Call<'_>], last: bool) -> Result<Sum, Fault> {
        let family = Linear::new(8).ok_or(Refusal::UnknownFormat)?;
        let mut shelves = Shelves::of(Shelf::new(&mut self.marks), Shelf::new(&mut self.bytes));
        let mut job = Job::empty();
        let mut answers = Vec::new(heap);
        answers.reserve(calls.len())?;
        let docket = run(
            &mut job,
            &mut self.file,
            &mut shelves,
            1,
            &family,
            calls,
            &mut answers,
        )?;
        let mut sum = Sum::new();
        if last {
            add_answers(&mut sum, &answers);
            sum.add_bytes(&self.file);
            add_marks(&mut sum, shelves.marks().elements());
            sum.add_bytes(shelves.bytes().elements());
            add_report(&mut sum, job.report());
        }
        spend(docket);
        Ok(sum)
    }
}

fn ink_of(random: &mut Random) -> [u8; 8192] {
    let mut ink = [0u8; 8192];
    for byte in &mut ink {
        *byte = random.below(256) as u8;
    }
    ink
}

pub(crate) fn make_calls(heap: Global, plan: Plan, rounds: u32) -> Result<u64, Fault> {
    let mut random = Random::new();
    let mut desk = Desk::new(heap, plan, &mut random)?;
    let ink = ink_of(&mut random);
    let calls = calls(heap, plan, &ink)?;
    let mut sum = Sum::new();
    for round in 1..=rounds {
        sum = desk.make(heap, &calls, round == rounds)?;
    }
    Ok(sum.value())
}
