// Retouches a DDS texture under loan, from opening to shipping, and prints what was done. The expected output, in the file stdout
// beside this crate's src, was made by tools/expected_retouch.py, which uses none of this code.
#![tactic(auto)]

mod session;

use crate::session::{Desk, steps};
use formats::BuiltInCodes;
use loans::{Answer, Call, Job, Mark, Shelves};
use refusal::Refusal;
use shelf::Shelf;
use std::alloc::AllocError;
use std::fs::File;
use std::io::{ErrorKind, Write};
use std::path::Path;
use std::process::ExitCode;
use std::{env, fs, io};
use thiserror::Error;
use trace::{AnswerText, CallText, TracedChange, changed_bytes, last_piece};

const USAGE: &str =
    "usage: retouch FILE       retouches a DDS file in memory, and prints each step and which bytes changed
       retouch FILE OUT   also writes the retouched file, whole or not at all
       retouch --help     this text

The file's first piece is lent to borrower 1 and its last to borrower 2. Both
paint; borrower 1 takes a stroke back. Loan 1 is kept, loan 2 is cancelled, and
the file ships. OUT is written as OUT.part and then renamed, and the steps are
printed when it stands.";

// Why a file could not be retouched or written.
#[derive(Debug, Drop, Error)]
enum Fault {
    #[error("{0}")]
    Unreadable(io::Error),
    #[error("{0}")]
    Refused(#[from] Refusal),
    #[error("out of memory")]
    Memory(#[from] AllocError),
    #[error("the file beside the output exists")]
    PartExists,
    #[error("the output was not written: {0}")]
    Unwritten(io::Error),
    #[error("the output's folder was not synced: {0}")]
    Folder(io::Error),
    #[error("the steps cannot be printed: {0}")]
    Output(io::Error),
}

// A file's name and its length.
fn tell_file(text: &mut String, step: &str, name: &str, length: usize) -> Result<(), AllocError> {
    writeln!(text, "{step} {name}: {length} bytes")
}

// Makes the calls, and tells each with its answer; the longest of them has 54 characters.
fn work(
    rt: &HostRuntime,
    text: &mut String,
    calls: &[Call<'_>],
    desk: &mut Desk<'_>,
) -> Result<Vec<Answer>, AllocError> {
    let mut answers = Vec::with_capacity(rt.alloc(), calls.len())?;
    for call in calls {
        let answer = desk.carry_out(*call);
        answers.push(answer)?;
        let words = CallText(*call).to_string(rt.alloc())?;
        let answer = AnswerText(*call, answer);
        writeln!(text, "{words:<54}  {answer}")?;
    }
    Ok(answers)
}

// A line for each run of changed bytes.
fn tell_changes(
    text: &mut String,
    before: &[u8],
    desk: &Desk<'_>,
    calls: &[Call<'_>],
    answers: &[Answer],
) -> Result<(), Fault> {
    for change in desk.changes(before) {
        let change = TracedChange::of(&desk.job, calls, answers, change)?;
        writeln!(text, "changed: {change}")?;
    }
    let total = changed_bytes(before, desk.file);
    writeln!(text, "changed: {total} bytes in all")?;
    Ok(())
}

// What is told of a texture: each step with its answer, then what changed.
fn work_and_tell(
    rt: &HostRuntime,
    text: &mut String,
    path: &str,
    before: &[u8],
    desk: &mut Desk<'_>,
) -> Result<(), Fault> {
    let length = desk.file.len();
    tell_file(text, "open", path, length)?;
    let calls = steps(last_piece(&desk.job, length as u64));
    let answers = work(rt, text, &calls, desk)?;
    tell_changes(text, before, desk, &calls, &answers)
}

fn retouch(
    rt: &HostRuntime,
    text: &mut String,
    path: &str,
    before: &[u8],
    file: &mut [u8],
) -> Result<(), Fault> {
    let mut marks = [Mark::default(); 16];
    let mut bytes = [0u8; 256];
    let shelves = Shelves::of(Shelf::new(&mut marks), Shelf::new(&mut bytes));
    let mut job = Job::empty();
    let docket = job.open(file, 1, &BuiltInCodes)?;
    let mut desk = Desk { job, file, shelves };
    let worked = work_and_tell(rt, text, path, before, &mut desk);
    let ended = desk.finish(docket);
    worked?;
    let report = ended?;
    let granted = report.granted;
    let kept = report.kept;
    let cancelled = report.cancelled;
    writeln!(
        text,
        "ship: {granted} loans granted, {kept} kept, {cancelled} cancelled"
    )?;
    Ok(())
}

// A name is on the disk once its folder is.
fn sync_folder(rt: &HostRuntime, out: &str) -> io::Result<()> {
    let folder = match Path::new(out).parent() {
        Some(folder) if !folder.as_str().is_empty() => folder.as_str(),
        _ => ".",
    };
    File::open(rt, folder)?.sync_all()
}

// Whole or not at all, and on the disk before it has its name. The name beside it must be free: what stands there is the user's.
fn write_whole(rt: &HostRuntime, out: &str, bytes: &[u8]) -> Result<(), Fault> {
    let beside = format!(in rt.alloc(); "{out}.part")?;
    let mut part = match File::create_new(rt, beside.as_str()) {
        Ok(part) => part,
        Err(error) if error.kind() == ErrorKind::AlreadyExists => return Err(Fault::PartExists),
        Err(error) => return Err(Fault::Unwritten(error)),
    };
    let written = part
        .write_all(bytes)
        .and_then(|()| part.sync_all())
        .and_then(|()| fs::rename(rt, beside.as_str(), out));
    if written.is_err() {
        let _ = fs::remove_file(rt, beside.as_str());
    }
    written.map_err(Fault::Unwritten)?;
    sync_folder(rt, out).map_err(Fault::Folder)
}

// The memory for the line that tells of the output is there before that is written.
fn run(rt: &HostRuntime, text: &mut String, path: &str, out: Option<&str>) -> Result<(), Fault> {
    let before = fs::read(rt, path).map_err(Fault::Unreadable)?;
    let mut file = before.clone()?;
    retouch(rt, text, path, &before, &mut file)?;
    if let Some(out) = out {
        let mut line = String::new(rt.alloc());
        tell_file(&mut line, "write", out, file.len())?;
        text.reserve(line.len())?;
        write_whole(rt, out, &file)?;
        text.push_str(line.as_str())?;
    }
    Ok(())
}

// All at once and last, so that a reader who goes away leaves the output whole; that is no fault.
fn print(rt: &HostRuntime, text: &str) -> Result<(), Fault> {
    match rt.stdout().write_all(text.as_bytes()) {
        Err(error) if error.kind() != ErrorKind::BrokenPipe => Err(Fault::Output(error)),
        _ => Ok(()),
    }
}

// Says on standard error why it failed.
fn complain(rt: &HostRuntime, path: &str, out: &str, fault: &Fault) -> io::Result<()> {
    match fault {
        Fault::PartExists => eprintln!(rt;
            "retouch: {out} was not written: {out}.part exists; remove it, if a run that was ended left it"
        ),
        Fault::Unwritten(error) => eprintln!(rt;
            "retouch: {out} was not written, through {out}.part: {error}"
        ),
        Fault::Folder(error) => eprintln!(rt;
            "retouch: {out} was written, and a power cut may undo that: {error}"
        ),
        fault => eprintln!(rt; "retouch: {path}: {fault}"),
    }
}

// What fails is told once, behind what was done; the status says that it did.
fn main(rt: HostRuntime) -> io::Result<ExitCode> {
    let args: Vec<String> = env::args(&rt)?.skip(1).collect(rt.alloc())?;
    let path = match args.first() {
        Some(path) if args.len() <= 2 => path.as_str(),
        _ => {
            eprintln!(rt; "{USAGE}")?;
            return Ok(ExitCode::FAILURE);
        }
    };
    let out = args.get(1).map(|out| out.as_str());
    let mut text = String::new(rt.alloc());
    let ended = if path == "--help" {
        writeln!(text, "{USAGE}").map_err(Fault::Memory)
    } else {
        run(&rt, &mut text, path, out)
    };
    let printed = print(&rt, text.as_str());
    match ended.and(printed) {
        Ok(()) => Ok(ExitCode::SUCCESS),
        Err(fault) => {
            complain(&rt, path, out.unwrap_or_default(), &fault)?;
            Ok(ExitCode::FAILURE)
        }
    }
}
