// The order program: carries out the orders on standard input on master.dds, prints an answer for each, and ships the texture.
#![tactic(auto)]

#[cfg(test)]
mod tests;

use orders::{Ending, LONGEST_MASTER, LONGEST_ORDERS, Reply, room_for, run_day};
use std::alloc::AllocError;
use std::fs::File;
use std::io::{ErrorKind, Read, Write};
use std::process::ExitCode;
use std::{env, fs, io};
use thiserror::Error;

const MASTER: &str = "master.dds";

const SHIPPED: &str = "shipped.dds";

// The shipped file is written under this name first.
const PART: &str = "shipped.dds.part";

const USAGE: &str =
    "usage: cuivakko < ORDERS    carries out orders on master.dds, which stays as it is

Prints a line for each order, 'ok' and a number or 'no' and a refusal's number. In
the end it writes shipped.dds and prints 'ship', or, where a loan is still out, it
writes nothing and prints 'scrap'. docs/ORDERS.md explains the orders.

  L ELEMENT LEVEL SLICE BORROWER       lends a piece, and answers the loan's number
  L ELEMENT BORROWER                   lends an element's first piece
  P LOAN BORROWER ROW FIRST DIGITS     paints bytes, two hex digits each
  U LOAN BORROWER                      takes the loan's newest stroke back
  K LOAN                               ends the loan, its strokes stand for good
  C LOAN                               takes all of the loan's strokes back, and ends it";

// What stopped the program.
#[derive(Debug, Drop, Error)]
enum Fault {
    #[error("the arguments cannot be read: {0}")]
    Arguments(io::Error),
    #[error("master.dds cannot be read: {0}")]
    Master(io::Error),
    #[error("the orders cannot be read: {0}")]
    Orders(io::Error),
    #[error("out of memory for the answers")]
    Memory(#[from] AllocError),
    #[error("the output cannot be printed: {0}")]
    Output(io::Error),
    #[error("shipped.dds was not written: {0}")]
    Shipped(io::Error),
    #[error("shipped.dds was written, and a power cut may undo that: {0}")]
    Folder(io::Error),
}

// Reads no more than the limit and one byte, which tells that the limit is passed.
fn read_up_to<R: Read + Drop>(rt: &HostRuntime, reader: R, limit: usize) -> io::Result<Vec<u8>> {
    let mut bytes = Vec::new(rt.alloc());
    reader
        .take((limit as u64).saturating_add(1))
        .read_to_end(&mut bytes)?;
    Ok(bytes)
}

// A texture that is absent counts as an empty one.
fn read_master(rt: &HostRuntime) -> io::Result<Vec<u8>> {
    match File::open(rt, MASTER) {
        Ok(file) => read_up_to(rt, file, LONGEST_MASTER),
        Err(error) if error.kind() == ErrorKind::NotFound => Ok(Vec::new(rt.alloc())),
        Err(error) => Err(error),
    }
}

// On the disk when it is closed.
fn fill(mut part: File, bytes: &[u8]) -> io::Result<()> {
    part.write_all(bytes)?;
    part.sync_all()
}

// Whole or not at all. What a killed run left under the first name is taken away, and so is a link of that name, which is never written
// through.
fn write_shipped(rt: &HostRuntime, bytes: &[u8]) -> io::Result<()> {
    let _ = fs::remove_file(rt, PART);
    let part = File::create_new(rt, PART)?;
    let written = fill(part, bytes).and_then(|()| fs::rename(rt, PART, SHIPPED));
    if written.is_err() {
        let _ = fs::remove_file(rt, PART);
    }
    written
}

// The new name is on the disk once its folder is.
fn sync_folder(rt: &HostRuntime) -> io::Result<()> {
    File::open(rt, ".")?.sync_all()
}

fn print(rt: &HostRuntime, lines: &[u8]) -> Result<(), Fault> {
    let mut out = rt.stdout();
    out.write_all(lines)
        .and_then(|()| out.flush())
        .map_err(Fault::Output)
}

// The room for the answers is there before any order is carried out, and the last line is printed when the file stands.
fn day(rt: &HostRuntime, master: &mut [u8], orders: &[u8]) -> Result<(), Fault> {
    let mut answers = Vec::new(rt.alloc());
    answers.reserve(room_for(orders))?;
    let Ok(ending) = run_day(master, orders, &mut answers) else {
        unreachable!("the room is reserved")
    };
    print(rt, &answers)?;
    if ending == Ending::Shipped {
        write_shipped(rt, master).map_err(Fault::Shipped)?;
        sync_folder(rt).map_err(Fault::Folder)?;
    }
    print(rt, Reply::from(ending).line().as_str().as_bytes())
}

// Nothing is printed before both inputs are read.
fn read_and_work(rt: &HostRuntime) -> Result<(), Fault> {
    let mut master = read_master(rt).map_err(Fault::Master)?;
    let orders = read_up_to(rt, rt.stdin(), LONGEST_ORDERS).map_err(Fault::Orders)?;
    day(rt, &mut master, &orders)
}

// What the arguments ask for.
enum Task {
    Day,
    Help,
    Unknown,
}

fn read_arguments(rt: &HostRuntime) -> io::Result<Task> {
    let args: Vec<String> = env::args(rt)?.skip(1).collect(rt.alloc())?;
    Ok(match args.first() {
        None => Task::Day,
        Some(arg) if arg.as_str() == "--help" => Task::Help,
        Some(_) => Task::Unknown,
    })
}

fn run(rt: &HostRuntime) -> Result<ExitCode, Fault> {
    match read_arguments(rt).map_err(Fault::Arguments)? {
        Task::Day => read_and_work(rt)?,
        Task::Help => println!(rt; "{USAGE}").map_err(Fault::Output)?,
        Task::Unknown => {
            eprintln!(rt; "{USAGE}").map_err(Fault::Output)?;
            return Ok(ExitCode::FAILURE);
        }
    }
    Ok(ExitCode::SUCCESS)
}

fn main(rt: HostRuntime) -> io::Result<ExitCode> {
    run(&rt).or_else(|fault| {
        eprintln!(rt; "cuivakko: {fault}")?;
        Ok(ExitCode::FAILURE)
    })
}
