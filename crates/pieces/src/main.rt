// Lists the pieces of a DDS file, or tells whose bytes stand at places of it.
#![tactic(auto)]

use dds::{FileHead, Layout};
use formats::BuiltInCodes;
use listing::{Facts, Owner, Row};
use refusal::Refusal;
use std::fs::File;
use std::io::{BufWriter, ErrorKind, Read, Write};
use std::process::ExitCode;
use std::{env, io};
use thiserror::Error;

const USAGE: &str = "usage: pieces FILE            facts of a DDS file, and a table of its pieces
       pieces FILE PLACE...   for each byte place the piece and the offset in it, or 'header'
       pieces --help          this text

A piece is one image of the texture: one mip level of one array element, in a
volume one depth slice of that. Only the file's header is read.";

// How many bytes of a file are read: the longest header.
const HEAD: u64 = 148;

// Why a file or a place could not be told of.
#[derive(Debug, Drop, Error)]
enum Fault {
    #[error("{0}")]
    Unreadable(io::Error),
    #[error("{0}")]
    Unwritable(#[from] io::Error),
    #[error("{0}")]
    Refused(#[from] Refusal),
    #[error("a place is a number from 0 on")]
    NoPlace,
}

// What is read of a file: the bytes of its head, and its length.
#[derive(Drop)]
struct Source {
    head: Vec<u8>,
    length: u64,
}

impl Source {
    fn read(rt: &HostRuntime, path: &str) -> io::Result<Source> {
        let file = File::open(rt, path)?;
        let length = file.metadata()?.len();
        let mut head = Vec::new(rt.alloc());
        let _ = file.take(HEAD).read_to_end(&mut head)?;
        Ok(Source { head, length })
    }

    fn head(&self) -> FileHead<'_> {
        FileHead {
            bytes: &self.head,
            length: self.length,
        }
    }
}

fn list<W: Write>(out: &mut W, head: FileHead<'_>, layout: &Layout) -> Result<(), Fault> {
    let facts = Facts::read(head)?;
    let heading = Row::heading();
    writeln!(out, "{facts}")?;
    writeln!(out, "{heading}")?;
    for piece in layout.pieces() {
        let row = Row::of(layout, piece)?;
        writeln!(out, "{row}")?;
    }
    Ok(())
}

fn tell<W: Write>(out: &mut W, layout: &Layout, place: &str) -> Result<(), Fault> {
    let place = place.parse::<u64>().map_err(|_| Fault::NoPlace)?;
    let owner = Owner::at(layout, place)?;
    Ok(writeln!(out, "{owner}")?)
}

// With no places a list of all pieces, else a line for each place.
fn write_lines<W: Write>(out: &mut W, source: &Source, places: &[String]) -> Result<(), Fault> {
    let layout = Layout::read(source.head(), &BuiltInCodes)?;
    if places.is_empty() {
        return list(out, source.head(), &layout);
    }
    for place in places {
        tell(out, &layout, place.as_str())?;
    }
    Ok(())
}

// The lines before a fault are written before it is told.
fn run(rt: &HostRuntime, path: &str, places: &[String]) -> Result<(), Fault> {
    let source = Source::read(rt, path).map_err(Fault::Unreadable)?;
    let mut out = BufWriter::new(rt.alloc(), io::writer(rt))?;
    let told = write_lines(&mut out, &source, places);
    out.flush()?;
    told
}

// What fails is told once, here; the status says that it did. A reader that went away wants no more, so that is no failure.
fn main(rt: HostRuntime) -> io::Result<ExitCode> {
    let args: Vec<String> = env::args(&rt)?.skip(1).collect(rt.alloc())?;
    let path = match args.first() {
        Some(path) => path.as_str(),
        None => {
            eprintln!(rt; "{USAGE}")?;
            return Ok(ExitCode::FAILURE);
        }
    };
    let told = if path == "--help" {
        println!(rt; "{USAGE}").map_err(Fault::Unwritable)
    } else {
        run(&rt, path, &args[1..])
    };
    match told {
        Ok(()) => return Ok(ExitCode::SUCCESS),
        Err(Fault::Unwritable(error)) if error.kind() == ErrorKind::BrokenPipe => {
            return Ok(ExitCode::SUCCESS);
        }
        Err(Fault::Unwritable(error)) => eprintln!(rt; "pieces: {error}")?,
        Err(Fault::NoPlace) => eprintln!(rt; "pieces: {}", Fault::NoPlace)?,
        Err(fault) => eprintln!(rt; "pieces: {path}: {fault}")?,
    }
    Ok(ExitCode::FAILURE)
}
