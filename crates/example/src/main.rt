// The example of README.md: paints in a texture under a loan, and shows what came of it. tools/check_docs.py sees that the lines of code
// in README.md stand here.
#![tactic(auto)]

use dds::{FileHead, Layout, Piece};
use formats::BuiltInCodes;
use loans::{Job, Mark, Painting, Report, Shelves, scrap};
use refusal::Refusal;
use shelf::Shelf;
use std::{fs, io};

// Lends the first piece to borrower 7, who paints at the begin of its first row, and keeps the stroke.
#[rattlefmt::skip]
fn paint(job: &mut Job, file: &mut [u8], shelves: &mut Shelves<'_>, bytes: &[u8]) -> Result<u32, Refusal> {
    let loan = job.loan(Piece::default(), 7)?;
    job.paint(file, shelves, Painting { loan, borrower: 7, row: 0, first: 0, bytes })?;
    job.keep(shelves, loan)
}

// A loan that is out at the end, as where the paint was refused, is cancelled by the scrap, which spends the docket.
#[rattlefmt::skip]
fn retouch(file: &mut [u8], bytes: &[u8]) -> Result<Report, Refusal> {
    let (mut marks, mut covered) = ([Mark::default(); 8], [0u8; 256]);
    let mut shelves = Shelves::of(Shelf::new(&mut marks), Shelf::new(&mut covered));
    let mut job = Job::empty();
    let docket = job.open(file, 1, &BuiltInCodes)?;
    let painted = paint(&mut job, file, &mut shelves, bytes);
    let report = scrap(docket, &mut job, file, &mut shelves)?;
    painted.map(|_| report)
}

// The first piece's bytes.
fn first_piece(file: &[u8]) -> Result<&[u8], Refusal> {
    Layout::read(FileHead::of(file), &BuiltInCodes)?.bytes_of(file, Piece::default())
}

fn show(rt: &HostRuntime, file: &mut [u8], bytes: &[u8]) -> io::Result<()> {
    match retouch(file, bytes) {
        Ok(report) => {
            let kept = report.kept;
            println!(rt; "{kept} loan kept")?
        }
        Err(refusal) => println!(rt; "{refusal}")?,
    }
    match first_piece(file) {
        Ok(piece) => println!(rt; "{piece:?}"),
        Err(refusal) => println!(rt; "{refusal}"),
    }
}

// Two bytes are painted; nine are more than a row has.
fn main(rt: HostRuntime) -> io::Result<()> {
    let mut file = fs::read(&rt, "texture.dds")?;
    show(&rt, &mut file, b"\xff\x07")?;
    show(&rt, &mut file, b"too long.")
}
