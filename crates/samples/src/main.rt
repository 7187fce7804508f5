// Lists the pieces of files that other tools wrote, each with the sum of its bytes, and whose bytes stand at some places. The expected
// output, in the file stdout beside this crate's src, was made by tools/expected_samples.py, which reads the headers itself; it uses
// none of this code.
#![tactic(auto)]

use dds::{FileHead, Layout, Piece};
use formats::BuiltInCodes;
use listing::{Facts, Owner, Row};
use refusal::Refusal;
use std::fs::File;
use std::io::Read;
use std::{env, io};

// Places in headers, at the begin, in the middle and at the end of pieces, and past the end of some files.
const PLACES: [u64; 14] = [
    0, 127, 128, 147, 148, 227, 271, 272, 399, 400, 641, 1027, 1126, 5587,
];

fn read_file(rt: &HostRuntime, name: &str) -> io::Result<Vec<u8>> {
    let mut file = File::open(rt, name)?;
    let mut bytes = Vec::new(rt.alloc());
    let _ = file.read_to_end(&mut bytes)?;
    Ok(bytes)
}

fn sum_of(bytes: &[u8]) -> u64 {
    bytes
        .iter()
        .fold(0u64, |sum, byte| sum.saturating_add(u64::from(*byte)))
}

// A piece's row, and the sum of the bytes that the layout shows for it.
fn row_and_sum(layout: &Layout, file: &[u8], piece: Piece) -> Result<(Row, u64), Refusal> {
    let row = Row::of(layout, piece)?;
    let bytes = layout.bytes_of(file, piece)?;
    Ok((row, sum_of(bytes)))
}

fn print_pieces(rt: &HostRuntime, layout: &Layout, file: &[u8]) -> io::Result<()> {
    let heading = Row::heading();
    println!(rt; "{heading} sum")?;
    for piece in layout.pieces() {
        match row_and_sum(layout, file, piece) {
            Ok((row, sum)) => println!(rt; "{row} {sum}")?,
            Err(refusal) => println!(rt; "{refusal}")?,
        }
    }
    Ok(())
}

fn print_owners(rt: &HostRuntime, layout: &Layout) -> io::Result<()> {
    for place in PLACES {
        match Owner::at(layout, place) {
            Ok(owner) => println!(rt; "byte {place}: {owner}")?,
            Err(refusal) => println!(rt; "byte {place}: {refusal}")?,
        }
    }
    Ok(())
}

fn print_sample(rt: &HostRuntime, name: &str) -> io::Result<()> {
    println!(rt; "{name}")?;
    let file = read_file(rt, name)?;
    let head = FileHead::of(&file);
    match Facts::read(head) {
        Ok(facts) => println!(rt; "{facts}")?,
        Err(refusal) => println!(rt; "{refusal}")?,
    }
    match Layout::read(head, &BuiltInCodes) {
        Ok(layout) => {
            print_pieces(rt, &layout, &file)?;
            print_owners(rt, &layout)
        }
        Err(refusal) => println!(rt; "{refusal}"),
    }
}

fn main(rt: HostRuntime) -> io::Result<()> {
    for name in env::args(&rt)?.skip(1) {
        print_sample(&rt, name.as_str())?;
    }
    Ok(())
}
