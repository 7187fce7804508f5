// The size tables of Microsoft's DDS programming guide, computed by the library. The expected output, in the file stdout beside
// this crate's src, was made by tools/guide_tables.py, which adds up the sizes that the guide prints and counts pixels and blocks;
// it uses none of this code.
#![tactic(auto)]

use dds::{FileHead, Layout, measured_figures};
use formats::BuiltInCodes;
use listing::Row;
use refusal::Refusal;
use std::alloc::{AllocError, Global};
use std::io;

// A file of the guide: what its header says, and its length.
#[derive(Clone, Copy)]
struct Sample {
    name: &'static str,
    width: u32,
    height: u32,
    depth: u32,
    levels: u32,
    pixel_flags: u32,
    code: u32,
    bit_count: u32,
    caps2: u32,
    dxgi_code: u32,
    misc: u32,
    length: u64,
}

const FOURCC: u32 = 0x4;

const RGB: u32 = 0x40;

const DXT1: u32 = 0x3154_5844;

const DX10: u32 = 0x3031_5844;

const CUBE: u32 = 0xfe00;

const VOLUME: u32 = 0x20_0000;

// Pixels of 24 bits; what a sample does not say is 0.
const PIXELS: Sample = Sample {
    name: "",
    width: 0,
    height: 0,
    depth: 0,
    levels: 0,
    pixel_flags: RGB,
    code: 0,
    bit_count: 24,
    caps2: 0,
    dxgi_code: 0,
    misc: 0,
    length: 0,
};

const BLOCKS: Sample = Sample {
    pixel_flags: FOURCC,
    code: DXT1,
    bit_count: 0,
    ..PIXELS
};

const EXTENDED: Sample = Sample {
    code: DX10,
    ..BLOCKS
};

#[rattlefmt::skip]
const SAMPLES: [Sample; 6] = [
    Sample { name: "256 by 256 R8G8B8", width: 256, height: 256, levels: 9, length: 262271, ..PIXELS },
    Sample { name: "256 by 64 DXT1", width: 256, height: 64, levels: 9, length: 11080, ..BLOCKS },
    Sample { name: "256 by 64 BC3", width: 256, height: 64, levels: 9, dxgi_code: 77, length: 22052, ..EXTENDED },
    Sample { name: "256 by 256 BC6H cube", width: 256, height: 256, levels: 9, dxgi_code: 95, misc: 0x4, length: 524596, ..EXTENDED },
    Sample { name: "64 by 64 by 4 volume, 24 bits", width: 64, height: 64, depth: 4, levels: 7, caps2: VOLUME, length: 56447, ..PIXELS },
    Sample { name: "256 by 256 DXT1 cube", width: 256, height: 256, levels: 9, caps2: CUBE, length: 262352, ..BLOCKS },
];

// The header's words in the order of the file, those that do not count as 0.
fn words_of(sample: &Sample) -> [u32; 37] {
    let mut words = [0u32; 37];
    words[0] = 0x2053_4444;
    words[1] = 124;
    words[2] = 0x80_0000;
    words[3] = sample.height;
    words[4] = sample.width;
    words[6] = sample.depth;
    words[7] = sample.levels;
    words[19] = 32;
    words[20] = sample.pixel_flags;
    words[21] = sample.code;
    words[22] = sample.bit_count;
    words[28] = sample.caps2;
    words[32] = sample.dxgi_code;
    words[33] = 3;
    words[34] = sample.misc;
    words[35] = 1;
    words
}

fn head_bytes(heap: Global, sample: &Sample) -> Result<Vec<u8>, AllocError> {
    let mut head = Vec::new(heap);
    for word in words_of(sample) {
        head.extend_from_slice(&word.to_le_bytes())?;
    }
    Ok(head)
}

// The table of one file: the pieces of its first element, that element's bytes, and the file's.
fn print_table(rt: &HostRuntime, sample: &Sample, layout: &Layout) -> io::Result<()> {
    let name = sample.name;
    println!(rt; "{name}")?;
    let mut total = 0u64;
    for piece in layout.pieces().filter(|piece| piece.element == 0) {
        if let Ok(row) = Row::of(layout, piece) {
            let width = row.width;
            let height = row.height;
            let slice = piece.slice;
            let length = row.area.length;
            println!(rt; "{width} by {height} slice {slice}: {length}")?;
            total = total.saturating_add(length);
        }
    }
    let length = sample.length;
    println!(rt; "element {total}, file {length}")
}

fn print_sample(rt: &HostRuntime, sample: &Sample) -> io::Result<()> {
    let bytes = head_bytes(rt.alloc(), sample)?;
    let head = FileHead {
        bytes: &bytes,
        length: sample.length,
    };
    match Layout::read(head, &BuiltInCodes) {
        Ok(layout) => print_table(rt, sample, &layout),
        Err(refusal) => println!(rt; "{refusal}"),
    }
}

fn main(rt: HostRuntime) -> io::Result<()> {
    for sample in &SAMPLES {
        print_sample(&rt, sample)?;
    }
    let figures = measured_figures();
    println!(rt; "{figures} measured figures")
}
