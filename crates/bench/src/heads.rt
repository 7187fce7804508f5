// Heads of files, made from the fields that count.
use crate::random::Random;
use dds::FileHead;
use std::alloc::{AllocError, Global};

// The first 148 bytes of a file, and its length.
#[derive(Drop)]
pub(crate) struct Sample {
    bytes: Vec<u8>,
    length: u64,
}

impl Sample {
    pub(crate) fn head(&self) -> FileHead<'_> {
        FileHead {
            bytes: &self.bytes,
            length: self.length,
        }
    }

    // A file with this head and random pixel data.
    pub(crate) fn file(&self, heap: Global, random: &mut Random) -> Result<Vec<u8>, AllocError> {
        let mut file = random.bytes(heap, self.length)?;
        for (byte, head) in file.iter_mut().zip(self.bytes.iter()) {
            *byte = *head;
        }
        Ok(file)
    }
}

#[derive(Clone, Copy)]
struct Fields {
    header_size: u32,
    flags: u32,
    height: u32,
    width: u32,
    depth: u32,
    levels: u32,
    pixel_flags: u32,
    code: u32,
    bits: u32,
    caps2: u32,
    dxgi: u32,
    dimension: u32,
    misc: u32,
    array_size: u32,
}

const BLANK: Fields = Fields {
    header_size: 124,
    flags: 0,
    height: 64,
    width: 256,
    depth: 0,
    levels: 9,
    pixel_flags: 0x4,
    // DXT1
    code: 0x3154_5844,
    bits: 0,
    caps2: 0,
    dxgi: 0,
    dimension: 0,
    misc: 0,
    array_size: 0,
};

// The code is DX10.
const EXTENDED: Fields = Fields {
    code: 0x3031_5844,
    dimension: 3,
    array_size: 1,
    ..BLANK
};

const RGB: Fields = Fields {
    height: 256,
    pixel_flags: 0x40,
    bits: 24,
    ..BLANK
};

const VOLUME: Fields = Fields {
    flags: 0x80_0000,
    height: 64,
    width: 64,
    depth: 4,
    levels: 7,
    caps2: 0x20_0000,
    ..RGB
};

const CUBE: Fields = Fields {
    height: 256,
    dxgi: 95,
    misc: 0x4,
    ..EXTENDED
};

const ARRAY: Fields = Fields {
    height: 128,
    width: 128,
    levels: 8,
    dxgi: 61,
    array_size: 12,
    ..EXTENDED
};

impl Fields {
    // The head as words; the field at a place stands at a quarter of it.
    fn words(self) -> [u32; 37] {
        let mut words = [0u32; 37];
        words[0] = 0x2053_4444;
        words[1] = self.header_size;
        words[2] = self.flags;
        words[3] = self.height;
        words[4] = self.width;
        words[6] = self.depth;
        words[7] = self.levels;
        words[19] = 32;
        words[20] = self.pixel_flags;
        words[21] = self.code;
        words[22] = self.bits;
        words[28] = self.caps2;
        words[32] = self.dxgi;
        words[33] = self.dimension;
        words[34] = self.misc;
        words[35] = self.array_size;
        words
    }

    fn sample(self, heap: Global, length: u64) -> Result<Sample, AllocError> {
        let mut bytes = Vec::new(heap);
        for word in self.words() {
            bytes.extend_from_slice(&word.to_le_bytes())?;
        }
        Ok(Sample { bytes, length })
    }
}

// Heads that open, each with its file's length.
const OPENED: [(Fields, u64); 6] = [
    (BLANK, 11_080),
    (RGB, 262_271),
    (
        Fields {
            dxgi: 77,
            ..EXTENDED
        },
        22_052,
    ),
    (VOLUME, 56_447),
    (CUBE, 524_596),
    (ARRAY, 262_288),
];

// Heads that are refused, with 9 8 7 5 6 3 4 1.
const REFUSED: [(Fields, u64); 8] = [
    (BLANK, 11_081),
    (
        Fields {
            height: 4,
            width: 4,
            levels: 4,
            ..BLANK
        },
        200,
    ),
    (
        Fields {
            width: 16_385,
            ..BLANK
        },
        11_080,
    ),
    (
        Fields {
            code: 0x3149_5441,
            ..BLANK
        },
        11_080,
    ),
    (
        Fields {
            height: 128,
            ..CUBE
        },
        524_596,
    ),
    (
        Fields {
            header_size: 123,
            ..BLANK
        },
        11_080,
    ),
    (CUBE, 140),
    (BLANK, 100),
];

pub(crate) fn handful(heap: Global) -> Result<Vec<Sample>, AllocError> {
    let mut samples = Vec::new(heap);
    for (fields, length) in OPENED.iter().chain(&REFUSED) {
        samples.push(fields.sample(heap, *length)?)?;
    }
    Ok(samples)
}

// How many bytes the levels of a row of 16,384 have.
fn chain_of(levels: u32) -> u64 {
    let mut chain = 0u64;
    let mut side = 16_384u64;
    for _ in 0..levels {
        chain = chain.saturating_add(side);
        side /= 2;
    }
    chain
}

// An array of rows of 16,384 bytes, with so many levels of each; its length is right, or more by an excess.
pub(crate) fn array(
    heap: Global,
    elements: u32,
    levels: u32,
    excess: u64,
) -> Result<Sample, AllocError> {
    let fields = Fields {
        height: 1,
        width: 16_384,
        levels,
        dxgi: 61,
        array_size: elements,
        ..EXTENDED
    };
    let pixels = u64::from(elements).saturating_mul(chain_of(levels));
    fields.sample(heap, pixels.saturating_add(148).saturating_add(excess))
}

// Forty images of 8 rows of 4,096 bytes.
pub(crate) fn canvas(heap: Global) -> Result<Sample, AllocError> {
    let fields = Fields {
        height: 8,
        width: 4_096,
        levels: 1,
        dxgi: 61,
        array_size: 40,
        ..EXTENDED
    };
    fields.sample(heap, 148 + 40 * 8 * 4_096)
}
