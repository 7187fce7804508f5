// What is told of a file, against words and refusals that were written by hand from docs/RULES.md.
use crate::{Facts, FormatSource, Owner, PixelKind, Row};
use dds::{Area, FileHead, Piece};
use refusal::Refusal;
use std::alloc::{AllocError, Global};
use std::process::Abort;
use std::test::Fail;

// The fields of a header that count, but for its two sizes.
#[derive(Clone, Copy)]
struct Fields {
    flags: u32,
    height: u32,
    width: u32,
    depth: u32,
    levels: u32,
    pixel_flags: u32,
    code: u32,
    bits: u32,
    caps2: u32,
    dxgi_code: u32,
    dimension: u32,
    misc: u32,
    array_size: u32,
}

const DXT1: u32 = 0x3154_5844;

const DX10: u32 = 0x3031_5844;

const CUBE_OF_ONE_FACE: u32 = 0x600;

// A plain header of 16 by 8 pixels in DXT1, with all levels.
const PLAIN: Fields = Fields {
    flags: 0,
    height: 8,
    width: 16,
    depth: 0,
    levels: 5,
    pixel_flags: 0x4,
    code: DXT1,
    bits: 0,
    caps2: 0,
    dxgi_code: 0,
    dimension: 0,
    misc: 0,
    array_size: 0,
};

// An extended header of a flat array of two, in BC7 sRGB.
const EXTENDED: Fields = Fields {
    code: DX10,
    dxgi_code: 99,
    dimension: 3,
    array_size: 2,
    ..PLAIN
};

fn head_of(heap: Global, fields: Fields) -> Result<Vec<u8>, AllocError> {
    let mut words = [0u32; 37];
    words[0] = 0x2053_4444;
    words[1] = 124;
    words[2] = fields.flags;
    words[3] = fields.height;
    words[4] = fields.width;
    words[6] = fields.depth;
    words[7] = fields.levels;
    words[19] = 32;
    words[20] = fields.pixel_flags;
    words[21] = fields.code;
    words[22] = fields.bits;
    words[28] = fields.caps2;
    words[32] = fields.dxgi_code;
    words[33] = fields.dimension;
    words[34] = fields.misc;
    words[35] = fields.array_size;
    let mut head = Vec::new(heap);
    for word in words {
        head.extend_from_slice(&word.to_le_bytes())?;
    }
    Ok(head)
}

// What is told of a file with these fields, 1,000 bytes long.
fn told(heap: Global, fields: Fields) -> Result<Result<Facts, Refusal>, AllocError> {
    let head = head_of(heap, fields)?;
    Ok(Facts::read(FileHead {
        bytes: &head,
        length: 1000,
    }))
}

fn tells(rt: &(impl Abort + AllocGlobal), fields: Fields, line: &str) -> Result<(), Fail> {
    let facts = told(rt.alloc(), fields)??;
    assert_eq!(rt; facts.to_string(rt.alloc())?.as_str(), line);
    Ok(())
}

#[test]
#[rattlefmt::skip]
fn lines_of_facts(rt: HostRuntime) -> Result<(), Fail> {
    tells(&rt, PLAIN, "DXT1, block of 8 bytes, flat array of 1, 16 x 8, levels 5")?;
    tells(&rt, EXTENDED, "BC7_UNORM_SRGB (99), block of 16 bytes, flat array of 2, 16 x 8, levels 5")?;
    tells(&rt, Fields { code: 36, ..PLAIN }, "code 36, linear of 64 bits, flat array of 1, 16 x 8, levels 5")
}

#[test]
fn kinds_of_plain_pixels(rt: HostRuntime) -> Result<(), Fail> {
    for (pixel_flags, kind) in [
        (0x40, "RGB"),
        (0x41, "RGBA"),
        (0x2_0000, "luminance"),
        (0x2_0001, "luminance with alpha"),
        (0x200, "YUV"),
        (0x201, "YUV"),
        (0x2, "alpha"),
        (0x3, "alpha"),
        (0x2_0242, "RGB"),
        (0x2_0243, "RGBA"),
        (0x2_0202, "luminance"),
        (0x202, "YUV"),
    ] {
        let fields = Fields {
            pixel_flags,
            bits: 16,
            ..PLAIN
        };
        let facts = told(rt.alloc(), fields)??;
        let wanted = format!(in rt.alloc(); "{kind} 16 bits")?;
        assert_eq!(rt;
            facts.source.to_string(rt.alloc())?.as_str(),
            wanted.as_str()
        );
    }
    Ok(())
}

#[test]
#[rattlefmt::skip]
fn sources_as_text(rt: HostRuntime) -> Result<(), Fail> {
    for (source, text) in [
        (FormatSource::Code(0x3259_5559), "YUY2"),
        (FormatSource::Code(0x7a39_3041), "A09z"),
        (FormatSource::Code(0x3154_5820), "code 827611168"),
        (FormatSource::Code(0x7b54_5844), "code 2069125188"),
        (FormatSource::Code(0), "code 0"),
        (FormatSource::Dxgi(71), "BC1_UNORM (71)"),
        (FormatSource::Dxgi(100), "DXGI code 100"),
        (FormatSource::Dxgi(115), "B4G4R4A4_UNORM (115)"),
        (FormatSource::BitCount { kind: PixelKind::Rgb, bits: 24 }, "RGB 24 bits"),
    ] {
        assert_eq!(rt; source.to_string(rt.alloc())?.as_str(), text);
    }
    Ok(())
}

// Where two refusals apply, the lower number comes first.
#[test]
#[rattlefmt::skip]
fn refused_in_order(rt: HostRuntime) -> Result<(), Fail> {
    for (fields, refusal) in [
        (Fields { code: 1, caps2: CUBE_OF_ONE_FACE, ..PLAIN }, Refusal::UnknownFormat),
        (Fields { dxgi_code: 100, dimension: 5, ..EXTENDED }, Refusal::UnknownFormat),
        (Fields { code: 1, width: 0, ..PLAIN }, Refusal::UnknownFormat),
        (Fields { caps2: CUBE_OF_ONE_FACE, width: 0, ..PLAIN }, Refusal::NoShape),
        (Fields { caps2: CUBE_OF_ONE_FACE, levels: 6, ..PLAIN }, Refusal::NoShape),
        (Fields { width: 16_385, levels: 16, ..PLAIN }, Refusal::OutOfRange),
        (Fields { levels: 6, ..PLAIN }, Refusal::TooManyLevels),
    ] {
        assert_eq!(rt; told(rt.alloc(), fields)?, Err(refusal));
    }
    Ok(())
}

#[test]
#[rattlefmt::skip]
fn rows_below_their_heading(rt: HostRuntime) -> Result<(), Fail> {
    let piece = Piece { element: 1, level: 2, slice: 3 };
    let area = Area { place: 6, length: 7, row_bytes: 8, rows: 9 };
    let small = Row { piece, width: 4, height: 5, area };
    let piece = Piece { element: 2_047, level: 14, slice: 2_046 };
    let area = Area { place: 1_073_741_824, length: 1_073_741_823, row_bytes: 262_144, rows: 16_382 };
    let large = Row { piece, width: 16_384, height: 16_383, area };
    let (small, large) = (small.to_string(rt.alloc())?, large.to_string(rt.alloc())?);
    assert_eq!(rt; Row::heading(), "element level slice width height      place     length row-bytes  rows");
    assert_eq!(rt; small.as_str(), "      1     2     3     4      5          6          7         8     9");
    assert_eq!(rt; large.as_str(), "   2047    14  2046 16384  16383 1073741824 1073741823    262144 16382");
    Ok(())
}

#[test]
fn owners_as_text(rt: HostRuntime) -> Result<(), Fail> {
    let piece = Piece {
        element: 5,
        level: 3,
        slice: 2,
    };
    assert_eq!(rt; Owner(None).to_string(rt.alloc())?.as_str(), "header");
    assert_eq!(rt;
        Owner(Some((piece, 70))).to_string(rt.alloc())?.as_str(),
        "5 3 2 70"
    );
    Ok(())
}
