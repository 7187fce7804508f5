// The crate dds against values that were computed outside of it.
use crate::expected::{
    Byte, Case, HEADERS_AND_FORMATS, LEVELS_AND_ENDS, SAMPLES, SHAPES_AND_SIDES, Sample, Spot,
    VOLUME, XFLAT,
};
use crate::heads::{file_with, head_with};
use dds::{Area, FileHead, FormatSource, Layout, Piece, Shape, longest_chain};
use formats::{BuiltInCodes, Format, FormatName};
use listing::{Facts, Owner, Row};
use refusal::Refusal;
use std::process::Abort;
use std::test::Fail;

fn piece_of(numbers: (u32, u32, u32)) -> Piece {
    let (element, level, slice) = numbers;
    Piece {
        element,
        level,
        slice,
    }
}

fn number_of<T: Drop>(answer: Result<T, Refusal>) -> u32 {
    answer.err().map_or(0, Refusal::number)
}

// The facts are read as the file is opened, but for the place where the pieces end (9).
fn check_facts(rt: &impl Abort, head: FileHead<'_>, case: &Case) {
    match Facts::read(head) {
        Ok(facts) => {
            assert!(rt;
                case.refusal == 0 || case.refusal == 9,
                "{}, facts",
                case.what
            );
            let sides = (facts.width, facts.height, facts.levels);
            assert_eq!(rt;
                sides,
                (case.width, case.height, case.levels),
                "{}",
                case.what
            );
        }
        Err(refusal) => assert_eq!(rt; refusal.number(), case.refusal, "{}, facts", case.what),
    }
}

// Where a file is shorter than a head, its head is the whole of it.
fn check_case(rt: &impl Abort, bytes: &[u8], case: &Case) -> Result<(), Fail> {
    let length = case.length;
    let shown = length.min(148) as usize;
    let head = FileHead {
        bytes: &bytes[..shown.min(bytes.len())],
        length,
    };
    let format = Format::try_from(case.format)?;
    let read = number_of(Layout::read(head, &BuiltInCodes));
    assert_eq!(rt; read, case.refusal, "{}", case.what);
    let handed = number_of(Layout::read_with(head, &format));
    assert_eq!(rt; handed, case.handed, "{}, handed", case.what);
    check_facts(rt, head, case);
    Ok(())
}

fn check_cases(rt: &(impl Abort + AllocGlobal), cases: &[Case]) -> Result<(), Fail> {
    for case in cases {
        let bytes = head_with(rt, rt.alloc(), case.base, case.changes)?;
        check_case(rt, &bytes, case)?;
    }
    Ok(())
}

#[test]
fn headers_and_formats(rt: HostRuntime) -> Result<(), Fail> {
    check_cases(&rt, &HEADERS_AND_FORMATS)
}

#[test]
fn shapes_and_sides(rt: HostRuntime) -> Result<(), Fail> {
    check_cases(&rt, &SHAPES_AND_SIDES)
}

#[test]
fn levels_and_ends(rt: HostRuntime) -> Result<(), Fail> {
    check_cases(&rt, &LEVELS_AND_ENDS)
}

fn check_spot(rt: &impl Abort, layout: &Layout, spot: &Spot) -> Result<(), Fail> {
    assert_eq!(rt; layout.piece_number(spot.number), Some(spot.piece));
    assert_eq!(rt; layout.level(spot.piece.level), Some(spot.level));
    let area = Area {
        place: spot.place,
        length: spot.length,
        row_bytes: spot.level.row_bytes,
        rows: spot.level.rows,
    };
    assert_eq!(rt; layout.place_of(spot.piece), Ok(area));
    let row = Row {
        piece: spot.piece,
        width: spot.level.width,
        height: spot.level.height,
        area,
    };
    assert_eq!(rt; Row::of(layout, spot.piece), Ok(row));
    Ok(())
}

fn check_byte(rt: &impl Abort, layout: &Layout, byte: &Byte) {
    let owner = Owner(Some((byte.piece, byte.offset)));
    assert_eq!(rt; Owner::at(layout, byte.place), Ok(owner));
}

// Every piece comes once, in the order of the file, as its number tells it.
fn check_pieces(rt: &impl Abort, layout: &Layout, sample: &Sample) {
    assert_eq!(rt; layout.piece_count(), sample.pieces, "{}", sample.what);
    assert_eq!(rt; layout.pieces().count() as u64, sample.pieces);
    for (number, piece) in (0..).zip(layout.pieces()) {
        assert_eq!(rt; layout.piece_number(number), Some(piece));
    }
    assert_eq!(rt; layout.piece_number(sample.pieces), None);
}

fn check_layout(rt: &impl Abort, layout: &Layout, sample: &Sample) -> Result<(), Fail> {
    check_pieces(rt, layout, sample);
    assert_eq!(rt; layout.level(sample.levels), None);
    for spot in sample.spots {
        check_spot(rt, layout, spot)?;
    }
    for byte in sample.bytes {
        check_byte(rt, layout, byte);
    }
    assert_eq!(rt; Owner::at(layout, 0), Ok(Owner(None)));
    assert_eq!(rt;
        Owner::at(layout, sample.begin.saturating_sub(1)),
        Ok(Owner(None))
    );
    assert_eq!(rt; Owner::at(layout, sample.length), Err(Refusal::PastFileEnd));
    assert_eq!(rt; Owner::at(layout, u64::MAX), Err(Refusal::PastFileEnd));
    Ok(())
}

fn head_of<'a>(bytes: &'a [u8], sample: &Sample) -> FileHead<'a> {
    FileHead {
        bytes,
        length: sample.length,
    }
}

#[test]
fn layouts_of_every_shape(rt: HostRuntime) -> Result<(), Fail> {
    for sample in &SAMPLES {
        let bytes = head_with(&rt, rt.alloc(), sample.base, sample.changes)?;
        let layout = Layout::read(head_of(&bytes, sample), &BuiltInCodes)?;
        check_layout(&rt, &layout, sample)?;
    }
    Ok(())
}

#[test]
fn layouts_with_a_format_handed_in(rt: HostRuntime) -> Result<(), Fail> {
    for sample in &SAMPLES {
        let bytes = head_with(&rt, rt.alloc(), sample.base, sample.changes)?;
        let format = Format::try_from(sample.format)?;
        let layout = Layout::read_with(head_of(&bytes, sample), &format)?;
        check_layout(&rt, &layout, sample)?;
    }
    Ok(())
}

// The part of a file that is a piece: the bytes from a place on, where each byte is its place's remainder by 251.
fn check_part(
    rt: &impl Abort,
    layout: &Layout,
    file: &[u8],
    part: ((u32, u32, u32), u64, usize),
) -> Result<(), Fail> {
    let (piece, first, length) = part;
    let bytes = layout.bytes_of(file, piece_of(piece))?;
    assert_eq!(rt; bytes.len(), length);
    for (place, byte) in (first..).zip(bytes) {
        assert_eq!(rt; u64::from(*byte), place % 251);
    }
    Ok(())
}

// A volume of 5 by 3 by 6 with three levels of 24 bits: 6 slices of 45 bytes, 3 of 6 and 1 of 3, behind 128 bytes.
#[test]
fn bytes_of_pieces(rt: HostRuntime) -> Result<(), Fail> {
    let mut file = file_with(&rt, rt.alloc(), &VOLUME, 128, 419)?;
    let layout = Layout::read(FileHead::of(&file), &BuiltInCodes)?;
    for part in [
        ((0, 0, 0), 128, 45),
        ((0, 0, 5), 353, 45),
        ((0, 1, 2), 410, 6),
        ((0, 2, 0), 416, 3),
    ] {
        check_part(&rt, &layout, &file, part)?;
    }
    for piece in [(1, 0, 0), (0, 3, 0), (0, 0, 6), (0, 1, 3), (0, 2, 1)] {
        assert_eq!(rt; number_of(layout.place_of(piece_of(piece))), 10);
        assert_eq!(rt; number_of(layout.bytes_of(&file, piece_of(piece))), 10);
    }
    let shorter = &file[0..file.len().min(418)];
    for piece in [(0, 0, 0), (0, 3, 0)] {
        assert_eq!(rt; number_of(layout.bytes_of(shorter, piece_of(piece))), 12);
    }
    file.push(0)?;
    assert_eq!(rt; number_of(layout.bytes_of(&file, piece_of((0, 0, 0)))), 12);
    Ok(())
}

// With 8 bits a pixel the same volume has 6 slices of 15 bytes, 3 of 2 and 1 of 1.
#[test]
fn bytes_of_a_volume_with_a_format_handed_in(rt: HostRuntime) -> Result<(), Fail> {
    let file = file_with(&rt, rt.alloc(), &VOLUME, 128, 225)?;
    let format = Format::try_from(FormatName::Linear(8))?;
    let layout = Layout::read_with(FileHead::of(&file), &format)?;
    for part in [
        ((0, 0, 5), 203, 15),
        ((0, 1, 2), 222, 2),
        ((0, 2, 0), 224, 1),
    ] {
        check_part(&rt, &layout, &file, part)?;
    }
    Ok(())
}

// Three elements of 5 by 3 and 2 by 1 with blocks of 8 bytes: two blocks and one, behind 148 bytes.
#[test]
fn bytes_of_an_array_with_a_format_handed_in(rt: HostRuntime) -> Result<(), Fail> {
    let file = file_with(&rt, rt.alloc(), &XFLAT, 148, 220)?;
    let format = Format::try_from(FormatName::Block(8))?;
    let layout = Layout::read_with(FileHead::of(&file), &format)?;
    for part in [
        ((0, 1, 0), 164, 8),
        ((1, 0, 0), 172, 16),
        ((2, 1, 0), 212, 8),
    ] {
        check_part(&rt, &layout, &file, part)?;
    }
    Ok(())
}

// The same array in the format that its header names, DXGI code 28 of 32 bits, or in that format handed in: the same header and shape.
#[test]
fn origins(rt: HostRuntime) -> Result<(), Fail> {
    let file = file_with(&rt, rt.alloc(), &XFLAT, 148, 352)?;
    let named = Layout::read(FileHead::of(&file), &BuiltInCodes)?.origin();
    assert_eq!(rt;
        named.map(|origin| origin.source),
        Some(FormatSource::Dxgi(28))
    );
    assert_eq!(rt; named.map(|origin| origin.shape), Some(Shape::Flat(3)));
    let format = Format::try_from(FormatName::Linear(32))?;
    let handed = Layout::read_with(FileHead::of(&file), &format)?.origin();
    assert_eq!(rt;
        handed.map(|origin| origin.source),
        Some(FormatSource::HandedIn)
    );
    assert_eq!(rt;
        handed.map(|origin| origin.header),
        named.map(|origin| origin.header)
    );
    assert!(rt; Layout::empty().origin().is_none());
    Ok(())
}

#[test]
fn longest_chains(rt: HostRuntime) -> Result<(), Fail> {
    for (side, levels) in [(0, 1), (1, 1), (2, 2), (16_384, 15), (u32::MAX, 32)] {
        assert_eq!(rt; longest_chain(side), levels);
    }
    Ok(())
}
