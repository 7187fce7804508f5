// The crate against values that were computed outside of it.
use crate::bits::bit_count_format;
use crate::block::Block;
use crate::codes::{BuiltInCodes, CodeTable};
use crate::dxgi::dxgi_format;
use crate::dxgi_names::dxgi_name;
use crate::expected::{DXGI, DXGI_NAMES, PLAIN, SIDES, SIZES, Sizes};
use crate::extent::Extent;
use crate::family::Family;
use crate::format::Format;
use crate::format_name::FormatName;
use crate::linear::Linear;
use crate::names::NoSuchSize;
use std::process::Abort;
use std::test::Fail;

fn name_of(format: Option<Format>) -> Option<FormatName> {
    format.map(FormatName::from)
}

fn check_sizes(rt: &impl Abort, sizes: &Sizes) -> Result<(), Fail> {
    let format = Format::try_from(sizes.name)?;
    for (width, row_bytes) in SIDES.iter().zip(sizes.row_bytes.iter()) {
        for (height, rows) in SIDES.iter().zip(sizes.rows.iter()) {
            let expected = if *row_bytes == 0 || *rows == 0 {
                Extent::default()
            } else {
                Extent {
                    row_bytes: *row_bytes,
                    rows: *rows,
                }
            };
            assert_eq!(rt; format.ask(*width, *height), expected);
        }
    }
    Ok(())
}

#[test]
fn every_format_at_every_side(rt: HostRuntime) -> Result<(), Fail> {
    for sizes in &SIZES {
        check_sizes(&rt, sizes)?;
    }
    Ok(())
}

#[test]
fn every_dxgi_code(rt: HostRuntime) {
    assert_eq!(rt; DXGI.len(), 131);
    for (code, expected) in (0..).zip(&DXGI) {
        assert_eq!(rt; name_of(dxgi_format(code)), *expected);
    }
    assert_eq!(rt; name_of(dxgi_format(u32::MAX)), None);
}

#[test]
fn the_name_of_every_dxgi_code(rt: HostRuntime) {
    assert_eq!(rt; DXGI_NAMES.len(), 131);
    for (code, expected) in (0..).zip(&DXGI_NAMES) {
        assert_eq!(rt; dxgi_name(code), *expected);
    }
    assert_eq!(rt; dxgi_name(u32::MAX), None);
}

#[test]
fn every_other_code_and_near_misses(rt: HostRuntime) {
    for (code, expected) in &PLAIN {
        assert_eq!(rt; name_of(BuiltInCodes.format_of(*code)), *expected);
    }
}

#[test]
#[rattlefmt::skip]
fn bit_counts(rt: HostRuntime) {
    for flags in [0x2, 0x40, 0x41, 0x200, 0x2_0000, 0x2_0001, 0xffff_ffff] {
        for bits in [8, 16, 24, 32] {
            assert_eq!(rt;
                name_of(bit_count_format(flags, bits)),
                Some(FormatName::Linear(bits))
            );
        }
        for bits in [0, 1, 7, 9, 12, 15, 23, 31, 33, 40, 64, 128] {
            assert_eq!(rt; name_of(bit_count_format(flags, bits)), None);
        }
    }
    for flags in [0, 0x1, 0x4, 0x8, 0x20, 0x80, 0x100, 0x400, 0x1_0000, 0x4_0000, 0xfffd_fdbd] {
        assert_eq!(rt; name_of(bit_count_format(flags, 32)), None);
    }
}

#[test]
fn sizes_that_no_format_has(rt: HostRuntime) {
    for bits in [0, 2, 4, 7, 9, 12, 15, 20, 127, 129, 136, 0xffff_ffff] {
        assert!(rt; Linear::new(bits).is_none());
    }
    for bytes in [0, 1, 4, 7, 9, 12, 15, 17, 32] {
        assert!(rt; Block::new(bytes).is_none());
    }
}

#[test]
fn names_as_text(rt: HostRuntime) -> Result<(), Fail> {
    for (name, text) in [
        (FormatName::Linear(1), "linear of 1 bit"),
        (FormatName::Linear(24), "linear of 24 bits"),
        (FormatName::Paired, "paired"),
        (FormatName::Block(16), "block of 16 bytes"),
    ] {
        assert_eq!(rt; name.to_string(rt.alloc())?.as_str(), text);
    }
    for (name, text) in [
        (FormatName::Linear(7), "no such size: linear of 7 bits"),
        (FormatName::Block(12), "no such size: block of 12 bytes"),
    ] {
        assert_eq!(rt; Format::try_from(name).err(), Some(NoSuchSize(name)));
        assert_eq!(rt; NoSuchSize(name).to_string(rt.alloc())?.as_str(), text);
    }
    Ok(())
}
