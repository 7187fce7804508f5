// Reading a header from a file's head.
ghost use Rattle.std.specs.Prelude.{◌≡◌, ℕ, ◌≤◌, true, false, List, drop, MatchOption, slice_index};
ghost use Rattle.std.specs.Option.{option_map};
ghost use Rattle.formats.specs.Names.{name_of};
ghost use Rattle.dds.specs.Readings.{reading_in};
ghost use Rattle.dds.specs.Headers.{number_at, has_magic, header_of, header_read, is_extended, code_decides, header_name};

use crate::head::FileHead;
use crate::header::Header;
use formats::{CodeTable, Format, bit_count_format, dxgi_format};
use refusal::Refusal;

// The code field's letters DX10.
const DX10: u32 = 0x3031_5844;

// The pixel flag under which the code decides the format.
const FOURCC: u32 = 0x4;

// The shortest file, the shortest with an extended header, and the longest.
const SHORTEST: u64 = 128;

const SHORTEST_EXTENDED: u64 = 148;

const LONGEST: u64 = 1_073_741_824;

// The byte at a place; 0 past the end.
fn byte_at(bytes: &[u8], place: usize) -> u8
    ensures { result ≡ slice_index bytes.now place }
{
    bytes.get(place).copied().unwrap_or_default()
}

// The number whose lowest byte stands at a place.
fn number_at(bytes: &[u8], place: usize) -> u32
    requires { place ≤ 148 }
    ensures { result ≡ number_at bytes.now place }
{
    match bytes.get(place..place + 4) {
        // most often all four are there, and one look at the length is enough
        Some([lowest, low, high, highest]) => u32::from_le_bytes([*lowest, *low, *high, *highest]),
        _ => u32::from_le_bytes([
            byte_at(bytes, place),
            byte_at(bytes, place + 1),
            byte_at(bytes, place + 2),
            byte_at(bytes, place + 3),
        ]),
    }
}

// What follows the four bytes that every DDS file begins with; none where others stand there.
fn after_magic(head: &[u8]) -> Option<&[u8]>
    ensures { MatchOption result
        (has_magic head.now ≡ false)
        (λ rest. (has_magic head.now ≡ true) × (rest.now ≡ drop 4 head.now)) }
{
    match head {
        [0x44, 0x44, 0x53, 0x20, rest @ ..] => Some(rest),
        _ => None,
    }
}

impl Header {
    // The fields of a header, from what follows the magic bytes: each stands four bytes before its place in the file.
    fn after(rest: &[u8]) -> Header
        ensures { (head : List ℕ) → rest.now ≡ drop 4 head → result ≡ header_of head }
    {
        Header {
            header_size: number_at(rest, 0),
            flags: number_at(rest, 4),
            height: number_at(rest, 8),
            width: number_at(rest, 12),
            depth: number_at(rest, 20),
            level_count: number_at(rest, 24),
            pixel_format_size: number_at(rest, 72),
            pixel_flags: number_at(rest, 76),
            code: number_at(rest, 80),
            bit_count: number_at(rest, 84),
            caps2: number_at(rest, 108),
            dxgi_code: number_at(rest, 124),
            dimension: number_at(rest, 128),
            misc: number_at(rest, 132),
            array_size: number_at(rest, 136),
        }
    }

    // The code decides the format, whatever other pixel flags are set.
    pub(crate) fn code_decides(&self) -> bool
        ensures { result ≡ code_decides self.now }
    {
        self.pixel_flags & FOURCC != 0
    }

    /// The code is the letters DX10, and it counts: more fields follow, and pixel data begin behind them.
    pub fn is_extended(&self) -> bool
        ensures { result ≡ is_extended self.now }
    {
        self.code_decides() && self.code == DX10
    }

    /// The header of a file, from its head and its length. Refuses with WrongLength, WrongMagic, WrongHeaderSize or
    /// ShortExtendedHeader, in this order.
    pub fn read(head: FileHead<'_>) -> Result<Header, Refusal>
        ensures { result ≡ header_read (reading_in head.entry) }
    {
        let FileHead { bytes, length } = head;
        if !(SHORTEST..=LONGEST).contains(&length) {
            return Err(Refusal::WrongLength);
        }
        let rest = after_magic(bytes).ok_or(Refusal::WrongMagic)?;
        let header = Header::after(rest);
        if header.header_size != 124 || header.pixel_format_size != 32 {
            return Err(Refusal::WrongHeaderSize);
        }
        if header.is_extended() && length < SHORTEST_EXTENDED {
            return Err(Refusal::ShortExtendedHeader);
        }
        Ok(header)
    }

    /// The format that the header names, with a table for the codes other than DX10.
    pub fn format<T: CodeTable>(&self, codes: &T) -> Option<Format>
        ensures { option_map name_of result ≡ header_name (T.name_at codes.now) self.now }
    {
        if self.is_extended() {
            dxgi_format(self.dxgi_code)
        } else if self.code_decides() {
            codes.format_of(self.code)
        } else {
            bit_count_format(self.pixel_flags, self.bit_count)
        }
    }
}
