// The fields of a DDS header that count.

/// The header as it stands in the file. The last four fields are those of the extended header; where the header is plain,
/// they hold whatever stands there, and do not count.
#[derive(Clone, Copy, PartialEq, Eq, Debug)]
pub struct Header {
    /// at place 4: 124 in an accepted file
    pub header_size: u32,
    /// at place 8: of its bits only 0x800000 counts, which a volume needs
    pub flags: u32,
    /// at place 12: of the first level, in pixels
    pub height: u32,
    /// at place 16: of the first level, in pixels
    pub width: u32,
    /// at place 24: the slices of a volume's first level; it counts only there
    pub depth: u32,
    /// at place 28: 0 means one level
    pub level_count: u32,
    /// at place 76: 32 in an accepted file
    pub pixel_format_size: u32,
    /// at place 80: bits that tell how the format is said
    pub pixel_flags: u32,
    /// at place 84: four letters, the first of them its lowest byte, or a number
    pub code: u32,
    /// at place 88: the bits of a pixel, where no code decides
    pub bit_count: u32,
    /// at place 112: bits that tell the shape with a plain header
    pub caps2: u32,
    /// at place 128, extended: the format
    pub dxgi_code: u32,
    /// at place 132, extended: 2 for a line, 3 for a flat array or a cube array, 4 for a volume
    pub dimension: u32,
    /// at place 136, extended: bit 0x4 makes cubes of a flat array
    pub misc: u32,
    /// at place 140, extended: how many elements, or how many cubes
    pub array_size: u32,
}
