// Laying out a file.
ghost use Rattle.std.specs.Prelude.{◌≡◌, ◌≤◌, Ok};
ghost use Rattle.dds.specs.Readings.{reading_in};
ghost use Rattle.dds.specs.Headers.{header_read};
ghost use Rattle.dds.specs.Shapes.{shape_read};
ghost use Rattle.dds.specs.Layouts.{TableOf, Opened, OpenedBy};
ghost use Rattle.dds.specs.Plans.{pixel_begin};
ghost use Rattle.dds.specs.declared.source.FormatSource.TheVariants.{HandedIn};

use crate::filling::fill_levels;
use crate::head::FileHead;
use crate::header::Header;
use crate::laid_out::LaidOut;
use crate::layout::Layout;
use crate::level::Level;
use crate::origin::Origin;
use crate::shape::Shape;
use crate::sides::Sides;
use crate::source::FormatSource;
use crate::table::Table;
use crate::walk::element_step;
use formats::{CodeTable, Family};
use refusal::Refusal;

impl Header {
    /// Where pixel data begin.
    pub fn pixel_begin(&self) -> u64
        ensures { result ≡ pixel_begin self.now }
    {
        if self.is_extended() { 148 } else { 128 }
    }
}

// The table of a file of that length with this header and shape. The walk over its pieces finds where they end.
fn table_of<F: Family>(header: &Header, shape: Shape, length: u64, family: &F) -> Table
    requires { shape_read header.now ≡ Ok shape }
    ensures { TableOf header.now shape (F.row_bytes family.now) (F.rows family.now) length result }
{
    let sides = Sides {
        width: header.width,
        height: header.height,
        depth: shape.depth(),
    };
    let level_count = header.levels();
    let mut levels = [Level::default(); 15];
    let filled = &mut levels[..level_count as usize];
    let stride = fill_levels(family, sides, filled);
    let pixel_begin = header.pixel_begin();
    let elements = shape.elements();
    let pixel_end = element_step(filled, elements, pixel_begin);
    Table {
        levels,
        level_count,
        elements: elements as u32,
        stride,
        pixel_begin,
        pixel_end,
        length,
    }
}

impl Layout {
    // The layout of a file whose header was read, with a format from there. Refuses as `read_shape` does, then with WrongEnd.
    fn behind<F: Family>(
        head: FileHead<'_>,
        header: &Header,
        source: FormatSource,
        family: &F,
    ) -> Result<Layout, Refusal>
        requires { header_read (reading_in head) ≡ Ok header.now }
        ensures { Opened (reading_in head.entry) source
            (F.row_bytes family.now) (F.rows family.now) result }
    {
        let shape = header.read_shape()?;
        let table = table_of(header, shape, head.length, family);
        if table.pixel_end != head.length {
            return Err(Refusal::WrongEnd);
        }
        let origin = Some(Origin {
            header: *header,
            shape,
            source,
        });
        Ok(Layout {
            laid: LaidOut { table, origin },
        })
    }

    /// The layout of a file for any family, from the file's head and its length. No format table is read. Refuses with
    /// WrongLength, WrongMagic, WrongHeaderSize, ShortExtendedHeader, NoShape, OutOfRange, TooManyLevels or WrongEnd, in this
    /// order.
    pub fn read_with<F: Family>(head: FileHead<'_>, family: &F) -> Result<Layout, Refusal>
        ensures { Opened (reading_in head.entry) HandedIn
            (F.row_bytes family.now) (F.rows family.now) result }
    {
        let header = Header::read(head)?;
        Layout::behind(head, &header, FormatSource::HandedIn, family)
    }

    /// The layout of a file by the format that its header names, with a table of the codes other than DX10. Refuses as
    /// `read_with` does, and with UnknownFormat right after ShortExtendedHeader.
    pub fn read<T: CodeTable>(head: FileHead<'_>, codes: &T) -> Result<Layout, Refusal>
        ensures { OpenedBy (reading_in head.entry) (T.name_at codes.now) result }
    {
        let header = Header::read(head)?;
        let format = header.format(codes).ok_or(Refusal::UnknownFormat)?;
        Layout::behind(head, &header, header.source(), &format)
    }
}
