// The layout of an accepted file.
ghost use Rattle.std.specs.Prelude.{◌≡◌, length, take, None};
ghost use Rattle.dds.specs.Sound.{empty_table};

use crate::laid_out::LaidOut;
use crate::level::Level;
use crate::origin::Origin;
use crate::table::Table;
use std::marker::Model;

/// Where all pieces of an accepted file stand: a table in which they follow one another without a gap. Beside it stands what it was made
/// from. Clauses see a layout as what it holds.
#[derive(Clone, Copy)]
pub struct Layout {
    pub(crate) laid: LaidOut,
}

impl Model for Layout {
    ghost use Rattle.dds.specs.declared.laid_out.LaidOut.{LaidOut};

    ghost Value = { LaidOut };

    ghost view = { λ layout. layout.laid };

    ghost inverse = { λ value. record { laid = value } };
}

impl Layout {
    /// The layout of no file: no elements, so no pieces, and no bytes. Its one level, of one pixel of one byte, is nobody's.
    pub fn empty() -> Layout
        ensures table { result.table ≡ empty_table }
        ensures origin { result.origin ≡ None }
    {
        let mut levels = [Level::default(); 15];
        levels[0] = Level {
            width: 1,
            height: 1,
            slices: 1,
            row_bytes: 1,
            rows: 1,
            begin: 0,
        };
        let table = Table {
            levels,
            level_count: 1,
            elements: 0,
            stride: 1,
            pixel_begin: 0,
            pixel_end: 0,
            length: 0,
        };
        Layout {
            laid: LaidOut {
                table,
                origin: None,
            },
        }
    }

    /// The length of its file, in bytes.
    pub fn length(&self) -> u64
        ensures { result ≡ self.now.table.length }
    {
        self.laid.table.length
    }

    /// What it was made from: the header as it was read, the shape, and where the format comes from; none for the layout of no file.
    pub fn origin(&self) -> Option<Origin>
        ensures { result ≡ self.now.origin }
    {
        self.laid.origin
    }

    // The levels of every element.
    pub(crate) fn levels(&self) -> &[Level]
        ensures levels { result.now ≡ take self.now.table.level_count self.now.table.levels }
        ensures count { length result.now ≡ self.now.table.level_count }
    {
        &self.laid.table.levels[..self.laid.table.level_count as usize]
    }
}
