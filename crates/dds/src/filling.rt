// Filling the table of a texture's levels.
ghost use Rattle.std.specs.Prelude.{◌≡◌, ◌/◌, ◌≤◌, max, length};
ghost use Rattle.dds.specs.Tables.{level_with, InRange, IsChain};
ghost use Rattle.formats.specs.Extents.{extent_of};

use crate::level::Level;
use crate::sides::Sides;
use formats::Family;

impl Sides {
    // The sides of the next level: halved, and at least 1.
    fn halved(self) -> Sides
        ensures { result ≡ record {
          width = max (self.width / 2) 1;
          height = max (self.height / 2) 1;
          depth = max (self.depth / 2) 1;
        } }
    {
        Sides {
            width: (self.width / 2).max(1),
            height: (self.height / 2).max(1),
            depth: (self.depth / 2).max(1),
        }
    }
}

// The level that has these sides and begins there.
fn level_of<F: Family>(family: &F, sides: Sides, begin: u64) -> Level
    ensures { result ≡ level_with
        (extent_of (F.row_bytes family.now) (F.rows family.now) sides.width sides.height)
        sides begin }
{
    let extent = family.ask(sides.width, sides.height);
    Level {
        width: sides.width,
        height: sides.height,
        slices: sides.depth,
        row_bytes: extent.row_bytes,
        rows: extent.rows,
        begin,
    }
}

// Fills the levels of an element, from the sides of the first, and answers how many bytes they take. The family is asked once for each
// level, at the level's own sides.
pub(crate) fn fill_levels<F: Family>(family: &F, first: Sides, levels: &mut [Level]) -> u64
    requires sides { InRange first }
    requires few { length levels.old ≤ 15 }
    ensures count { length levels.new ≡ length levels.old }
    ensures chain { IsChain (F.row_bytes family.now) (F.rows family.now) first levels.new result }
{
    let mut sides = first;
    let mut begin = 0;
    for level in levels {
        *level = level_of(family, sides, begin);
        begin = level.end();
        sides = sides.halved();
    }
    begin
}
