// A texture laid out, as a layout holds it.
ghost use Rattle.dds.specs.Sound.{Sound};

use crate::origin::Origin;
use crate::table::Table;

/// What a layout holds: the table of its pieces, which is sound, and what the table was made from; none where it is that of no file.
#[derive(Clone, Copy)]
pub struct LaidOut {
    pub table: Table,
    pub origin: Option<Origin>,
    pub ghost sound: { Sound table },
}
