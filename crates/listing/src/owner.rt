// Whose byte stands at a place.
ghost use Rattle.listing.specs.Rows.{OwnerAt};

use dds::{Layout, Piece};
use refusal::Refusal;

/// Whose byte stands at a place, as a layout answers it: a piece's, at an offset in it, or nobody's, as those of the header. It is a
/// type of its own since an Option has no text.
#[derive(Clone, Copy, PartialEq, Eq, Debug)]
pub struct Owner(pub Option<(Piece, u32)>);

impl Owner {
    /// Whose byte stands at a place, which is counted in bytes from the file's first. Refuses with PastFileEnd.
    pub fn at(layout: &Layout, place: u64) -> Result<Owner, Refusal>
        ensures { OwnerAt layout.now place result }
    {
        Ok(Owner(layout.piece_at(place)?))
    }
}
