// DDS files: the header, the shape, the levels, and where each piece stands.
#![tactic(auto)]

mod area;
mod chain;
mod counts;
mod figures;
mod filling;
mod head;
mod header;
mod laid_out;
mod layout;
mod level;
mod opening;
mod origin;
mod piece;
mod pieces;
mod pixel_kind;
mod places;
mod reading;
mod shape;
mod shapes;
mod sides;
mod source;
mod spot;
mod table;
mod text;
mod walk;

pub use area::Area;
pub use chain::longest_chain;
pub use figures::measured_figures;
pub use head::FileHead;
pub use header::Header;
pub use layout::Layout;
pub use level::Level;
pub use origin::Origin;
pub use piece::Piece;
pub use pieces::Pieces;
pub use pixel_kind::PixelKind;
pub use shape::Shape;
pub use source::FormatSource;
