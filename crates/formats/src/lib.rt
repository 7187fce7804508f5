// Pixel formats: how many bytes and rows an image takes, and which format a header's code names.
#![tactic(auto)]

mod bits;
mod block;
mod codes;
mod dxgi;
mod dxgi_names;
#[cfg(test)]
mod expected;
mod extent;
mod family;
mod format;
mod format_name;
mod linear;
mod names;
mod paired;
mod tables;
#[cfg(test)]
mod tests;
mod text;

pub use bits::bit_count_format;
pub use block::Block;
pub use codes::{BuiltInCodes, CodeTable};
pub use dxgi::dxgi_format;
pub use dxgi_names::dxgi_name;
pub use extent::Extent;
pub use family::Family;
pub use format::Format;
pub use format_name::FormatName;
pub use linear::Linear;
pub use names::NoSuchSize;
pub use paired::Paired;
