// What is told of a DDS file: its facts, a line for each piece, and whose byte stands at a place.
#![tactic(auto)]

mod facts;
mod owner;
mod row;
#[cfg(test)]
mod tests;
mod text;

pub use dds::{FormatSource, PixelKind};
pub use facts::Facts;
pub use owner::Owner;
pub use row::Row;
