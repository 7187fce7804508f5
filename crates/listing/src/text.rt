// The lines that tell of a file and its pieces.
ghost use Rattle.std.specs.Prelude.{Some};
ghost use Rattle.listing.specs.Texts.{facts_text, row_text, owner_text};

use crate::facts::Facts;
use crate::owner::Owner;
use crate::row::Row;
use dds::{Area, Piece};
use std::fmt;

impl fmt::Display for Facts {
    ghost output = { λ facts. Some (facts_text facts) };

    fn fmt<W: fmt::Write>(&self, f: &mut fmt::Formatter<W>) -> fmt::Result {
        let Facts {
            source,
            format,
            shape,
            width,
            height,
            levels,
        } = *self;
        write!(
            f,
            "{source}, {format}, {shape}, {width} x {height}, levels {levels}"
        )
    }
}

impl fmt::Display for Row {
    ghost output = { λ row. Some (row_text row) };

    fn fmt<W: fmt::Write>(&self, f: &mut fmt::Formatter<W>) -> fmt::Result {
        let Row {
            piece,
            width,
            height,
            area,
        } = *self;
        let Piece {
            element,
            level,
            slice,
        } = piece;
        let Area {
            place,
            length,
            row_bytes,
            rows,
        } = area;
        write!(
            f,
            "{element:>7} {level:>5} {slice:>5} {width:>5} {height:>6} {place:>10} {length:>10} {row_bytes:>9} {rows:>5}"
        )
    }
}

impl fmt::Display for Owner {
    ghost output = { λ owner. Some (owner_text owner) };

    fn fmt<W: fmt::Write>(&self, f: &mut fmt::Formatter<W>) -> fmt::Result {
        match self.0 {
            None => write!(f, "header"),
            Some((piece, offset)) => write!(f, "{piece} {offset}"),
        }
    }
}
