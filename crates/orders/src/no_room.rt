// Want of room for a day's answers.
ghost use Rattle.std.specs.Prelude.{◌<◌, Some, codes};

use std::error::Error;
use std::fmt;

/// There is not so much room for the answers as `room_for` tells.
#[derive(Clone, Copy, PartialEq, Eq, Debug)]
pub struct NoRoom;

impl fmt::Display for NoRoom {
    ghost output = { λ _. Some (codes "no room for the answers") };

    fn fmt<W: fmt::Write>(&self, f: &mut fmt::Formatter<W>) -> fmt::Result {
        write!(f, "no room for the answers")
    }
}

impl Error for NoRoom {}
