// Where the last piece of a file ends, found by walking over the pieces: two steps that hand over to each other, the form that
// docs/ARCHITECTURE.md gives the walk. Each level has a slice, so that the step over one leaves fewer pieces. A hand-over is the last
// thing that a step does, so it is compiled to a jump, and the stack does not grow.
ghost use Rattle.std.specs.Prelude.{◌≡◌, ◌+◌, ◌*◌, ◌^◌, ◌<◌};
ghost use Rattle.dds.specs.LevelEnds.{Sliced, total_of};

use crate::level::Level;

// Where the elements that are left end, if the first of them begins at the place: behind an element's last level comes the
// first level of the next element.
#[cycle(element_step_level_step)]
pub(crate) fn element_step(levels: &[Level], elements_left: u64, place: u64) -> u64
    requires sliced { Sliced levels.now }
    requires fits { place + elements_left * total_of levels.now < 2 ^ 64 }
    ensures { result ≡ place + elements_left * total_of levels.now }
{
    if elements_left == 0 {
        return place;
    }
    level_step(levels, elements_left - 1, levels, place)
}

// The same from the levels of an element on that are left, with so many elements behind it. A level's slices all have the same
// length.
#[cycle(element_step_level_step)]
fn level_step(levels: &[Level], elements_left: u64, levels_left: &[Level], place: u64) -> u64
    requires sliced { Sliced levels.now }
    requires left { Sliced levels_left.now }
    requires fits { place + total_of levels_left.now + elements_left * total_of levels.now
        < 2 ^ 64 }
    ensures { result ≡ place + total_of levels_left.now + elements_left * total_of levels.now }
{
    match levels_left {
        [] => element_step(levels, elements_left, place),
        [level, rest @ ..] => {
            let length = level.slices as u64 * level.piece_length();
            level_step(levels, elements_left, rest, place + length)
        }
    }
}
