// The chain of a texture's levels.
ghost use Rattle.std.specs.Prelude.{◌≡◌};
ghost use Rattle.dds.specs.Levels.{longest_chain, ChainOf};

/// The longest chain of levels from a side down to 1: one more than how often the side can be halved before it is 1. The loop halves
/// and breaks with the length, the form that docs/ARCHITECTURE.md gives it.
pub fn longest_chain(side: u32) -> u32
    ensures value { result ≡ longest_chain side }
    ensures powers { ChainOf side result }
{
    let mut left = side;
    let mut levels = 1;
    loop {
        if left <= 1 {
            break levels;
        }
        left /= 2;
        levels += 1;
    }
}
