// The hex digits of a paint order.
ghost use Rattle.std.specs.Prelude.{◌≡◌, true};
ghost use Rattle.orders.specs.Words.{are_pairs};

/// Pairs of the characters 0-9 and a-f, at least one pair: each pair is a byte. They stay in the line that has them.
#[derive(Clone, Copy, PartialEq, Eq, Debug)]
pub struct Digits<'a> {
    pub(crate) digits: &'a [u8],
    ghost pairs: { are_pairs digits.now ≡ true },
}
