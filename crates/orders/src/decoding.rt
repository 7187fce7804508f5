// Reading hex digits.
ghost use Rattle.std.specs.Prelude.{◌≡◌, ◌<◌, ◌≤◌, true, length};
ghost use Rattle.std.specs.List.{list_all};
ghost use Rattle.std.specs.Option.{option_map};
ghost use Rattle.orders.specs.Orders.{digits_of};
ghost use Rattle.orders.specs.Words.{is_hex, are_pairs, nibble, hex_bytes, hex_bytes_at};

use crate::digits::Digits;
use arrayvec::ArrayVec;

fn is_hex(digit: u8) -> bool
    ensures { result ≡ is_hex digit }
{
    matches!(digit, b'0'..=b'9' | b'a'..=b'f')
}

// What a digit counts.
fn nibble(digit: u8) -> u8
    requires { is_hex digit ≡ true }
    ensures value { result ≡ nibble digit }
    ensures small { result < 16 }
{
    if digit < b'a' {
        digit - b'0'
    } else {
        digit - b'a' + 10
    }
}

fn are_hex(text: &[u8]) -> bool
    ensures { result ≡ list_all is_hex text.now }
{
    text.iter().all(|digit| is_hex(*digit))
}

impl<'a> Digits<'a> {
    // The digits that a word spells; none where it is not in pairs, or a character is no digit.
    pub(crate) fn of(text: &'a [u8]) -> Option<Digits<'a>>
        ensures { option_map (λ digits. hex_bytes digits.digits.now) result
            ≡ hex_bytes_at text.now }
    {
        if text.is_empty() || text.len() % 2 == 1 || !are_hex(text) {
            return None;
        }
        Some(Digits { digits: text })
    }

    /// The digits as they stand in the line, two for each byte.
    pub fn as_bytes(&self) -> &'a [u8]
        ensures { result.now ≡ digits_of self.now }
    {
        self.digits
    }

    // The bytes that they spell.
    pub(crate) fn bytes(&self) -> ArrayVec<u8, 8192>
        requires { length self.now.digits.now ≤ 16384 }
        ensures { result.items ≡ hex_bytes self.now.digits.now }
    {
        let mut bytes = ArrayVec::new();
        let mut digits = self.as_bytes();
        while let [high, low, rest @ ..] = digits {
            bytes.push(nibble(*high) * 16 + nibble(*low));
            digits = rest;
        }
        bytes
    }
}
