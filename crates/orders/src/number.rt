// A decimal number.
ghost use Rattle.std.specs.Prelude.{◌≡◌};
ghost use Rattle.std.specs.List.{list_all};
ghost use Rattle.std.specs.Char.{is_ascii_digit};
ghost use Rattle.orders.specs.Words.{is_plain, value_at};

// No zero stands in front of another digit.
fn is_plain(digits: &[u8]) -> bool
    ensures { result ≡ is_plain digits.now }
{
    match digits {
        [] | [b'0', _, ..] => false,
        _ => true,
    }
}

fn are_digits(word: &[u8]) -> bool
    ensures { result ≡ list_all is_ascii_digit word.now }
{
    word.iter().all(u8::is_ascii_digit)
}

// The number that a word spells in base ten; none where it spells none of 32 bits.
pub(crate) fn value(word: &[u8]) -> Option<u32>
    ensures { result ≡ value_at word.now }
{
    if !is_plain(word) || !are_digits(word) {
        return None;
    }
    str::from_utf8(word).ok()?.parse().ok()
}
