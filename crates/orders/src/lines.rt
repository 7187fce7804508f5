// The lines of a text.
ghost use Rattle.std.specs.Prelude.{◌≡◌};
ghost use Rattle.std.specs.Iterator.{YieldsFirstBy, item_count};
ghost use Rattle.orders.specs.Lines.{lines_of, lines_left, Begins};
ghost use Rattle.orders.specs.Words.{now_of};

// Byte 0A ends a line. The last line may do without it, and behind a last 0A there is none.
#[derive(Drop)]
pub(crate) struct Lines<'a> {
    rest: &'a [u8],
}

// The first line of a text that is not empty, and what follows it.
fn first_line(text: &[u8]) -> (&[u8], &[u8])
    ensures { Begins text.now result.0.now result.1.now }
{
    match text.iter().position(|byte| *byte == b'\n') {
        Some(end) => (&text[..end], &text[end + 1..]),
        None => (text, &[]),
    }
}

impl<'a> Lines<'a> {
    pub(crate) fn of(text: &'a [u8]) -> Lines<'a>
        ensures { lines_left result ≡ lines_of text.now }
    {
        Lines { rest: text }
    }
}

impl<'a> Iterator for Lines<'a> {
    type Item = &'a [u8];

    ghost next_gives = { YieldsFirstBy now_of lines_left };

    ghost remaining = { item_count lines_left };

    fn next(&mut self) -> Option<&'a [u8]> {
        if self.rest.is_empty() {
            return None;
        }
        let (line, after) = first_line(self.rest);
        self.rest = after;
        Some(line)
    }
}
