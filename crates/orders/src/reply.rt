// What is printed.
ghost use Rattle.std.specs.Prelude.{◌≡◌};
ghost use Rattle.orders.specs.Replies.{reply_text, reply_to};

use arrayvec::ArrayString;
use loans::Answer;
use refusal::Refusal;

/// A line of the output.
#[derive(Clone, Copy, PartialEq, Eq, Debug)]
pub enum Reply {
    /// an order was carried out, and answers the number
    Done(u32),
    /// an order, or the day, was refused
    Refused(Refusal),
    /// the day ended, and the texture ships
    Ship,
    /// the day ended with a loan out
    Scrap,
}

/// The line that answers an order.
impl From<Answer> for Reply {
    ghost from_gives = { λ answer reply. reply ≡ reply_to answer };

    fn from(answer: Answer) -> Reply {
        match answer {
            Ok(number) => Reply::Done(number),
            Err(refusal) => Reply::Refused(refusal),
        }
    }
}

impl Reply {
    /// The line that is printed for it, with its end: `ok` and the number, `no` and the refusal's number, `ship` or `scrap`.
    pub fn line(self) -> ArrayString<14>
        ensures { result.bytes ≡ reply_text self }
    {
        let mut buffer = itoa::Buffer::new();
        let (word, number) = match self {
            Reply::Done(number) => ("ok ", buffer.format(number)),
            Reply::Refused(refusal) => ("no ", buffer.format(refusal.number())),
            Reply::Ship => ("ship", ""),
            Reply::Scrap => ("scrap", ""),
        };
        let mut line = ArrayString::new();
        line.push_str(word);
        line.push_str(number);
        line.push('\n');
        line
    }
}
