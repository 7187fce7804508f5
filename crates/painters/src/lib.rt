// Whose stroke lies over a byte, after a run of calls.
#![tactic(auto)]

ghost use Rattle.std.specs.Prelude.{◌≡◌, ◌<◌, min, map, length, take, drop, Some};
ghost use Rattle.loans.specs.Strokes.{painting_of};
ghost use Rattle.loans.specs.Rules.{request_of};
ghost use Rattle.loans.specs.Journals.{journal_of};
ghost use Rattle.painters.specs.Tracing.{Traced, owed_before, owed, piece_after, piece_out, area_for, lies_over, painter_at, IsNewest};

use dds::{Area, Piece};
use loans::{Answer, Call, Job, Painting};

/// Who laid a stroke.
#[derive(Clone, Copy, PartialEq, Eq, Debug)]
pub struct Painter {
    /// the loan's number
    pub loan: u32,
    /// the borrower's number
    pub borrower: u32,
}

// Read from the newest call to the oldest, an undo owes a stroke of its loan, which the next stroke of the loan pays: a stroke stands
// where nothing is owed. What a loan owes before a call, by what it owes after it; none where its strokes are all taken back.
fn owed_before(owed: usize, loan: u32, call: Call<'_>, answer: Answer) -> Option<usize>
    requires { owed < 18446744073709551615 }
    ensures { result ≡ owed_before loan (Some owed) (request_of call.entry) answer }
{
    match call {
        _ if answer.is_err() => Some(owed),
        Call::Paint(painting) if painting.loan == loan => Some(owed.saturating_sub(1)),
        Call::Undo { loan: number, .. } if number == loan => Some(owed + 1),
        Call::Cancel { loan: number } if number == loan => None,
        _ => Some(owed),
    }
}

// The piece of a loan that is out after a call, by that before it.
fn piece_after(found: Option<Piece>, loan: u32, call: Call<'_>, answer: Answer) -> Option<Piece>
    ensures { result ≡ piece_after loan found (request_of call.entry) answer }
{
    let Ok(given) = answer else {
        return found;
    };
    match call {
        Call::Loan { piece, .. } if found.is_none() && given == loan => Some(piece),
        Call::Keep { loan: number } if number == loan => None,
        Call::Cancel { loan: number } if number == loan => None,
        _ => found,
    }
}

// Places are compared by differences, since a place and an offset in made-up calls could wrap.
fn reaches_over(area: Area, painting: Painting<'_>, place: u64) -> bool
    ensures { result ≡ lies_over area (painting_of painting.entry) place }
{
    let offset = painting.row as u64 * area.row_bytes as u64 + painting.first as u64;
    let length = painting.bytes.len() as u64;
    place >= area.place && place - area.place >= offset && place - area.place - offset < length
}

// The area of a piece of the job's file; nothing where no piece is named, or none exists.
fn area_for(job: &Job, piece: Option<Piece>) -> Area
    ensures { result ≡ area_for job.now.layout.table piece }
{
    piece
        .and_then(|named| job.where_is(named).ok())
        .unwrap_or_default()
}

// Calls and what they answered, place by place: two lists, since a run takes the one and gives the other.
#[derive(Clone, Copy)]
struct Journal<'a> {
    calls: &'a [Call<'a>],
    answers: &'a [Answer],
}

impl Journal<'_> {
    // How many calls have an answer.
    fn count(&self) -> usize
        ensures { result ≡ min (length self.now.calls.now) (length self.now.answers.now) }
    {
        self.calls.len().min(self.answers.len())
    }

    // What a loan owes before the calls from a position on; none where its strokes are all taken back. The loop goes by position, since
    // what is owed is counted, and is less than the calls that lie behind; the closure of a `try_fold` would not know that.
    fn owed_from(&self, from: usize, loan: u32) -> Option<usize>
        ensures { result
            ≡ owed loan (drop from self.now.calls.now) (drop from self.now.answers.now) }
    {
        let mut owed = 0;
        for position in (from..self.count()).rev() {
            owed = owed_before(owed, loan, self.calls[position], self.answers[position])?;
        }
        Some(owed)
    }

    // The piece of the loan of a number that is out before the call at a position.
    fn piece_before(&self, position: usize, loan: u32) -> Option<Piece>
        ensures { result ≡ piece_out loan (journal_of
            (map request_of (take position self.now.calls.now))
            (take position self.now.answers.now)) }
    {
        self.calls.iter().zip(self.answers).take(position).fold(
            None,
            |found, (call, answer)| piece_after(found, loan, *call, *answer),
        )
    }

    // Who painted by the call at a position, where its stroke lies over the byte at a place and stands.
    fn painter_at(&self, job: &Job, position: usize, place: u64) -> Option<Painter>
        ensures { position < length self.now.calls.now
            → position < length self.now.answers.now
            → result ≡ painter_at job.now.layout.table
            self.now.calls.now self.now.answers.now position place }
    {
        let Call::Paint(painting) = *self.calls.get(position)? else {
            return None;
        };
        if self.answers.get(position)?.is_err() {
            return None;
        }
        let area = area_for(job, self.piece_before(position, painting.loan));
        let owed = self.owed_from(position + 1, painting.loan)?;
        if owed > 0 || !reaches_over(area, painting, place) {
            return None;
        }
        Some(Painter {
            loan: painting.loan,
            borrower: painting.borrower,
        })
    }

    // Who laid the newest stroke that stands over the byte at a place.
    fn newest_painter(&self, job: &Job, place: u64) -> Option<Painter>
        ensures { IsNewest job.now.layout.table self.now.calls.now self.now.answers.now place
            (min (length self.now.calls.now) (length self.now.answers.now)) result }
    {
        (0..self.count())
            .rev()
            .find_map(|position| self.painter_at(job, position, place))
    }
}

/// Who laid the newest stroke that stands over the byte at a place, after a run of calls that were answered so; none where no
/// stroke does. Calls and answers are two lists, as a run takes and gives them. Of calls and answers that no run gave, it tells the
/// last call that painted over the byte and is not taken back, where a stroke of a loan that is not out, or whose piece does not exist,
/// begins at the file's byte `first`.
pub fn painter_of(job: &Job, calls: &[Call<'_>], answers: &[Answer], place: u64) -> Option<Painter>
    ensures traced { Traced job.now.layout (map request_of calls.now) answers.now place result }
    ensures exact { IsNewest job.now.layout.table calls.now answers.now place
        (min (length calls.now) (length answers.now)) result }
{
    Journal { calls, answers }.newest_painter(job, place)
}
