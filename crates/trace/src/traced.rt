// Whose the changed bytes are, and who painted them.
ghost use Rattle.trace.specs.Tracing.{ChangeTraced, LastPiece};

use crate::change::Change;
use dds::Piece;
use loans::{Answer, Call, Job};
use painters::{Painter, painter_of};
use refusal::Refusal;

/// A change with whose its first byte is and who painted it.
#[derive(Clone, Copy, PartialEq, Eq, Debug)]
pub struct TracedChange {
    /// The run of bytes that changed.
    pub change: Change,
    /// The piece that has the run's first byte, and the byte's offset in it; none for a byte of no piece.
    pub owner: Option<(Piece, u32)>,
    /// Who laid the newest stroke that stands over the run's first byte; none where no stroke does.
    pub painter: Option<Painter>,
}

impl TracedChange {
    /// A change of a job's file, after calls on the job that were answered so. Calls and answers are two lists, as a run takes and gives
    /// them. Refuses with PastFileEnd where the change's first byte lies at or past the file's end.
    pub fn of(
        job: &Job,
        calls: &[Call<'_>],
        answers: &[Answer],
        change: Change,
    ) -> Result<TracedChange, Refusal>
        ensures { ChangeTraced job.now calls.now answers.now change result }
    {
        let place = change.place as u64;
        Ok(TracedChange {
            change,
            owner: job.whose(place)?,
            painter: painter_of(job, calls, answers, place),
        })
    }
}

/// The piece that has the last byte of a job's file, whose length it is handed; the first piece where no piece has that byte.
pub fn last_piece(job: &Job, length: u64) -> Piece
    ensures { LastPiece job.now length result }
{
    let owner = job.whose(length.saturating_sub(1)).ok().flatten();
    owner.map(|(piece, _)| piece).unwrap_or_default()
}
