// What is done to a file: the calls, one after the other, and the desk that they are made on.
use dds::Piece;
use loans::{Answer, Call, Docket, Job, Painting, Report, Shelves, Unspent, scrap, ship};
use refusal::Refusal;
use trace::Changes;

// Two pixels of 32 bits, and one.
const TINT: &[u8] = &[0x20, 0x40, 0xf0, 0x80, 0x20, 0x40, 0xf0, 0x80];

const SHADE: &[u8] = &[0x10, 0x10, 0x10, 0xc0];

fn loan(piece: Piece, borrower: u32) -> Call<'static> {
    Call::Loan { piece, borrower }
}

// A stroke from the row's first byte on.
fn stroke(loan: u32, borrower: u32, row: u32, bytes: &[u8]) -> Call<'_> {
    Call::Paint(Painting {
        loan,
        borrower,
        row,
        first: 0,
        bytes,
    })
}

// Some are refused: a piece that is out, another's loan, a loan that was handed in.
pub(crate) fn steps(last: Piece) -> [Call<'static>; 13] {
    let first = Piece::default();
    [
        loan(first, 1),
        loan(last, 2),
        loan(first, 2),
        stroke(1, 1, 0, TINT),
        stroke(1, 2, 0, SHADE),
        stroke(2, 2, 0, TINT),
        stroke(1, 1, 1, TINT),
        stroke(1, 1, 0, SHADE),
        Call::Undo {
            loan: 1,
            borrower: 1,
        },
        stroke(2, 2, 0, SHADE),
        Call::Keep { loan: 1 },
        stroke(1, 1, 0, SHADE),
        Call::Cancel { loan: 2 },
    ]
}

// What the calls are made on: the job, its file, and its two shelves.
#[derive(Drop)]
pub(crate) struct Desk<'a> {
    pub(crate) job: Job,
    pub(crate) file: &'a mut [u8],
    pub(crate) shelves: Shelves<'a>,
}

impl Desk<'_> {
    pub(crate) fn carry_out(&mut self, call: Call<'_>) -> Answer {
        self.job.carry_out(self.file, &mut self.shelves, call)
    }

    // The runs of bytes that changed in the file.
    pub(crate) fn changes<'b>(&'b self, before: &'b [u8]) -> Changes<'b> {
        Changes::of(before, self.file)
    }

    // Ships, and scraps where that is refused: a match and no map_err, since the docket that comes back must be spent.
    pub(crate) fn finish(&mut self, docket: Docket) -> Result<Report, Refusal> {
        match ship(docket, &mut self.job) {
            Ok(report) => Ok(report),
            Err(Unspent { docket, refusal }) => {
                let _ = scrap(docket, &mut self.job, self.file, &mut self.shelves);
                Err(refusal)
            }
        }
    }
}
