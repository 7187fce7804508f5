// Opening a job, and asking where its pieces stand.
ghost use Rattle.std.specs.Prelude.{◌≡◌, Option, OnOk, length};
ghost use Rattle.dds.specs.Places.{WhereIs, where_in, WhoseIs, Shown};
ghost use Rattle.loans.specs.Books.{fresh_book, IsEmpty, report_of, IsBalanced};
ghost use Rattle.loans.specs.Opening.{OpenedWith, OpenedWithCodes};

use crate::docket::Docket;
use crate::job::Job;
use crate::ledger::Ledger;
use crate::loan::Loan;
use crate::report::Report;
use dds::{Area, FileHead, Layout, Piece};
use formats::{CodeTable, Family};
use refusal::Refusal;

impl Job {
    // A job with no loans over a layout.
    pub(crate) fn fresh(layout: Layout, number: Option<u32>) -> Job
        ensures { result ≡ fresh_book layout number }
    {
        Job {
            layout,
            ledger: Ledger {
                number,
                loans: [Loan::default(); 32],
                out: 0,
                granted: 0,
                kept: 0,
                cancelled: 0,
                marks: 0,
                bytes: 0,
            },
        }
    }

    /// A job that holds no file.
    pub fn empty() -> Job
        ensures { IsEmpty result }
    {
        Job::fresh(Layout::empty(), None)
    }

    /// Opens a file with a family that is handed in, whatever the job held. Refuses as Layout::read_with does, and then changes
    /// nothing.
    pub fn open_with<F: Family>(
        &mut self,
        file: &[u8],
        number: u32,
        family: &F,
    ) -> Result<Docket, Refusal>
        ensures opened { OpenedWith file.now number (F.row_bytes family.now) (F.rows family.now)
            self.old result self.new }
        ensures length { OnOk result (length file.now ≡ self.new.layout.table.length) }
    {
        let layout = Layout::read_with(FileHead::of(file), family)?;
        *self = Job::fresh(layout, Some(number));
        Ok(Docket::of(number))
    }

    /// Opens a file by the format that its header names, with a table of the codes other than DX10, whatever the job held. Refuses as
    /// Layout::read does, and then changes nothing.
    pub fn open<T: CodeTable>(
        &mut self,
        file: &[u8],
        number: u32,
        codes: &T,
    ) -> Result<Docket, Refusal>
        ensures opened { OpenedWithCodes file.now number (T.name_at codes.now)
            self.old result self.new }
        ensures length { OnOk result (length file.now ≡ self.new.layout.table.length) }
    {
        let layout = Layout::read(FileHead::of(file), codes)?;
        *self = Job::fresh(layout, Some(number));
        Ok(Docket::of(number))
    }

    /// Where a piece stands. Refuses with NoSuchPiece.
    pub fn where_is(&self, piece: Piece) -> Result<Area, Refusal>
        ensures value { WhereIs self.now.layout piece result }
        ensures exact { result ≡ where_in self.now.layout.table piece }
    {
        self.layout.place_of(piece)
    }

    /// The piece that has the byte at a place, and the byte's offset in it; none for a byte of no piece. Refuses with PastFileEnd.
    pub fn whose(&self, place: u64) -> Result<Option<(Piece, u32)>, Refusal>
        ensures { WhoseIs self.now.layout place result }
    {
        self.layout.piece_at(place)
    }

    /// The bytes of a piece, a part of the file. Refuses with OtherLength, then with NoSuchPiece.
    pub fn show<'a>(&self, file: &'a [u8], piece: Piece) -> Result<&'a [u8], Refusal>
        ensures { Shown self.now.layout file.now piece result }
    {
        self.layout.bytes_of(file, piece)
    }

    /// The job's counts of its loans.
    pub fn report(&self) -> Report
        ensures value { result ≡ report_of self.now }
        ensures balance { IsBalanced result }
    {
        let ledger = &self.ledger;
        Report {
            granted: ledger.granted,
            kept: ledger.kept,
            cancelled: ledger.cancelled,
            out: ledger.out,
        }
    }
}
