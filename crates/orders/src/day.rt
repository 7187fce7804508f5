// A day's orders, from the texture and their text to the answers and how the day ends.
ghost use Rattle.std.specs.Prelude.{◌≡◌, ◌+◌, ◌*◌, ◌<◌, ◌≤◌, ◌++◌, ◌↔◌, Some, IsErr, OnErr, IfOk, length, vec_len, vec_capacity};
ghost use Rattle.loans.specs.Stocks.{SameRoom, answer_limit, stock_of};
ghost use Rattle.loans.specs.Dockets.{docket_number};
ghost use Rattle.loans.specs.Strokes.{state_of};
ghost use Rattle.loans.specs.Scrapping.{WithOwn};
ghost use Rattle.orders.specs.Lines.{lines_of};
ghost use Rattle.orders.specs.Replies.{reply_text};
ghost use Rattle.orders.specs.Days.{closing_reply, Closed, room_for, EndedAs, DayDone};
ghost use Rattle.orders.specs.steps.Answering.{LineAnswered, LinesAnswered, Begun};

use crate::ending::Ending;
use crate::lines::Lines;
use crate::no_room::NoRoom;
use crate::order::Order;
use crate::reply::Reply;
use formats::BuiltInCodes;
use loans::{Answer, Docket, Job, Mark, Shelves, Unspent, scrap, ship};
use refusal::Refusal;
use shelf::Shelf;

/// How many bytes a day's texture can have.
pub const LONGEST_MASTER: usize = 32768;

/// How many bytes a day's orders can have.
pub const LONGEST_ORDERS: usize = 16384;

const JOB_NUMBER: u32 = 1;

// How many strokes can be undone, and how many bytes they cover.
const MOST_MARKS: usize = 64;

const MOST_KEPT: usize = 4096;

// How many bytes are printed for a byte of the orders at most: for an empty line, which is one byte, `no 26` and its end. A line that is
// answered with a number has more bytes than one, and its answer at most nine, since loan numbers end at 65,535.
const PRINTED_FOR_A_BYTE: usize = 6;

/// The last line of a day.
impl From<Ending> for Reply {
    ghost from_gives = { λ ending reply. reply ≡ closing_reply ending };

    fn from(ending: Ending) -> Reply {
        match ending {
            Ending::Refused(refusal) => Reply::Refused(refusal),
            Ending::Shipped => Reply::Ship,
            Ending::Scrapped => Reply::Scrap,
        }
    }
}

// Prints a line where there is room for it.
fn print(printed: &mut Vec<u8>, reply: Reply)
    requires { vec_len printed.old + length (reply_text reply) ≤ vec_capacity printed.old }
    ensures items { printed.new.items ≡ printed.old.items ++ reply_text reply }
    ensures length { vec_len printed.new ≡ vec_len printed.old + length (reply_text reply) }
    ensures capacity { vec_capacity printed.new ≡ vec_capacity printed.old }
{
    for byte in reply.line().as_str().as_bytes() {
        printed.push_reserved(*byte);
    }
}

// Carries out what a line orders.
fn answer(job: &mut Job, file: &mut [u8], shelves: &mut Shelves<'_>, line: &[u8]) -> Answer
    requires short { length line.now ≤ 16384 }
    ensures answered { LineAnswered line.now
        (state_of job.old file.old (stock_of shelves.old)) result
        (state_of job.new file.new (stock_of shelves.new)) }
    ensures room { SameRoom (stock_of shelves.old) (stock_of shelves.new) }
    ensures limit { IfOk result (λ number. number ≤ answer_limit (stock_of shelves.old)) }
{
    Order::parse(line)?.carry_out(job, file, shelves)
}

// Carries out the orders of a text, and prints a line for each.
fn answer_all(
    job: &mut Job,
    file: &mut [u8],
    shelves: &mut Shelves<'_>,
    orders: &[u8],
    printed: &mut Vec<u8>,
)
    requires short { length orders.now ≤ 16384 }
    requires limit { answer_limit (stock_of shelves.old) ≡ 65535 }
    requires room { vec_len printed.old + 6 * length orders.now ≤ vec_capacity printed.old }
    ensures answered { LinesAnswered (lines_of orders.now)
        (state_of job.old file.old (stock_of shelves.old)) printed.old.items
        (state_of job.new file.new (stock_of shelves.new)) printed.new.items }
    ensures length { vec_len printed.new ≤ vec_len printed.old + 6 * length orders.now }
    ensures capacity { vec_capacity printed.new ≡ vec_capacity printed.old }
{
    for line in Lines::of(orders) {
        let answer = answer(job, file, shelves, line);
        print(printed, Reply::from(answer));
    }
}

// Ships, or scraps where a loan is out.
fn close(docket: Docket, job: &mut Job, file: &mut [u8], shelves: &mut Shelves<'_>) -> Ending
    requires number { job.old.number ≡ Some (docket_number docket) }
    requires own { WithOwn (state_of job.old file.old (stock_of shelves.old)) }
    ensures { Closed (state_of job.old file.old (stock_of shelves.old)) result file.new }
{
    if let Err(Unspent { docket, refusal: _ }) = ship(docket, job) {
        // cannot refuse: docket, file and shelves are the job's
        let _ = scrap(docket, job, file, shelves);
        return Ending::Scrapped;
    }
    Ending::Shipped
}

// A day within the limits, once the texture was opened in a job, with two shelves that hold nothing.
fn day_on(
    docket: Docket,
    job: &mut Job,
    master: &mut [u8],
    shelves: &mut Shelves<'_>,
    orders: &[u8],
    printed: &mut Vec<u8>,
) -> Ending
    requires short { length orders.now ≤ 16384 }
    requires room { vec_len printed.old + 6 * length orders.now ≤ vec_capacity printed.old }
    requires begun { Begun
        (record { master = master.old; orders = orders.now; before = printed.old.items })
        (docket_number docket) (state_of job.old master.old (stock_of shelves.old)) }
    ensures ended { EndedAs
        (record { master = master.old; orders = orders.now; before = printed.old.items })
        result master.new printed.new.items }
    ensures length { vec_len printed.new ≤ vec_len printed.old + 6 * length orders.now }
    ensures capacity { vec_capacity printed.new ≡ vec_capacity printed.old }
{
    answer_all(job, master, shelves, orders, printed);
    close(docket, job, master, shelves)
}

// A day within the limits.
fn work(master: &mut [u8], orders: &[u8], printed: &mut Vec<u8>) -> Ending
    requires short { length orders.now ≤ 16384 }
    requires room { vec_len printed.old + 6 * length orders.now ≤ vec_capacity printed.old }
    ensures ended { EndedAs
        (record { master = master.old; orders = orders.now; before = printed.old.items })
        result master.new printed.new.items }
    ensures length { vec_len printed.new ≤ vec_len printed.old + 6 * length orders.now }
    ensures capacity { vec_capacity printed.new ≡ vec_capacity printed.old }
{
    let mut marks = [Mark::default(); MOST_MARKS];
    let mut bytes = [0; MOST_KEPT];
    let mut shelves = Shelves::of(Shelf::new(&mut marks), Shelf::new(&mut bytes));
    let mut job = Job::empty();
    match job.open(master, JOB_NUMBER, &BuiltInCodes) {
        Ok(docket) => day_on(docket, &mut job, master, &mut shelves, orders, printed),
        Err(refusal) => Ending::Refused(refusal),
    }
}

/// How many bytes a day of such orders prints at most, but for its last line: six for each byte of the orders, and none where they are
/// over their limit.
pub fn room_for(orders: &[u8]) -> usize
    ensures room { result ≡ room_for orders.now }
    ensures within { length orders.now ≤ 16384 → result ≡ 6 * length orders.now }
    ensures over { 16384 < length orders.now → result ≡ 0 }
{
    if orders.len() > LONGEST_ORDERS {
        return 0;
    }
    PRINTED_FOR_A_BYTE * orders.len()
}

/// Carries out a day's orders on a texture, in place, and tells how the day ends. Prints the answer to each order behind what stands in
/// the Vec; the last line is `Reply::from` of the ending, for the caller to print. Allocates nothing: where the Vec's capacity is too
/// small for what stands in it and `room_for` the orders, it answers `NoRoom` and changes nothing.
///
/// The ending is a refusal, and nothing else changes: OverLimit where the texture or the orders have more bytes than they can, then those
/// of `Job::open`.
pub fn run_day(master: &mut [u8], orders: &[u8], printed: &mut Vec<u8>) -> Result<Ending, NoRoom>
    ensures no_room { IsErr result
        ↔ (vec_capacity printed.old < vec_len printed.old + room_for orders.now) }
    ensures master_stays { OnErr result (master.new ≡ master.old) }
    ensures printed_stays { OnErr result (printed.new.items ≡ printed.old.items) }
    ensures day { IfOk result (λ ending. DayDone
        (record { master = master.old; orders = orders.now; before = printed.old.items })
        ending master.new printed.new.items) }
    ensures most { vec_len printed.new ≤ vec_len printed.old + room_for orders.now }
    ensures capacity { vec_capacity printed.new ≡ vec_capacity printed.old }
    ensures longest_master { LONGEST_MASTER ≡ 32768 }
    ensures longest_orders { LONGEST_ORDERS ≡ 16384 }
{
    if printed.capacity() - printed.len() < room_for(orders) {
        return Err(NoRoom);
    }
    if master.len() > LONGEST_MASTER || orders.len() > LONGEST_ORDERS {
        return Ok(Ending::Refused(Refusal::OverLimit));
    }
    Ok(work(master, orders, printed))
}
