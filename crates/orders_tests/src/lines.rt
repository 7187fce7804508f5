// Order lines and printed lines.
use dds::Piece;
use orders::{Order, Reply};
use refusal::Refusal;
use std::test::Fail;

const PIECE: Piece = Piece {
    element: 5,
    level: 10,
    slice: 0,
};

const MALFORMED: &[&[u8]] = &[
    b"",
    b" ",
    b"L",
    b"L ",
    b"L 1",
    b"L 1 2 3",
    b"L 1 2 3 4 5",
    b"l 1 2",
    b"M 1 2",
    b"LL 1 2",
    b"L1 2",
    b" L 1 2",
    b"L 1 2 ",
    b"L  1 2",
    b"L 1  2",
    b"L\t1 2",
    b"L 1 2\r",
    b"L 1 2\0",
    b"L 1 2\xff",
    b"U 1",
    b"U 1 2 3",
    b"U 01 2",
    b"U 1 00",
    b"U +1 2",
    b"U -1 2",
    b"U 0x1 2",
    b"U 1a 2",
    b"U 1 4294967296",
    b"U 1 99999999999999999999",
    b"K",
    b"K 1 2",
    b"K 1.",
    b"C x",
    b"P 1 2 3 4",
    b"P 1 2 3 4 ",
    b"P 1 2 3 4 a",
    b"P 1 2 3 4 abc",
    b"P 1 2 3 4 AB",
    b"P 1 2 3 4 ag",
    b"P 1 2 3 4 ab ",
    b"P 1 2 3 4 ab cd",
    b"P 1 2 3 ab",
    b"P 1 2 3 04 ab",
];

#[test]
#[rattlefmt::skip]
fn spelled(rt: HostRuntime) {
    // no constant, which cannot hold an order today
    let orders: [(&[u8], Order<'static>); 5] = [
        (b"L 5 10 0 4294967295", Order::Loan { piece: PIECE, borrower: 4_294_967_295 }),
        (b"L 0 7", Order::LoanElement { element: 0, borrower: 7 }),
        (b"U 65535 0", Order::Undo { loan: 65535, borrower: 0 }),
        (b"K 1", Order::Keep { loan: 1 }),
        (b"C 1000000000", Order::Cancel { loan: 1_000_000_000 }),
    ];
    for (line, order) in orders {
        assert_eq!(rt; Order::parse(line), Ok(order));
    }
}

#[test]
fn digits_stay_in_their_line(rt: HostRuntime) -> Result<(), Fail> {
    match Order::parse(b"P 1 7 0 6 00ff9a")? {
        Order::Paint {
            loan,
            borrower,
            row,
            first,
            digits,
        } => {
            assert_eq!(rt; (loan, borrower, row, first), (1, 7, 0, 6));
            assert_eq!(rt; digits.as_bytes(), b"00ff9a".as_slice());
            Ok(())
        }
        _ => Err(Fail::new("no paint")),
    }
}

#[test]
fn malformed(rt: HostRuntime) {
    for line in MALFORMED {
        assert_eq!(rt; Order::parse(line), Err(Refusal::MalformedOrder));
    }
}

#[test]
fn printed(rt: HostRuntime) {
    for (reply, line) in [
        (Reply::Done(0), "ok 0\n"),
        (Reply::Done(4_294_967_295), "ok 4294967295\n"),
        (Reply::Refused(Refusal::WrongLength), "no 1\n"),
        (Reply::Refused(Refusal::OverLimit), "no 27\n"),
        (Reply::Ship, "ship\n"),
        (Reply::Scrap, "scrap\n"),
        (Reply::from(Ok(16)), "ok 16\n"),
        (Reply::from(Err(Refusal::LoanNotOut)), "no 16\n"),
    ] {
        assert_eq!(rt; reply.line().as_str(), line);
    }
}
