// Whole days, from the texture and the orders to the answers, the ending and the texture's bytes.
use orders::{Ending, NoRoom, room_for, run_day};
use refusal::Refusal;
use std::alloc::{AllocGlobal, Global};
use std::process::Abort;
use std::test::Fail;

// The pixel data of a 4 by 4 DXT1 texture of three levels.
const BLOCKS: &[u8] = b"abcdefghijklmnopqrstuvwx";

// The orders of docs/ORDERS.md.
const EXAMPLE: &[u8] = b"L 0 1 0 7\nL 0 1 0 8\nP 1 7 0 6 aabb\nP 1 7 0 7 aabb\nU 1 7\nK 1\nU 1 7\n";

// A file with a plain header, from the fields that count and its pixel data.
fn texture(
    heap: Global,
    sides: (u32, u32),
    levels: u32,
    format: (u32, u32, u32),
    pixels: &[u8],
) -> Result<Vec<u8>, Fail> {
    let mut words = [0u32; 32];
    words[0] = 0x2053_4444;
    words[1] = 124;
    words[3] = sides.1;
    words[4] = sides.0;
    words[7] = levels;
    words[19] = 32;
    words[20] = format.0;
    words[21] = format.1;
    words[22] = format.2;
    let mut file = Vec::new(heap);
    for word in words {
        file.extend_from_slice(&word.to_le_bytes())?;
    }
    file.extend_from_slice(pixels)?;
    Ok(file)
}

fn tiny(heap: Global) -> Result<Vec<u8>, Fail> {
    texture(heap, (4, 4), 3, (0x4, 0x3154_5844, 0), BLOCKS)
}

// Runs a day on a copy of the file, and checks how it ends, the answers, and the file's bytes from place 128 on.
fn check_day(
    rt: &(impl Abort + AllocGlobal),
    file: &[u8],
    orders: &[u8],
    ending: Ending,
    answers: &[u8],
    pixels: &[u8],
) -> Result<(), Fail> {
    let mut master = Vec::from_slice(rt.alloc(), file)?;
    let mut printed = Vec::new(rt.alloc());
    printed.reserve(room_for(orders))?;
    assert_eq!(rt; run_day(&mut master, orders, &mut printed), Ok(ending));
    assert_eq!(rt; printed.as_slice(), answers);
    assert_eq!(rt; master.get(..128), file.get(..128));
    assert_eq!(rt; master.get(128..).unwrap_or(&[]), pixels);
    Ok(())
}

#[test]
fn worked_example(rt: HostRuntime) -> Result<(), Fail> {
    let file = tiny(rt.alloc())?;
    let printed = b"ok 1\nno 13\nok 1\nno 19\nok 0\nok 0\nno 16\n";
    check_day(&rt, &file, EXAMPLE, Ending::Shipped, printed, BLOCKS)
}

#[test]
fn without_the_keep(rt: HostRuntime) -> Result<(), Fail> {
    let file = tiny(rt.alloc())?;
    let orders = b"L 0 1 0 7\nL 0 1 0 8\nP 1 7 0 6 aabb\nP 1 7 0 7 aabb\nU 1 7\nU 1 7";
    let printed = b"ok 1\nno 13\nok 1\nno 19\nok 0\nno 21\n";
    check_day(&rt, &file, orders, Ending::Scrapped, printed, BLOCKS)
}

// A kept stroke ships; what a loan that is still out had painted is put back by the scrap, and the kept stroke is not.
#[test]
#[rattlefmt::skip]
fn strokes_that_stand(rt: HostRuntime) -> Result<(), Fail> {
    let file = tiny(rt.alloc())?;
    let kept = b"L 0 1 0 7\nP 1 7 0 6 4142\nK 1";
    let after = b"abcdefghijklmnABqrstuvwx";
    check_day(&rt, &file, kept, Ending::Shipped, b"ok 1\nok 1\nok 0\n", after)?;
    let out = b"L 0 1 0 7\nP 1 7 0 6 4142\nK 1\nL 0 7\nP 2 7 0 0 4344\n";
    check_day(&rt, &file, out, Ending::Scrapped, b"ok 1\nok 1\nok 0\nok 2\nok 1\n", after)
}

#[test]
fn lines_and_their_ends(rt: HostRuntime) -> Result<(), Fail> {
    let file = tiny(rt.alloc())?;
    let days: [(&[u8], &[u8]); 6] = [
        (b"", b""),
        (b"\n", b"no 26\n"),
        (b"K 1", b"no 16\n"),
        (b"K 1\n", b"no 16\n"),
        (b"K 1\n\nK 1", b"no 16\nno 26\nno 16\n"),
        (b"\n\nK 1\r\n", b"no 26\nno 26\nno 26\n"),
    ];
    for (orders, answers) in days {
        check_day(&rt, &file, orders, Ending::Shipped, answers, BLOCKS)?;
    }
    Ok(())
}

#[test]
fn files_that_are_not_opened(rt: HostRuntime) -> Result<(), Fail> {
    let refused = Ending::Refused(Refusal::WrongLength);
    check_day(&rt, b"", EXAMPLE, refused, b"", b"")?;
    let mut file = tiny(rt.alloc())?;
    file.push(0)?;
    let refused = Ending::Refused(Refusal::WrongEnd);
    let pixels = b"abcdefghijklmnopqrstuvwx\0";
    check_day(&rt, &file, EXAMPLE, refused, b"", pixels)
}

// Empty lines, as many as there can be, and one more.
#[test]
fn longest_text(rt: HostRuntime) -> Result<(), Fail> {
    let mut file = tiny(rt.alloc())?;
    let mut orders = Vec::new(rt.alloc());
    orders.resize(16_384, b'\n')?;
    let mut printed = Vec::new(rt.alloc());
    printed.reserve(98_304)?;
    assert_eq!(rt;
        run_day(&mut file, &orders, &mut printed),
        Ok(Ending::Shipped)
    );
    assert_eq!(rt; printed.len(), 98_304);
    orders.push(b'\n')?;
    let over = Ending::Refused(Refusal::OverLimit);
    check_day(&rt, &file, &orders, over, b"", BLOCKS)
}

// 255 by 128 pixels of one byte make a texture of 32,768 bytes, and 4,663 by 7 one of 32,769.
#[test]
fn longest_texture(rt: HostRuntime) -> Result<(), Fail> {
    let mut pixels = Vec::new(rt.alloc());
    pixels.resize(32_640, 7)?;
    let file = texture(rt.alloc(), (255, 128), 1, (0x20000, 0, 8), &pixels)?;
    let after = b"K 1";
    check_day(&rt, &file, after, Ending::Shipped, b"no 16\n", &pixels)?;
    pixels.push(7)?;
    let file = texture(rt.alloc(), (4663, 7), 1, (0x20000, 0, 8), &pixels)?;
    let over = Ending::Refused(Refusal::OverLimit);
    check_day(&rt, &file, after, over, b"", &pixels)
}

// Lends the first piece, lays strokes of so many bytes, one over the other, and keeps.
fn strokes(heap: Global, lengths: &[usize]) -> Result<Vec<u8>, Fail> {
    let mut orders = Vec::from_slice(heap, b"L 0 7\n")?;
    for length in lengths {
        orders.extend_from_slice(b"P 1 7 0 0 ")?;
        for _ in 0..*length {
            orders.extend_from_slice(b"41")?;
        }
        orders.push(b'\n')?;
    }
    orders.extend_from_slice(b"K 1\n")?;
    Ok(orders)
}

// The shelf has space for 4,096 kept bytes, and for none more.
#[test]
#[rattlefmt::skip]
fn most_kept_bytes(rt: HostRuntime) -> Result<(), Fail> {
    let mut pixels = Vec::new(rt.alloc());
    pixels.resize(5000, b'a')?;
    let file = texture(rt.alloc(), (5000, 1), 1, (0x20000, 0, 8), &pixels)?;
    let days: [(&[usize], &[u8], usize); 4] = [
        (&[4096], b"ok 1\nok 1\nok 0\n", 4096),
        (&[4097], b"ok 1\nno 20\nok 0\n", 0),
        (&[4095, 1, 1], b"ok 1\nok 1\nok 2\nno 20\nok 0\n", 4095),
        (&[4000, 97, 96, 1], b"ok 1\nok 1\nno 20\nok 2\nno 20\nok 0\n", 4000),
    ];
    for (lengths, answers, painted) in days {
        let orders = strokes(rt.alloc(), lengths)?;
        let mut after = Vec::new(rt.alloc());
        after.resize(painted, b'A')?;
        after.resize(5000, b'a')?;
        check_day(&rt, &file, &orders, Ending::Shipped, answers, &after)?;
    }
    Ok(())
}

// And for 64 marks: the 65th stroke is refused.
#[test]
fn most_marks(rt: HostRuntime) -> Result<(), Fail> {
    let file = tiny(rt.alloc())?;
    let orders = strokes(rt.alloc(), &[1; 65])?;
    let answers =
        b"ok 1\nok 1\nok 2\nok 3\nok 4\nok 5\nok 6\nok 7\nok 8\nok 9\nok 10\nok 11\nok 12\n\
ok 13\nok 14\nok 15\nok 16\nok 17\nok 18\nok 19\nok 20\nok 21\nok 22\nok 23\nok 24\nok 25\nok 26\nok 27\n\
ok 28\nok 29\nok 30\nok 31\nok 32\nok 33\nok 34\nok 35\nok 36\nok 37\nok 38\nok 39\nok 40\nok 41\nok 42\n\
ok 43\nok 44\nok 45\nok 46\nok 47\nok 48\nok 49\nok 50\nok 51\nok 52\nok 53\nok 54\nok 55\nok 56\nok 57\n\
ok 58\nok 59\nok 60\nok 61\nok 62\nok 63\nok 64\nno 20\nok 0\n";
    let after = b"Abcdefghijklmnopqrstuvwx";
    check_day(&rt, &file, &orders, Ending::Shipped, answers, after)
}

// What was printed before stays in front, and counts with the room.
#[test]
fn printed_behind(rt: HostRuntime) -> Result<(), Fail> {
    let mut file = tiny(rt.alloc())?;
    let mut printed = Vec::new(rt.alloc());
    printed.reserve_exact(23)?;
    printed.extend_from_slice(b"day 1\n")?;
    assert_eq!(rt; run_day(&mut file, b"K 1", &mut printed), Err(NoRoom));
    assert_eq!(rt; printed.as_slice(), b"day 1\n".as_slice());
    printed.reserve_exact(18)?;
    assert_eq!(rt;
        run_day(&mut file, b"K 1", &mut printed),
        Ok(Ending::Shipped)
    );
    assert_eq!(rt; printed.as_slice(), b"day 1\nno 16\n".as_slice());
    Ok(())
}

// Six bytes for each byte of the orders, and none for orders over their limit.
#[test]
fn room(rt: HostRuntime) -> Result<(), Fail> {
    assert_eq!(rt; room_for(b""), 0);
    assert_eq!(rt; room_for(b"K 1"), 18);
    let mut orders = Vec::new(rt.alloc());
    orders.resize(16_384, b'\n')?;
    assert_eq!(rt; room_for(&orders), 98_304);
    orders.push(b'\n')?;
    assert_eq!(rt; room_for(&orders), 0);
    let text = format!(in rt.alloc(); "{NoRoom}")?;
    assert_eq!(rt; text.as_str(), "no room for the answers");
    Ok(())
}
