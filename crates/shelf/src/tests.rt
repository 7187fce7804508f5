// The edges of each call, on small shelves of bytes.
use crate::Shelf;
use refusal::Refusal;
use std::process::Abort;
use std::test::Fail;

#[derive(Clone, Copy)]
enum Call<'a> {
    Put(u8),
    PutAll(&'a [u8]),
    Read(usize),
    Part(usize, usize),
    TakeOff(usize, usize),
    Slide(usize, usize, usize),
    Truncate(usize),
}

// A call, what it must answer, and what the shelf must hold after it.
type Step<'a> = (Call<'a>, Result<usize, Refusal>, &'a [u8]);

const FULL: Result<usize, Refusal> = Err(Refusal::ShelfFull);

const PAST: Result<usize, Refusal> = Err(Refusal::PastCount);

// The answer as a number: the element of a read, and the length of a part; a slide answers nothing else than the count.
fn answer_to(call: Call<'_>, shelf: &mut Shelf<'_, u8>) -> Result<usize, Refusal> {
    match call {
        Call::Put(element) => shelf.put(element),
        Call::PutAll(elements) => shelf.put_all(elements),
        Call::Read(position) => Ok(shelf.read(position)? as usize),
        Call::Part(position, number) => Ok(shelf.part(position, number)?.len()),
        Call::TakeOff(position, number) => shelf.take_off(position, number),
        Call::Slide(from, number, to) => {
            shelf.slide(from, number, to)?;
            Ok(shelf.count())
        }
        Call::Truncate(count) => shelf.truncate(count),
    }
}

fn run(rt: &impl Abort, memory: &mut [u8], steps: &[Step<'_>]) -> Result<(), Fail> {
    let mut shelf = Shelf::new(memory);
    for (call, answer, contents) in steps {
        assert_eq!(rt; answer_to(*call, &mut shelf), *answer);
        assert_eq!(rt; shelf.part(0, shelf.count()), Ok(*contents));
    }
    Ok(())
}

#[test]
fn put_until_full(rt: HostRuntime) -> Result<(), Fail> {
    run(
        &rt,
        &mut [0; 2],
        &[
            (Call::Put(7), Ok(1), &[7]),
            (Call::Put(8), Ok(2), &[7, 8]),
            (Call::Put(9), FULL, &[7, 8]),
        ],
    )
}

#[test]
fn put_all_or_none(rt: HostRuntime) -> Result<(), Fail> {
    run(
        &rt,
        &mut [0; 4],
        &[
            (Call::Put(1), Ok(1), &[1]),
            (Call::PutAll(&[2, 3, 4, 5]), FULL, &[1]),
            (Call::PutAll(&[2, 3, 4]), Ok(4), &[1, 2, 3, 4]),
            (Call::PutAll(&[]), Ok(4), &[1, 2, 3, 4]),
            (Call::PutAll(&[5]), FULL, &[1, 2, 3, 4]),
        ],
    )
}

#[test]
fn read_up_to_the_count(rt: HostRuntime) -> Result<(), Fail> {
    run(
        &rt,
        &mut [9; 4],
        &[
            (Call::Read(0), PAST, &[]),
            (Call::PutAll(&[1, 2]), Ok(2), &[1, 2]),
            (Call::Read(1), Ok(2), &[1, 2]),
            (Call::Read(2), PAST, &[1, 2]),
            (Call::Read(usize::MAX), PAST, &[1, 2]),
            (Call::Part(1, 1), Ok(1), &[1, 2]),
            (Call::Part(1, 2), PAST, &[1, 2]),
            (Call::Part(2, 0), Ok(0), &[1, 2]),
            (Call::Part(3, 0), PAST, &[1, 2]),
            (Call::Part(1, usize::MAX), PAST, &[1, 2]),
        ],
    )
}

#[test]
fn take_off_closes_the_gap(rt: HostRuntime) -> Result<(), Fail> {
    run(
        &rt,
        &mut [0; 6],
        &[
            (Call::PutAll(&[1, 2, 3, 4, 5]), Ok(5), &[1, 2, 3, 4, 5]),
            (Call::TakeOff(1, 2), Ok(3), &[1, 4, 5]),
            (Call::TakeOff(3, 0), Ok(3), &[1, 4, 5]),
            (Call::TakeOff(4, 0), PAST, &[1, 4, 5]),
            (Call::TakeOff(2, 2), PAST, &[1, 4, 5]),
            (Call::TakeOff(usize::MAX, 1), PAST, &[1, 4, 5]),
            (Call::TakeOff(usize::MAX, usize::MAX), PAST, &[1, 4, 5]),
            (Call::TakeOff(0, 3), Ok(0), &[]),
        ],
    )
}

#[test]
#[rattlefmt::skip]
fn many_gaps_in_one_pass(rt: HostRuntime) -> Result<(), Fail> {
    run(
        &rt,
        &mut [0; 6],
        &[
            (Call::PutAll(&[1, 2, 3, 4, 5, 6]), Ok(6), &[1, 2, 3, 4, 5, 6]),
            (Call::Slide(2, 2, 1), Ok(6), &[1, 3, 4, 4, 5, 6]),
            (Call::Slide(5, 1, 3), Ok(6), &[1, 3, 4, 6, 5, 6]),
            (Call::Slide(1, 1, 2), PAST, &[1, 3, 4, 6, 5, 6]),
            (Call::Slide(5, 2, 0), PAST, &[1, 3, 4, 6, 5, 6]),
            (Call::Slide(1, usize::MAX, 0), PAST, &[1, 3, 4, 6, 5, 6]),
            (Call::Truncate(7), PAST, &[1, 3, 4, 6, 5, 6]),
            (Call::Truncate(4), Ok(4), &[1, 3, 4, 6]),
        ],
    )
}

#[test]
fn no_memory(rt: HostRuntime) -> Result<(), Fail> {
    run(
        &rt,
        &mut [],
        &[
            (Call::Put(1), FULL, &[]),
            (Call::PutAll(&[]), Ok(0), &[]),
            (Call::TakeOff(0, 0), Ok(0), &[]),
            (Call::TakeOff(0, 1), PAST, &[]),
        ],
    )
}

#[test]
fn space_left(rt: HostRuntime) {
    let mut memory = [0u8; 3];
    let mut shelf = Shelf::new(&mut memory);
    assert_eq!(rt; shelf.put(1), Ok(1));
    assert_eq!(rt; shelf.capacity(), 3);
    assert_eq!(rt; shelf.space_left(), 2);
}

#[test]
fn part_and_read_count_from_the_first(rt: HostRuntime) {
    let mut memory = [0u8; 6];
    let mut shelf = Shelf::new(&mut memory);
    assert_eq!(rt; shelf.put_all(&[10, 20, 30, 40, 50]), Ok(5));
    assert_eq!(rt; shelf.read(0), Ok(10));
    assert_eq!(rt; shelf.read(3), Ok(40));
    assert_eq!(rt; shelf.read(4), Ok(50));
    assert_eq!(rt; shelf.part(0, 2), Ok(&[10, 20][..]));
    assert_eq!(rt; shelf.part(1, 3), Ok(&[20, 30, 40][..]));
    assert_eq!(rt; shelf.part(4, 1), Ok(&[50][..]));
}

// The capacity of a shelf over so many elements of no bytes, which take no memory however many they are.
fn capacity_over<const N: usize>() -> usize {
    let mut memory = [(); N];
    Shelf::new(&mut memory).capacity()
}

#[test]
fn no_more_than_1073741824_elements(rt: HostRuntime) {
    assert_eq!(rt; capacity_over::<1_073_741_823>(), 1_073_741_823);
    assert_eq!(rt; capacity_over::<1_073_741_824>(), 1_073_741_824);
    assert_eq!(rt; capacity_over::<1_073_741_825>(), 1_073_741_824);
    assert_eq!(rt; capacity_over::<4_294_967_296>(), 1_073_741_824);
}
