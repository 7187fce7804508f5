// Heads of files, made from words.
use crate::expected::Change;
use std::alloc::Global;
use std::process::Abort;
use std::test::Fail;

// The 148 bytes of a head: a base head with changes.
pub(crate) fn head_with(
    rt: &impl Abort,
    heap: Global,
    base: &[u32; 37],
    changes: &[Change],
) -> Result<Vec<u8>, Fail> {
    let mut words = *base;
    for change in changes {
        let word = change.place / 4;
        assert!(rt; word < 37);
        words[word] = change.value;
    }
    let mut head = Vec::new(heap);
    for word in words {
        head.extend_from_slice(&word.to_le_bytes())?;
    }
    Ok(head)
}

// A file that begins with so many bytes of a base head, and in which every byte behind them is its place's remainder by 251.
pub(crate) fn file_with(
    rt: &impl Abort,
    heap: Global,
    base: &[u32; 37],
    begin: u32,
    length: u32,
) -> Result<Vec<u8>, Fail> {
    let mut file = head_with(rt, heap, base, &[])?;
    file.truncate(begin as usize);
    for place in begin..length {
        file.push((place % 251) as u8)?;
    }
    Ok(file)
}
