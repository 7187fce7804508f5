// The runs of bytes in which two files differ.
ghost use Rattle.std.specs.Prelude.{◌≡◌, length, max};
ghost use Rattle.std.specs.Iterator.{YieldsFirst, item_count};
ghost use Rattle.trace.specs.Changes.{is_changed, AreChanges, IsFirstRun, changes_left, changed_count};

use crate::change::Change;

/// The runs of bytes in which two files differ, one after the other, each as long as it can be. Where one file is longer, the bytes
/// that only it has count as changed.
#[derive(Drop)]
pub struct Changes<'a> {
    before: &'a [u8],
    after: &'a [u8],
    // where to look from
    next: usize,
}

// Whether the byte at a place differs, or only one file has one.
fn is_changed(before: &[u8], after: &[u8], place: usize) -> bool
    ensures { result ≡ is_changed before.now after.now place }
{
    before.get(place).copied() != after.get(place).copied()
}

// The first run of changed bytes, as long as it can be, of the places from one on.
fn first_change(before: &[u8], after: &[u8], from: usize) -> Option<Change>
    ensures { IsFirstRun (is_changed before.now after.now) from
        (max (length before.now) (length after.now)) result }
{
    let end = before.len().max(after.len());
    let place = (from..end).find(|place| is_changed(before, after, *place))?;
    let behind = (place..end)
        .find(|place| !is_changed(before, after, *place))
        .unwrap_or(end);
    Some(Change {
        place,
        length: behind - place,
    })
}

impl<'a> Changes<'a> {
    /// The changes from a file as it was to the file as it is.
    pub fn of(before: &'a [u8], after: &'a [u8]) -> Changes<'a>
        ensures { AreChanges before.now after.now (changes_left result) }
    {
        Changes {
            before,
            after,
            next: 0,
        }
    }
}

impl Iterator for Changes<'_> {
    type Item = Change;

    ghost next_gives = { YieldsFirst changes_left };

    ghost remaining = { item_count changes_left };

    fn next(&mut self) -> Option<Change> {
        let change = first_change(self.before, self.after, self.next)?;
        self.next = change.place + change.length;
        Some(change)
    }
}

/// How many bytes changed from a file as it was to the file as it is. Where one is longer, the bytes that only it has count as changed.
pub fn changed_bytes(before: &[u8], after: &[u8]) -> usize
    ensures { result ≡ changed_count before.now after.now }
{
    let end = before.len().max(after.len());
    (0..end)
        .filter(|place| is_changed(before, after, *place))
        .count()
}

#[cfg(test)]
mod tests {
    use super::*;

    #[test]
    fn tells_each_run_whole(rt: HostRuntime) {
        let cases: [(&[u8], &[u8], &[(usize, usize)]); 8] = [
            (b"", b"", &[]),
            (b"abcdef", b"abcdef", &[]),
            (b"abcdef", b"aBcdEF", &[(1, 1), (4, 2)]),
            (b"abcdef", b"ABcDef", &[(0, 2), (3, 1)]),
            (b"abcdef", b"ABCDEF", &[(0, 6)]),
            (b"abc", b"abCde", &[(2, 3)]),
            (b"abcde", b"Abc", &[(0, 1), (3, 2)]),
            (b"", b"ab", &[(0, 2)]),
        ];
        for (before, after, wanted) in cases {
            let mut changes = Changes::of(before, after);
            for (place, length) in wanted {
                let run = Change {
                    place: *place,
                    length: *length,
                };
                assert_eq!(rt; changes.next(), Some(run));
            }
            assert_eq!(rt; changes.next(), None);
            let total: usize = wanted
                .iter()
                .map(|run| run.1)
                .fold(0, |sum, length| sum.saturating_add(length));
            assert_eq!(rt; changed_bytes(before, after), total);
        }
    }
}
