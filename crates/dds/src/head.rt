// What is read of a file to open it.
ghost use Rattle.std.specs.Prelude.{◌≡◌, length, take};
ghost use Rattle.dds.specs.Readings.{reading_of, reading_in};

/// A file's head, which is its first 148 bytes or the whole of a shorter one, and the file's length.
#[derive(Clone, Copy)]
pub struct FileHead<'a> {
    /// the first 148 bytes, or all of a shorter file; a byte that is missing counts as 0
    pub bytes: &'a [u8],
    /// the length of the whole file, in bytes
    pub length: u64,
}

impl<'a> FileHead<'a> {
    /// The head of a file that is all in memory.
    pub fn of(file: &'a [u8]) -> FileHead<'a>
        ensures head { result.bytes.now ≡ take 148 file.now }
        ensures length { result.length ≡ length file.now }
        ensures read { reading_in result ≡ reading_of file.now }
    {
        FileHead {
            bytes: &file[..file.len().min(148)],
            length: file.len() as u64,
        }
    }
}
