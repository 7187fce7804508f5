// What became of a job's loans, in numbers.

/// How many loans a job granted, and what became of them: granted is kept, cancelled and out together.
#[derive(Clone, Copy, PartialEq, Eq, Debug, Default)]
pub struct Report {
    /// how many were granted
    pub granted: u32,
    /// how many ended by a keep
    pub kept: u32,
    /// how many ended by a cancel or a scrap
    pub cancelled: u32,
    /// how many are out
    pub out: u32,
}
