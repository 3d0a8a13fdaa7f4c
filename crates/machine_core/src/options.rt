ghost use Rattle.std.specs.Prelude.{◌<◌, ◌≤◌};

/// What a script runs with.
#[derive(Clone, Copy, Debug, PartialEq, Eq)]
pub struct Options {
    /// The copiers of a round, 1 to 4.
    pub copiers: usize,
    /// The room of each queue of a round, 1 to 64 pages.
    pub capacity: usize,
    /// The places of a zone's journal, 1 to 65536.
    pub journal: u32,
    ghost copiers_in_range: { (0 < copiers) × (copiers ≤ 4) },
    ghost capacity_in_range: { (0 < capacity) × (capacity ≤ 64) },
    ghost journal_in_range: { (0 < journal) × (journal ≤ 65536) },
}
