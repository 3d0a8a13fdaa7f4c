use crate::huge::Huge;
use arrayvec::ArrayVec;
use round_core::RoundError;

/// Why a collector stopped.
#[derive(Clone, Copy, Debug, PartialEq, Eq)]
pub enum Stop {
    /// It has as many blocks as it was asked for.
    Enough,
    /// No block is free, and its latest round moved no page.
    NoBlock,
    /// No block is free, and it ran as many rounds as it may run.
    Rounds,
    /// The journal has no place for a block, or it had none for the pages of the latest round, which moved none.
    JournalFull,
    /// No block is free, and a round was refused.
    Refused(RoundError),
}

/// What a collector reserved.
#[must_use]
#[derive(Drop, Debug)]
pub struct Report {
    /// The blocks that it got, in the order in which it got them, 8 at most. Each is Some.
    pub got: ArrayVec<Option<Huge>, 8>,
    /// How many rounds it ran. A round that was refused isn't counted.
    pub rounds: u32,
    pub stop: Stop,
}
