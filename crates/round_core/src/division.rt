//! How pages are divided into batches.

ghost use Rattle.std.specs.Prelude.{◌≡◌, ◌⊎◌, ◌+◌, ◌*◌, ◌<◌, ◌≤◌, min, max};

use hand_core::BATCH_CAPACITY;

/// How pages are divided among copiers, over queues that have room for a number of pages.
#[derive(Clone, Copy)]
pub(crate) struct Division {
    copiers: usize,
    // How many pages a queue has room for.
    pub(crate) room: usize,
    // How many pages a batch of this round has at most.
    pub(crate) most: usize,
    ghost some: { (0 < copiers) × (copiers ≤ 4) },
    ghost in_range: { (0 < room) × (room ≤ 64) },
    ghost fits: { (0 < most) × (most ≤ 8) × (most ≤ room) },
}

impl Division {
    /// The division among this many copiers, over queues with room for `cap` pages each.
    pub(crate) fn new(copiers: usize, cap: usize) -> Self
        requires copiers { (0 < copiers) × (copiers ≤ 4) }
        requires cap { (0 < cap) × (cap ≤ 64) }
        ensures copiers { result.copiers ≡ copiers }
        ensures room { result.room ≡ cap }
        ensures most { result.most ≡ min cap 8 }
    {
        Division {
            copiers,
            room: cap,
            most: cap.min(BATCH_CAPACITY),
        }
    }

    /// How many of this many pages go into a batch of at most `most`, so that each copier gets some where there are enough.
    pub(crate) fn batch_len(self, pages: usize, most: usize) -> usize
        requires { 0 < most }
        ensures some { (0 < result) × (result ≤ most) }
        ensures shared { result ≡ 1 ⊎ result * self.copiers < pages + self.copiers }
    {
        pages.div_ceil(self.copiers).clamp(1, most)
    }

    /// How many pages are isolated or committed under one hold of the lock at most: as many as a queue has room for, or as there are
    /// in a batch for each copier where that is more.
    pub(crate) fn pages_a_hold(self) -> usize
        ensures some { 0 < result }
        ensures exact { result ≡ max self.room (self.most * self.copiers) }
    {
        self.room.max(self.most * self.copiers)
    }
}
