ghost use Rattle.std.specs.Prelude.{◌≡◌, ◌<◌, ◌≤◌, ◌↔◌, true};

use arrayvec::ArrayVec;

/// How many pages or copies a batch has room for.
pub const BATCH_CAPACITY: usize = 8;

/// Isolated pages, or copies of them, that are handed over together: up to eight, in their order.
pub type Batch<T> = ArrayVec<T, BATCH_CAPACITY>;

/// Whether a queue may be opened for so many takers or senders, with room for `cap` pages or copies in batches of at most `most`.
pub(crate) fn is_in_range(ends: usize, cap: usize, most: usize) -> bool
    ensures { (result ≡ true) ↔ ((0 < ends) × (ends ≤ 4) × (cap ≤ 64) × (0 < most) × (most ≤ 8) × (most ≤ cap)) }
{
    0 < ends && ends <= 4 && cap <= 64 && 0 < most && most <= BATCH_CAPACITY && most <= cap
}
