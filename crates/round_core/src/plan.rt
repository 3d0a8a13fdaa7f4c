ghost use Rattle.std.specs.Prelude.{◌<◌, ◌≤◌};

use std::alloc::Global;

/// How a round is run: with how many copiers, over queues with room for how many pages, and how many pages it isolates at most, where
/// it has a limit.
#[derive(Clone, Copy)]
pub(crate) struct Plan {
    pub(crate) alloc: Global,
    pub(crate) copiers: usize,
    pub(crate) cap: usize,
    pub(crate) most: Option<u32>,
    ghost some: { (0 < copiers) × (copiers ≤ 4) },
    ghost in_range: { (0 < cap) × (cap ≤ 64) },
}
