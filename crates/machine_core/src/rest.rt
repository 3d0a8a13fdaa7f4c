//! What is left of a world after its zone and its seats were taken out.

ghost use Rattle.std.specs.Prelude.{◌≡◌, ◌≤◌};

use frame_core::IsolatedOf;
use std::collections::VecDeque;
use std::marker::Model;

/// What a world has besides its zone and its seats while no page is moving: the memory of its list. It fits zones with a
/// certain number of pageblocks.
#[derive(Drop)]
pub struct Rest<const W: usize> {
    pub(crate) waiting: VecDeque<IsolatedOf<W>>,
    // A page has at most 65,536 words.
    ghost size: { W ≤ 65536 },
}

impl<const W: usize> Model for Rest<W> {
    ghost use Rattle.std.specs.Prelude.{◌/◌, ℕ};
    ghost use Rattle.std.specs.VecDeque.{deque_capacity};

    ghost Value = { ℕ };

    ghost use Rattle.machine_core.specs.Carried.{IsRest};

    ghost view = { λ r. deque_capacity r.waiting / 256 };

    ghost invariant = { λ r. IsRest r.waiting.items (deque_capacity r.waiting) };
}

impl<const W: usize> Rest<W> {
    /// The number of pageblocks of the zones that it fits.
    pub fn blocks(&self) -> u32
        ensures { result ≡ self.now }
    {
        (self.waiting.capacity() / 256) as u32
    }
}
