//! Calls of a world that are drawn from a fixed seed.

ghost use Rattle.std.specs.Prelude.{◌<◌};

use super::calls::{Call, Name};
use super::world::Step;
use rand_core::Rng;
use rand_pcg::Pcg32;

#[derive(Drop)]
pub struct Draws {
    numbers: Pcg32,
}

impl Draws {
    pub fn new() -> Self {
        Draws {
            numbers: Pcg32::new(42, 54),
        }
    }

    fn below(&mut self, bound: u32) -> u32
        requires { 0 < bound }
        ensures { result < bound }
    {
        self.numbers.next_u32() % bound
    }

    /// One of 128 addresses, in each space.
    fn name(&mut self) -> Name {
        (self.below(8), self.below(16))
    }

    pub fn step(&mut self) -> Step<'static> {
        match self.below(12) {
            0 | 1 => Step::Scan,
            2 => Step::Take(1 + self.below(4)),
            3 => Step::Copy(1 + self.below(4)),
            4 => Step::Finish(1 + self.below(4)),
            5 => Step::Shut,
            6 => self.block_step(),
            _ => Step::Call(self.page_call()),
        }
    }

    fn page_call(&mut self) -> Call {
        match self.below(12) {
            0 | 1 => Call::Map(self.name()),
            2 => Call::MapUnmovable(self.name()),
            3 => Call::MapAt(self.name(), self.below(4096)),
            4 | 5 => Call::Share(self.name(), self.name()),
            6 | 7 => Call::Unmap(self.name()),
            8 => Call::Load(self.name(), self.below(8)),
            9 => Call::Store(self.name(), self.below(8), u64::MAX),
            10 => Call::Pin(self.name()),
            _ => Call::Unpin(self.name()),
        }
    }

    fn block_step(&mut self) -> Step<'static> {
        let order = 3 + self.below(7);
        match self.below(6) {
            0 => Step::Call(Call::TakeOrder(order)),
            1 => Step::Call(Call::GiveOrder(self.below(8) << order, order)),
            2 => Step::TakeHuge,
            3 => Step::GiveHuge(self.below(8)),
            4 => Step::Call(Call::Mark(self.below(8))),
            _ => Step::Call(Call::Unmark(self.below(8))),
        }
    }
}
