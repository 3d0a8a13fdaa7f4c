ghost use Rattle.std.specs.Prelude.{◌≡◌, ℕ, ◌<◌, ◌≤◌, ◌↔◌, IsSome, IfSome};

use std::marker::Model;

const BLOCKS: u32 = 8;

/// A number of blocks, 1 to 8: of a zone's pageblocks, or of the blocks that a pool is asked for.
#[derive(Clone, Copy, Debug)]
pub struct BlockCount {
    count: u8,
}

impl Model for BlockCount {
    ghost Value = { ℕ };

    ghost view = { λ n. n.count };

    ghost invariant = { λ n. (0 < n.count) × (n.count ≤ 8) };

    ghost inverse = { λ n. record { count = n } };
}

impl BlockCount {
    /// The number as one of 1 to 8. None where it is out of this range.
    pub fn new(number: u32) -> Option<Self>
        ensures valid { IsSome result ↔ ((0 < number) × (number ≤ 8)) }
        ensures value { IfSome result (λ n. n ≡ number) }
    {
        if 0 < number && number <= BLOCKS {
            Some(BlockCount {
                count: number as u8,
            })
        } else {
            None
        }
    }

    /// The number, 1 to 8.
    pub fn get(self) -> u32
        ensures value { result ≡ self }
        ensures low { 0 < result }
        ensures high { result ≤ 8 }
    {
        u32::from(self.count)
    }
}
