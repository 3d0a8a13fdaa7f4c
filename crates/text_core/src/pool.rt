ghost use Rattle.std.specs.Prelude.{◌≡◌};
ghost use Rattle.text_core.specs.Pool.{pool_order, told_as};

use frame_core::{FrameNo, Order, block_of};

/// Which blocks a pool reserves, and how its reply names them.
#[derive(Clone, Copy, Debug)]
pub enum PoolBlocks {
    /// Pageblocks, named by their numbers.
    Pageblocks,
    /// Blocks of this order, named by their first frames.
    OfOrder(Order),
}

impl PoolBlocks {
    /// The order of the blocks.
    pub fn order(&self) -> Order
        ensures { result ≡ pool_order self.now }
    {
        match self {
            PoolBlocks::Pageblocks => Order::of_pageblock(),
            PoolBlocks::OfOrder(order) => *order,
        }
    }

    /// The number that names the block with this first frame.
    pub fn told_as(&self, first: FrameNo) -> u32
        ensures { result ≡ told_as self.now first }
    {
        match self {
            PoolBlocks::Pageblocks => block_of(first).get(),
            PoolBlocks::OfOrder(_) => first.get(),
        }
    }
}

/// Why a pool stopped.
#[derive(Clone, Copy, Debug)]
pub enum PoolStopped {
    /// It has as many blocks as it was asked for.
    Enough,
    /// No block is free, and its latest round moved no page.
    NoBlock,
    /// No block is free, and it ran as many rounds as it may run.
    Rounds,
    /// The journal has no place for a block, or it had none for the pages of the latest round, which moved none.
    JournalFull,
    /// A round was refused with this number of an error.
    Refused(u16),
}
