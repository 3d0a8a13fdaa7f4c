//! The blocks that are handed out.

ghost use Rattle.std.specs.Prelude.{◌≡◌, ◌<◌, ◌≤◌, true, length, replicate, slice_set, is_some, Some, None, IfOk};
ghost use Rattle.frame_core.specs.Below.{count_below};
ghost use Rattle.zone_tables.specs.HandedOut.{order_of};

use crate::kept_order::KeptOrder;
use frame_core::{FixedVec, FrameNo, Order};
use std::alloc::{AllocError, Global};
use std::marker::Model;

/// The order of each block that is handed out, by its first frame.
#[derive(Drop)]
pub struct HandedOut {
    orders: FixedVec<KeptOrder>,
    blocks: u32,
}

impl Model for HandedOut {
    ghost use Rattle.std.specs.Prelude.{ℕ, List, Option};

    ghost Value = { List (Option ℕ) };

    ghost view = { λ z. z.orders.items };

    ghost use Rattle.zone_tables.specs.HandedOutInside.{IsCounted};

    ghost invariant = { IsCounted };
}

impl HandedOut {
    /// A list for this many frames in which no block is handed out, or an error where there is no memory for it. No
    /// other call takes memory.
    pub fn open(alloc: Global, frames: u32) -> Result<Self, AllocError>
        requires { frames ≤ 16777216 }
        ensures { IfOk result (λ orders. orders ≡ replicate frames None) }
    {
        let orders = FixedVec::filled(alloc, KeptOrder::of(None), frames as usize)?;
        Ok(HandedOut { orders, blocks: 0 })
    }

    /// How many blocks are handed out.
    pub fn blocks(&self) -> u32
        ensures { result ≡ count_below (λ first. is_some (order_of self.now first)) (length self.now) }
    {
        self.blocks
    }

    /// The order of the block that is handed out from this first frame on, if there is one.
    pub fn order(&self, first: FrameNo) -> Option<Order>
        ensures { result ≡ order_of self.now first }
    {
        self.orders.get(first.get() as usize)?.order()
    }

    /// Notes that a block is handed out.
    pub fn take(&mut self, first: FrameNo, order: Order)
        requires within { first < length self.old }
        requires none { order_of self.old first ≡ None }
        ensures set { self.new ≡ slice_set self.old first (Some order) }
        ensures low { 3 ≤ order }
        ensures high { order ≤ 9 }
    {
        self.orders[first.get() as usize] = KeptOrder::of(Some(order));
        self.blocks += 1;
    }

    /// Notes that a block was taken back.
    pub fn give(&mut self, first: FrameNo)
        requires { is_some (order_of self.old first) ≡ true }
        ensures { self.new ≡ slice_set self.old first None }
    {
        self.orders[first.get() as usize] = KeptOrder::of(None);
        self.blocks -= 1;
    }
}
