// The queue of the pages, and its rule.

use crate::batch::Batch;
use crossbeam_channel::protocol::{Join, Lesson, Outcome, Protocol, Split};
use frame_core::Isolated;
use std::collections::LinkedList;

/// A message in the queue: a batch of pages or an end mark.
#[derive(Drop)]
pub enum Note {
    Pages(Batch<Isolated>),
    Mark,
}

/// What an end knows of the hand-over: what it gave, and what came off for it. This is only for contracts: no value of it is made.
///
/// An end that has all 1,024 shares knows the list of every taker.
pub struct Known {
    pub shares: u64,
    pub gives: bool,
    pub given: LinkedList<Isolated>,
    pub marks: u64,
    pub largest: u64,
    pub off: LinkedList<Isolated>,
    pub ended: u64,
}

/// The rule: pages come off in the order in which they were given, and the end marks after them.
pub struct Ordered;

impl Protocol<Note, Known> for Ordered {
    ghost use Rattle.hand_core.specs.PageQueue.{InOrder, giver_knows};

    ghost holds = { InOrder };

    ghost first = { giver_knows };
}

/// The giver cuts off a share for a taker, and takes it back with what the taker knows.
pub struct Shares;

impl Split<Known> for Shares {
    ghost use Rattle.std.specs.Prelude.{◌-◌};
    ghost use Rattle.hand_core.specs.PageQueue.{taker_knows};

    ghost left = { λ v. record v { shares = v.shares - 1 } };

    ghost right = { λ _. taker_knows };
}

impl Join<Known> for Shares {
    ghost use Rattle.hand_core.specs.PageQueue.{joined, nothing_known};

    ghost both = { joined };

    ghost spent = { nothing_known };
}

/// The giver puts a batch of pages or an end mark at the back.
pub struct Puts;

impl Outcome<Note, Known> for Puts {
    ghost use Rattle.std.specs.Prelude.{◌≡◌};
    ghost use Rattle.hand_core.specs.PageQueue.{after_put};

    ghost then = { λ v note w. w ≡ after_put v note };
}

impl Lesson<Note, Known> for Puts {
    ghost fact = { λ v queue. Unit {0} };
}

/// A taker takes a batch of pages or an end mark from the front.
pub struct Gets;

impl Outcome<Note, Known> for Gets {
    ghost use Rattle.hand_core.specs.PageQueue.{Takes};

    ghost then = { Takes };
}

impl Lesson<Note, Known> for Gets {
    ghost fact = { λ v queue. Unit {0} };
}

/// What the giver learns once it has all shares again.
pub struct Whole;

impl Lesson<Note, Known> for Whole {
    ghost use Rattle.hand_core.specs.PageQueue.{Settles};

    ghost fact = { Settles };
}
