// The queue of the copies, and its rule.

use crate::batch::Batch;
use crossbeam_channel::protocol::{Join, Lesson, Outcome, Protocol, Split};
use frame_core::Copied;
use std::collections::LinkedList;

/// A message in the queue: a batch of copies or an end mark, under the number of its sender.
#[derive(Drop)]
pub enum Message {
    Copies(usize, Batch<Copied>),
    Mark(usize),
}

/// What an end knows: a sender knows what it sent, and the taker what it received. This is only for contracts: no value of it is made.
pub struct Account {
    pub sends: bool,
    pub sender: u64,
    pub sent: LinkedList<Batch<Copied>>,
    pub marked: bool,
    pub takes: bool,
    pub made: u64,
    pub came: LinkedList<Message>,
}

/// The rule: of each sender, the batches are received in the order in which they were sent, and its mark after them.
pub struct Turns;

impl Protocol<Message, Account> for Turns {
    ghost use Rattle.hand_core.specs.CopyQueue.{InTurn, taker_account};

    ghost holds = { InTurn };

    ghost first = { taker_account };
}

/// The taker makes one sender more.
pub struct Makes;

impl Split<Account> for Makes {
    ghost use Rattle.std.specs.Prelude.{◌+◌};
    ghost use Rattle.hand_core.specs.CopyQueue.{sender_account};

    ghost left = { λ v. record v { made = v.made + 1 } };

    ghost right = { λ v. sender_account v.made };
}

/// A sender puts a batch of copies or its mark at the back.
pub struct Sends;

impl Outcome<Message, Account> for Sends {
    ghost use Rattle.std.specs.Prelude.{◌≡◌};
    ghost use Rattle.hand_core.specs.CopyQueue.{after_send};

    ghost then = { λ v message w. w ≡ after_send v message };
}

impl Lesson<Message, Account> for Sends {
    ghost fact = { λ v queue. Unit {0} };
}

/// The taker takes a batch of copies or a mark from the front.
pub struct Receives;

impl Outcome<Message, Account> for Receives {
    ghost use Rattle.hand_core.specs.CopyQueue.{Comes};

    ghost then = { Comes };
}

impl Lesson<Message, Account> for Receives {
    ghost fact = { λ v queue. Unit {0} };
}

/// The taker gets the knowledge of a sender.
pub struct Folds;

impl Join<Account> for Folds {
    ghost use Rattle.hand_core.specs.CopyQueue.{folded, nothing_known};

    ghost both = { folded };

    ghost spent = { nothing_known };
}

/// What the taker learns from its own knowledge and that of a sender.
pub struct Whole;

impl Lesson<Message, Account> for Whole {
    ghost use Rattle.hand_core.specs.CopyQueue.{Tells};

    ghost fact = { Tells };
}
