//! A copier without its round: its ends of the two queues are opened by hand.

ghost use Rattle.std.specs.Prelude.{◌≡◌};
ghost use Rattle.round_core.specs.Crews.{IsUnsent, IsUnused};

use super::Runtime;
use frame_core::{Isolated, Page, PageNo, Serial, ZoneNo};
use hand_core::{Batch, DoneSender, Taker, done_open_in_batches, open_in_batches};
use round_core::{NoGate, carry};
use std::process::Abort;

/// The page with this serial.
fn isolated(rt: &impl Abort, serial: Serial) -> Isolated
    ensures { result.serial ≡ serial }
{
    let zone = ZoneNo::new(1).expect(rt, "a zone");
    let number = PageNo::new(0).expect(rt, "a page");
    Isolated::new(serial, Page::new(zone, number))
}

/// A taker for which three pages wait, that were given together.
fn taker_of_three<R: Runtime>(rt: &R) -> Taker
    ensures { IsUnused result.hand_over result }
{
    let opened = open_in_batches(rt, rt.alloc(), 0, 1, 3, 3);
    let (mut giver, mut takers) = opened.expect(rt, "a hand-over");
    let mut pages = Batch::new();
    pages.push(isolated(rt, 0));
    pages.push(isolated(rt, 1));
    pages.push(isolated(rt, 2));
    assert!(rt; giver.give_all(rt, pages).is_ok());
    takers.pop().expect(rt, "a taker")
}

/// A sender whose batches have two copies at most, and whose taker is gone.
fn sender_of_two<R: Runtime>(rt: &R) -> DoneSender
    ensures { IsUnsent result }
{
    let opened = done_open_in_batches(rt, rt.alloc(), 1, 2, 2);
    let (mut senders, _taker) = opened.expect(rt, "a queue");
    senders.pop().expect(rt, "a sender")
}

/// The copier ends where it sends the first copies, since nobody takes them.
fn carry_three<R: Runtime>(rt: &R) {
    let room = Vec::with_capacity(rt.alloc(), 3).expect(rt, "memory");
    let carried = carry(rt, taker_of_three(rt), sender_of_two(rt), room, &NoGate, 1);
    assert!(rt; carried.serials.as_slice() == [0, 1].as_slice());
}

#[test]
fn a_copier_sends_no_more_copies_than_a_batch_has(rt: HostRuntime) {
    carry_three(&rt);
}
