ghost use Rattle.std.specs.Prelude.{◌≡◌, ◌<◌, ℕ, true, false, All, IfSome, IfNone};
ghost use Rattle.hand_core.specs.CopyEnds.{has_ended};

use super::{assert_of, is_page, isolated};
use frame_core::{Copied, Serial};
use hand_core::{Batch, Came, DoneSender, DoneTaker, done_open, done_open_in_batches, done_settle};
use std::alloc::Global;
use std::process::Abort;
use std::sync::Wait;
use std::sync::atomic::{AtomicU32, Ordering};
use std::thread::{Threads, join, map_vec};

const COPIES: u32 = 150;

// The copy of a page whose serial tells its sender.
fn copy_of<R: Abort>(rt: &R, sender: u32, number: u32) -> Copied
    requires { (sender < 5) × (number < 1000) }
{
    isolated(Serial::from(sender * 1000 + number), number)
        .expect(rt, "in range")
        .copy_into_new()
}

fn assert_is_copy<R: Abort>(rt: &R, copy: Copied, serial: Serial, number: u32) {
    assert!(rt; copy.serial() == serial);
    assert!(rt; is_page(&copy.into_page(), number));
}

fn assert_sends<R: Wait + Abort>(rt: &R, sender: &mut DoneSender, copy: Copied)
    requires { sender.old.closed ≡ false }
    ensures { (sender.new.closed ≡ false) × (sender.new.queue ≡ sender.old.queue) }
{
    assert!(rt; sender.send(rt, copy).is_ok());
}

fn assert_closes<R: Wait + Abort>(rt: &R, sender: &mut DoneSender)
    requires { sender.old.closed ≡ false }
    ensures { sender.new.queue ≡ sender.old.queue }
{
    assert!(rt; sender.close(rt).is_ok());
}

// Sends copies of the pages 0 to 149, and closes.
fn send_all<R: Wait + Abort>(rt: &R, mut sender: DoneSender, number: u32) -> DoneSender
    requires open { sender.closed ≡ false }
    requires number { number < 5 }
    ensures { result.queue ≡ sender.queue }
{
    for page in 0..COPIES {
        assert_sends(rt, &mut sender, copy_of(rt, number, page));
    }
    assert_closes(rt, &mut sender);
    sender
}

// All senders, four at most, send under numbers of their own, each on a thread of its own.
fn send_by_all<R: Threads + Wait + Abort + Sync>(
    rt: &R,
    senders: Vec<DoneSender>,
) -> Vec<DoneSender>
    requires { All (λ s. s.closed ≡ false) senders.items }
    ensures { (queue : _) → All (λ s. s.queue ≡ queue) senders.items → All (λ s. s.queue ≡ queue) result.items }
{
    let numbers = AtomicU32::new(0);
    let sends = |sender: DoneSender| -> DoneSender
        requires { sender.closed ≡ false }
        ensures { result.queue ≡ sender.queue }
    { send_all(rt, sender, numbers.fetch_add(1, Ordering::SeqCst) % 4) };
    map_vec(rt, senders, &sends).expect(rt, "memory")
}

// The next copy, or none at the end.
fn copy_or_end<R: Wait + Abort>(rt: &R, taker: &mut DoneTaker) -> Option<Copied>
    requires { has_ended taker.old ≡ false }
    ensures same { taker.new.queue ≡ taker.old.queue }
    ensures some { IfSome result (λ _. has_ended taker.new ≡ false) }
    ensures none { IfNone result (has_ended taker.new ≡ true) }
{
    match taker.take(rt) {
        Came::Copy(copy) => Some(copy),
        Came::End => None,
        Came::Gone => panic!(rt; "the senders are gone"),
    }
}

// Takes copies up to the end. Those of each sender come whole and in its order.
fn take_all<R: Wait + Abort>(rt: &R, mut taker: DoneTaker) -> DoneTaker
    requires { has_ended taker ≡ false }
    ensures queue { result.queue ≡ taker.queue }
    ensures ended { has_ended result ≡ true }
{
    let mut next = [0; 4];
    for _ in rt.forever() {
        let Some(copy) = copy_or_end(rt, &mut taker) else {
            assert!(rt; next == [COPIES; 4], "a copy is missing");
            return taker;
        };
        assert_next(rt, copy, &mut next);
    }
    unreachable!()
}

fn opened<R: Wait + Abort>(
    rt: &R,
    alloc: Global,
    senders: usize,
    cap: usize,
) -> (Vec<DoneSender>, DoneTaker)
    ensures queue { All (λ s. s.queue ≡ result.1.queue) result.0.items }
    ensures open { All (λ s. s.closed ≡ false) result.0.items }
    ensures taker { has_ended result.1 ≡ false }
{
    done_open(rt, alloc, senders, cap).expect(rt, "a queue")
}

fn last_sender<R: Abort>(rt: &R, senders: &mut Vec<DoneSender>) -> DoneSender
    requires { All (λ s. s.closed ≡ false) senders.old.items }
    ensures last { result.closed ≡ false }
    ensures most { (most : ℕ) → All (λ s. s.most ≡ most) senders.old.items → result.most ≡ most }
    ensures others { All (λ s. s.closed ≡ false) senders.new.items }
{
    senders.pop().expect(rt, "a sender")
}

// The copy is the next of its sender.
fn assert_next<R: Abort>(rt: &R, copy: Copied, next: &mut [u32; 4]) {
    let serial = copy.serial();
    let number = number_of(rt, serial, next);
    let is_the_copy = is_page(&copy.into_page(), number);
    assert_of(rt, serial, is_the_copy, "another copy came under");
}

// The number of the copy with this serial, which has to be the next of its sender. It's counted.
fn number_of<R: Abort>(rt: &R, serial: Serial, next: &mut [u32; 4]) -> u32 {
    let sender = (serial / 1000) as usize;
    assert_of(rt, serial, sender < 4, "no sender has");
    let number = next[sender];
    assert_in_place(rt, serial, number);
    next[sender] = number.saturating_add(1);
    number
}

fn assert_in_place<R: Abort>(rt: &R, serial: Serial, number: u32) {
    assert!(rt;
        serial % 1000 == Serial::from(number),
        "{serial} came in the place of {number}"
    );
}

fn from_four_senders<R: Threads + Wait + Abort + Sync>(rt: &R, alloc: Global, cap: usize) {
    let (senders, taker) = opened(rt, alloc, 4, cap);
    let (taker, senders) = join(
        rt,
        move || -> DoneTaker
            requires { has_ended taker ≡ false }
            ensures { (result.queue ≡ taker.queue) × (has_ended result ≡ true) }
        { take_all(rt, taker) },
        move || -> Vec<DoneSender>
            requires { All (λ s. s.closed ≡ false) senders.items }
            ensures { (queue : _) → All (λ s. s.queue ≡ queue) senders.items → All (λ s. s.queue ≡ queue) result.items }
        { send_by_all(rt, senders) },
    );
    done_settle(taker, senders);
}

#[test]
fn brings_600_copies_of_four_senders(rt: HostRuntime) {
    for cap in [1, 64] {
        from_four_senders(&rt, rt.alloc(), cap);
    }
}

fn copy_back<R: Wait + Abort>(rt: &R, sender: &mut DoneSender, copy: Copied) -> Copied
    requires { sender.old.closed ≡ false }
    ensures { sender.new.closed ≡ false }
{
    sender
        .send(rt, copy)
        .expect_err(rt, "sent a copy to nobody")
}

#[test]
fn hands_the_copy_back_where_the_taker_is_gone(rt: HostRuntime) {
    let (mut senders, taker) = opened(&rt, rt.alloc(), 2, 1);
    let mut one = last_sender(&rt, &mut senders);
    assert!(rt; one.most() == 1);
    drop(taker);
    let copy = copy_back(&rt, &mut one, copy_of(&rt, 0, 3));
    assert_is_copy(&rt, copy, 3, 3);
    assert!(rt; one.close(&rt).is_err());
}

fn taken_copy<R: Wait + Abort>(rt: &R, taker: &mut DoneTaker) -> Copied
    requires { has_ended taker.old ≡ false }
    ensures { has_ended taker.new ≡ false }
{
    copy_or_end(rt, taker).expect(rt, "the copy is lost")
}

#[test]
fn answers_gone_after_the_copies_where_the_senders_are_gone(rt: HostRuntime) {
    let (mut senders, mut taker) = opened(&rt, rt.alloc(), 2, 4);
    let mut one = last_sender(&rt, &mut senders);
    assert_sends(&rt, &mut one, copy_of(&rt, 0, 1));
    drop(one);
    drop(senders);
    assert!(rt; taken_copy(&rt, &mut taker).page_no().get() == 1);
    assert!(rt; matches!(taker.take(&rt), Came::Gone));
}

// Takes the copy that is there, and doesn't wait.
fn tried_copy<R: Wait + Abort>(rt: &R, taker: &mut DoneTaker) -> Copied
    requires { has_ended taker.old ≡ false }
    ensures { has_ended taker.new ≡ false }
{
    let Some(Came::Copy(copy)) = taker.try_take(rt) else {
        panic!(rt; "the copy after the first mark isn't taken");
    };
    copy
}

fn assert_finds_nothing<R: Wait + Abort>(rt: &R, taker: &mut DoneTaker)
    requires { has_ended taker.old ≡ false }
    ensures { has_ended taker.new ≡ false }
{
    assert!(rt; taker.try_take(rt).is_none());
}

// A copy is there, and then nothing.
fn assert_finds_one<R: Wait + Abort>(rt: &R, taker: &mut DoneTaker, serial: Serial, number: u32)
    requires { has_ended taker.old ≡ false }
    ensures { has_ended taker.new ≡ false }
{
    assert_is_copy(rt, tried_copy(rt, taker), serial, number);
    assert_finds_nothing(rt, taker);
}

// Tries before each mark and each copy, and after them. A taker that waits goes on after the first mark too.
#[test]
fn takes_without_waiting(rt: HostRuntime) {
    let (mut senders, mut taker) = opened(&rt, rt.alloc(), 2, 4);
    let mut two = last_sender(&rt, &mut senders);
    let mut one = last_sender(&rt, &mut senders);
    assert_finds_nothing(&rt, &mut taker);
    assert_closes(&rt, &mut one);
    assert_sends(&rt, &mut two, copy_of(&rt, 1, 3));
    assert_finds_one(&rt, &mut taker, 1003, 3);
    assert_sends(&rt, &mut two, copy_of(&rt, 1, 4));
    assert_is_copy(&rt, taken_copy(&rt, &mut taker), 1004, 4);
    assert_closes(&rt, &mut two);
    assert!(rt; matches!(taker.try_take(&rt), Some(Came::End)));
}

#[test]
fn is_told_without_waiting_that_the_senders_are_gone(rt: HostRuntime) {
    let (senders, mut taker) = opened(&rt, rt.alloc(), 2, 4);
    drop(senders);
    assert!(rt; matches!(taker.try_take(&rt), Some(Came::Gone)));
}

// A queue with room for two batches of two copies.
fn opened_in_pairs<R: Wait + Abort>(rt: &R, alloc: Global) -> (DoneSender, DoneTaker)
    ensures sender { (result.0.closed ≡ false) × (result.0.most ≡ 2) }
    ensures taker { has_ended result.1 ≡ false }
{
    let (mut senders, taker) = done_open_in_batches(rt, alloc, 1, 4, 2).expect(rt, "a queue");
    (last_sender(rt, &mut senders), taker)
}

#[test]
fn takes_the_copies_of_a_batch_one_by_one(rt: HostRuntime) {
    let (mut one, mut taker) = opened_in_pairs(&rt, rt.alloc());
    assert!(rt; one.most() == 2);
    let mut copies = Batch::new();
    copies.push(copy_of(&rt, 0, 7));
    copies.push(copy_of(&rt, 0, 8));
    assert!(rt; one.send_all(&rt, copies).is_ok());
    assert_is_copy(&rt, taken_copy(&rt, &mut taker), 7, 7);
    assert_finds_one(&rt, &mut taker, 8, 8);
}
