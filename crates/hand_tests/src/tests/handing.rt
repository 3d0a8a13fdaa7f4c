ghost use Rattle.std.specs.Prelude.{◌≡◌, ◌+◌, ◌<◌, ◌++◌, ◌∷◌, [], false, length, All, IfSome};

use super::{assert_of, is_page, isolated};
use frame_core::{Isolated, Serial};
use hand_core::{Batch, Giver, HandError, Taker, Takers, Took, open, open_in_batches, settle};
use std::alloc::Global;
use std::process::Abort;
use std::sync::Wait;
use std::sync::atomic::{AtomicU32, Ordering};
use std::thread::{Threads, join, map_vec};

const BASE: Serial = 5;

const PAGES: u32 = 600;

fn page_of<R: Abort>(rt: &R, serial: Serial, number: u32) -> Isolated
    ensures { result.serial ≡ serial }
{
    isolated(serial, number).expect(rt, "in range")
}

fn assert_gives<R: Wait + Abort>(rt: &R, giver: &mut Giver, page: Isolated)
    requires open { giver.old.closed ≡ false }
    requires next { page.serial ≡ giver.old.base + length giver.old.given }
    ensures { giver.new ≡ record giver.old { given = giver.old.given ++ page ∷ [] } }
{
    assert!(rt; giver.give(rt, page).is_ok());
}

fn assert_closes<R: Wait + Abort>(rt: &R, giver: &mut Giver)
    requires { giver.old.closed ≡ false }
    ensures { giver.new.hand_over ≡ giver.old.hand_over }
{
    assert!(rt; giver.close(rt).is_ok());
}

// The page has this number, and the serial of it.
fn assert_is_numbered<R: Abort>(rt: &R, page: Isolated, number: u32)
    requires { number < PAGES }
{
    assert!(rt; page.serial() == BASE + Serial::from(number));
    assert!(rt; is_page(&page.into_page(), number));
}

// Gives all pages, and closes.
fn give_all<R: Wait + Abort>(rt: &R, mut giver: Giver) -> Giver
    requires open { giver.closed ≡ false }
    requires fresh { (giver.given ≡ []) × (giver.base ≡ BASE) }
    ensures { result.hand_over ≡ giver.hand_over }
{
    for number in 0..PAGES {
        assert_gives(
            rt,
            &mut giver,
            page_of(rt, BASE + Serial::from(number), number),
        );
    }
    assert_closes(rt, &mut giver);
    giver
}

// The next page, or none at the end mark.
fn page_or_end<R: Wait + Abort>(rt: &R, taker: &mut Taker) -> Option<Isolated>
    requires { taker.old.ended ≡ false }
    ensures same { taker.new.hand_over ≡ taker.old.hand_over }
    ensures some { IfSome result (λ _. taker.new.ended ≡ false) }
{
    match taker.take(rt) {
        Took::Page(page) => Some(page),
        Took::End => None,
        Took::Gone => panic!(rt; "the giver is gone"),
    }
}

// Takes pages up to the end mark, each of a higher serial than the one before it, and counts each.
fn take_all<R: Wait + Abort>(rt: &R, mut taker: Taker, seen: &[AtomicU32]) -> Taker
    requires { taker.ended ≡ false }
    ensures { result.hand_over ≡ taker.hand_over }
{
    let mut next = BASE;
    for _ in rt.forever() {
        let Some(page) = page_or_end(rt, &mut taker) else {
            return taker;
        };
        next = note_page(rt, page, next, seen);
    }
    unreachable!()
}

// Counts the page, whose serial is at least `next`, and returns the serial after it.
fn note_page<R: Abort>(rt: &R, page: Isolated, next: Serial, seen: &[AtomicU32]) -> Serial {
    let serial = page.serial();
    let number = number_of(rt, serial, next);
    let is_the_page = is_page(&page.into_page(), number);
    assert_of(rt, serial, is_the_page, "another page came under");
    assert_of(
        rt,
        serial,
        is_first(rt, seen, number),
        "a page came again under",
    );
    serial + 1
}

// The number of the page with this serial, which is at least `next`.
fn number_of<R: Abort>(rt: &R, serial: Serial, next: Serial) -> u32
    ensures { (BASE + result ≡ serial) × (result < PAGES) }
{
    let rises = BASE <= serial && next <= serial && serial < BASE + Serial::from(PAGES);
    assert_of(rt, serial, rises, "the list doesn't rise at");
    (serial - BASE) as u32
}

// Counts the page of this number, and tells whether it's the first.
fn is_first<R: Abort>(rt: &R, seen: &[AtomicU32], number: u32) -> bool {
    let times = seen
        .get(number as usize)
        .expect(rt, "a page of the hand-over");
    times.fetch_add(1, Ordering::SeqCst) == 0
}

// All takers take pages, each on a thread of its own.
fn take_by_all<R: Threads + Wait + Abort + Sync>(
    rt: &R,
    takers: Takers,
    seen: &[AtomicU32],
) -> Takers
    requires { All (λ t. t.ended ≡ false) takers.items }
    ensures { (h : _) → All (λ t. t.hand_over ≡ h) takers.items → All (λ t. t.hand_over ≡ h) result.items }
{
    let takes = |taker: Taker| -> Taker
        requires { taker.ended ≡ false }
        ensures { result.hand_over ≡ taker.hand_over }
    { take_all(rt, taker, seen) };
    map_vec(rt, takers, &takes).expect(rt, "memory")
}

fn nothing_seen<R: Abort>(rt: &R, alloc: Global) -> Vec<AtomicU32> {
    let mut seen = Vec::new(alloc);
    for _ in 0..PAGES {
        seen.push(AtomicU32::new(0)).expect(rt, "memory");
    }
    seen
}

fn assert_all_seen<R: Abort>(rt: &R, seen: &[AtomicU32]) {
    for times in seen {
        assert!(rt; times.load(Ordering::SeqCst) == 1, "a page is missing");
    }
}

fn opened<R: Wait + Abort>(
    rt: &R,
    alloc: Global,
    base: Serial,
    takers: usize,
    cap: usize,
) -> (Giver, Vec<Taker>)
    ensures giver { (result.0.closed ≡ false) × (result.0.given ≡ []) × (result.0.base ≡ base) }
    ensures takers { All (λ t. t.hand_over ≡ result.0.hand_over) result.1.items }
    ensures going { All (λ t. t.ended ≡ false) result.1.items }
{
    open(rt, alloc, base, takers, cap).expect(rt, "a hand-over")
}

fn last_taker<R: Abort>(rt: &R, mut takers: Takers) -> Taker
    requires { All (λ t. t.ended ≡ false) takers.items }
    ensures going { result.ended ≡ false }
    ensures hand_over { (h : _) → All (λ t. t.hand_over ≡ h) takers.items → result.hand_over ≡ h }
{
    takers.pop().expect(rt, "a taker")
}

fn opened_for_one<R: Wait + Abort>(
    rt: &R,
    alloc: Global,
    base: Serial,
    cap: usize,
) -> (Giver, Taker)
    ensures giver { (result.0.closed ≡ false) × (result.0.given ≡ []) × (result.0.base ≡ base) }
    ensures taker { (result.1.hand_over ≡ result.0.hand_over) × (result.1.ended ≡ false) }
{
    let (giver, takers) = opened(rt, alloc, base, 1, cap);
    (giver, last_taker(rt, takers))
}

// The giver and all its takers settle: so many pages were handed over from `base` on.
fn assert_settles<R: Abort>(rt: &R, giver: Giver, takers: Vec<Taker>, base: Serial, count: u32)
    requires { All (λ t. t.hand_over ≡ giver.hand_over) takers.items }
{
    let settled = settle(giver, takers)
        .ok()
        .expect(rt, "a hand-over that is settled");
    assert!(rt; settled.base == base && settled.count == u128::from(count));
}

fn assert_settles_with_one<R: Abort>(
    rt: &R,
    alloc: Global,
    giver: Giver,
    one: Taker,
    base: Serial,
    count: u32,
)
    requires { one.hand_over ≡ giver.hand_over }
{
    let takers = vec![in alloc; one].expect(rt, "memory");
    assert_settles(rt, giver, takers, base, count);
}

// Gives all pages to so many takers.
fn to_takers<R: Threads + Wait + Abort + Sync>(rt: &R, alloc: Global, takers: usize, cap: usize) {
    let (giver, takers) = opened(rt, alloc, BASE, takers, cap);
    let counts = nothing_seen(rt, alloc);
    let seen = counts.as_slice();
    let (giver, takers) = join(
        rt,
        move || -> Giver
            requires { (giver.closed ≡ false) × (giver.given ≡ []) × (giver.base ≡ BASE) }
            ensures { result.hand_over ≡ giver.hand_over }
        { give_all(rt, giver) },
        move || -> Takers
            requires { All (λ t. t.ended ≡ false) takers.items }
            ensures { (h : _) → All (λ t. t.hand_over ≡ h) takers.items → All (λ t. t.hand_over ≡ h) result.items }
        { take_by_all(rt, takers, seen) },
    );
    assert_all_seen(rt, seen);
    assert_settles_with_all(rt, giver, takers);
}

// Without its last taker a hand-over of all pages isn't settled, and everything comes back; with it, it is.
fn assert_settles_with_all<R: Abort>(rt: &R, giver: Giver, mut takers: Takers)
    requires { All (λ t. t.hand_over ≡ giver.hand_over) takers.items }
{
    let last = takers.pop().expect(rt, "a taker");
    let (giver, mut takers) = settle(giver, takers).expect_err(
        rt,
        "settled without the last taker",
    );
    takers.push(last).expect(rt, "memory");
    assert_settles(rt, giver, takers, BASE, PAGES);
}

#[test]
fn hands_600_pages_to_one_two_and_four_takers(rt: HostRuntime) {
    for cap in [1, 3, 64] {
        for takers in [1, 2, 4] {
            to_takers(&rt, rt.alloc(), takers, cap);
        }
    }
}

#[test]
fn settles_with_no_page(rt: HostRuntime) {
    let (mut giver, mut one) = opened_for_one(&rt, rt.alloc(), 0, 1);
    assert_closes(&rt, &mut giver);
    assert!(rt; page_or_end(&rt, &mut one).is_none());
    assert_settles_with_one(&rt, rt.alloc(), giver, one, 0, 0);
}

#[test]
fn opens_for_four_takers_at_most(rt: HostRuntime) {
    let refused = open(&rt, rt.alloc(), BASE, 5, 1);
    assert!(rt; matches!(refused, Err(HandError::Range)));
}

fn taken_page<R: Wait + Abort>(rt: &R, taker: &mut Taker) -> Isolated
    requires { taker.old.ended ≡ false }
    ensures { (taker.new.ended ≡ false) × (taker.new.hand_over ≡ taker.old.hand_over) }
{
    page_or_end(rt, taker).expect(rt, "the page is lost")
}

fn page_back<R: Wait + Abort>(rt: &R, giver: &mut Giver, page: Isolated) -> Isolated
    requires open { giver.old.closed ≡ false }
    requires next { page.serial ≡ giver.old.base + length giver.old.given }
    ensures { giver.new.closed ≡ false }
{
    giver.give(rt, page).expect_err(rt, "gave a page to nobody")
}

#[test]
fn hands_the_page_back_where_no_taker_is_left(rt: HostRuntime) {
    let (mut giver, takers) = opened(&rt, rt.alloc(), BASE, 2, 1);
    drop(takers);
    let page = page_back(&rt, &mut giver, page_of(&rt, BASE, 0));
    assert_is_numbered(&rt, page, 0);
    assert!(rt; giver.close(&rt).is_err());
}

fn assert_gone<R: Wait + Abort>(rt: &R, taker: &mut Taker)
    requires { taker.old.ended ≡ false }
    ensures { taker.new.ended ≡ false }
{
    assert!(rt; matches!(taker.take(rt), Took::Gone));
}

#[test]
fn answers_gone_after_the_pages_where_the_giver_is_gone(rt: HostRuntime) {
    let (mut giver, mut one) = opened_for_one(&rt, rt.alloc(), BASE, 2);
    assert_gives(&rt, &mut giver, page_of(&rt, BASE, 0));
    drop(giver);
    assert!(rt; taken_page(&rt, &mut one).serial() == BASE);
    assert_gone(&rt, &mut one);
    assert_gone(&rt, &mut one);
}

#[test]
fn answers_the_end_where_the_giver_closed_and_is_gone(rt: HostRuntime) {
    let (mut giver, mut one) = opened_for_one(&rt, rt.alloc(), BASE, 1);
    assert_closes(&rt, &mut giver);
    drop(giver);
    assert!(rt; page_or_end(&rt, &mut one).is_none());
}

// A hand-over with room for two batches of three pages.
fn opened_for_threes<R: Wait + Abort>(rt: &R, alloc: Global) -> (Giver, Taker)
    ensures giver { (result.0.closed ≡ false) × (result.0.given ≡ []) × (result.0.base ≡ BASE) × (result.0.most ≡ 3) }
    ensures taker { (result.1.hand_over ≡ result.0.hand_over) × (result.1.ended ≡ false) }
{
    let (giver, takers) = open_in_batches(rt, alloc, BASE, 1, 6, 3).expect(rt, "a hand-over");
    (giver, last_taker(rt, takers))
}

// Gives the pages 0 to 2 together.
fn assert_gives_three<R: Wait + Abort>(rt: &R, giver: &mut Giver)
    requires open { giver.old.closed ≡ false }
    requires fresh { (giver.old.given ≡ []) × (giver.old.base ≡ BASE) × (giver.old.most ≡ 3) }
    ensures { (giver.new.closed ≡ false) × (giver.new.hand_over ≡ giver.old.hand_over) }
{
    let mut pages = Batch::new();
    pages.push(page_of(rt, BASE, 0));
    pages.push(page_of(rt, BASE + 1, 1));
    pages.push(page_of(rt, BASE + 2, 2));
    assert!(rt; giver.give_all(rt, pages).is_ok());
}

// Takes the page with this number, and tells whether more came with it.
fn assert_takes<R: Wait + Abort>(rt: &R, taker: &mut Taker, number: u32, has_more: bool)
    requires going { taker.old.ended ≡ false }
    requires number { number < 3 }
    ensures { (taker.new.ended ≡ false) × (taker.new.hand_over ≡ taker.old.hand_over) }
{
    assert_is_numbered(rt, taken_page(rt, taker), number);
    assert!(rt; taker.has_more() == has_more);
}

#[test]
fn takes_the_pages_of_a_batch_one_by_one(rt: HostRuntime) {
    let (mut giver, mut one) = opened_for_threes(&rt, rt.alloc());
    assert_gives_three(&rt, &mut giver);
    assert_closes(&rt, &mut giver);
    assert_takes(&rt, &mut one, 0, true);
    assert_takes(&rt, &mut one, 1, true);
    assert_takes(&rt, &mut one, 2, false);
    assert!(rt; page_or_end(&rt, &mut one).is_none());
    assert_settles_with_one(&rt, rt.alloc(), giver, one, BASE, 3);
}

#[test]
fn is_not_settled_while_pages_wait(rt: HostRuntime) {
    let (mut giver, one) = opened_for_threes(&rt, rt.alloc());
    assert_gives_three(&rt, &mut giver);
    assert_closes(&rt, &mut giver);
    let takers = vec![in rt.alloc(); one].expect(&rt, "memory");
    assert!(rt; settle(giver, takers).is_err());
}
