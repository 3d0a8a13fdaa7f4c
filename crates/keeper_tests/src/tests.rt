ghost use Rattle.std.specs.Prelude.{◌≡◌, ◌<◌};

mod beside;
mod ending;
mod pages;

use frame_core::{Order, ZoneNo};
use keeper_core::Keeper;
use keeper_thread::{KeeperIdentity, SharedPool, Work, start};
use pages::map_pages;
use std::marker::Brand;
use std::process::Abort;
use std::sync::Wait;
use std::thread;
use std::thread::{Threads, yield_now};
use zone_core::BareZone;

/// What runs a test: it starts threads, waits, and ends a test that fails.
pub trait Runtime: Threads + Wait + Abort + AllocGlobal + Sync {}

impl<R: Threads + Wait + Abort + AllocGlobal + Sync> Runtime for R {}

/// A zone whose pages have eight words, shared with its keeper.
pub type Pool<K> = SharedPool<K, 8>;

/// What is done while the keeper's thread runs. Then it is told to end.
#[derive(Clone, Copy)]
enum Meanwhile {
    /// It is told to end at once.
    Stops,
    /// It is waited for until the thread works.
    Works,
    /// It is waited for until the keeper sleeps.
    Sleeps,
    /// The keeper sleeps, is woken, and sleeps again.
    SleepsAgain,
    /// A block is taken.
    Takes,
    /// Two clients use their pages, and blocks are taken and given back.
    UseAndTake,
}

/// A zone of so many pageblocks with so many pages, each in a run of eight frames of its own, and its keeper. Its journal has so many places,
/// or is unrecorded.
#[derive(Clone, Copy)]
struct Opening {
    blocks: u32,
    places: Option<u32>,
    pages: u32,
    order: u32,
    ready: usize,
    stack_size: usize,
}

/// What came of it.
#[derive(Drop)]
struct Outcome {
    zone: BareZone<8>,
    keeper: Keeper,
    work: Work,
    /// What the thread handed back. None where it couldn't be started.
    joined: Option<Work>,
    /// How many pages were moved for blocks that weren't ready.
    taken: u64,
}

/// After so many turns a test gives up. On a busy machine a thread may get its turn after milliseconds alone.
const TURNS: u32 = 20_000_000;

/// Waits until the keeper sleeps.
fn await_sleep<K: KeeperIdentity, R: Runtime>(rt: &R, pool: &Pool<K>) {
    for _turn in 0..TURNS {
        if !pool.lock(rt).is_awake() {
            return;
        }
        yield_now();
    }
    panic!(rt; "the keeper doesn't sleep");
}

/// Waits until the thread has made a step.
fn await_step<K: KeeperIdentity, R: Runtime>(rt: &R, pool: &Pool<K>) {
    for _turn in 0..TURNS {
        if pool.lock(rt).work().steps != 0 {
            return;
        }
        yield_now();
    }
    panic!(rt; "the thread makes no step");
}

/// Tells the keeper's thread to end. What it had done by then.
fn stop<K: KeeperIdentity, R: Runtime>(rt: &R, pool: &Pool<K>) -> Work {
    let mut room = pool.lock(rt);
    room.stop();
    room.work()
}

impl Meanwhile {
    /// Does it. How many pages were moved for blocks that weren't ready.
    fn happens<K: KeeperIdentity + Send + Sync, R: Runtime>(self, rt: &R, pool: &Pool<K>) -> u64 {
        match self {
            Meanwhile::Stops => pool.stop(rt),
            Meanwhile::Works => await_step(rt, pool),
            Meanwhile::Sleeps => await_sleep(rt, pool),
            Meanwhile::SleepsAgain => {
                await_sleep(rt, pool);
                pool.wake(rt);
                await_sleep(rt, pool);
            }
            Meanwhile::Takes => return u64::from(pool.take(rt).expect(rt, "a block").pages),
            Meanwhile::UseAndTake => {
                await_sleep(rt, pool);
                let taken = beside::use_and_take(rt, pool);
                await_sleep(rt, pool);
                return taken;
            }
        }
        0
    }
}

/// Does something while the keeper's thread runs, or without it where it can't be started. What it handed back, and how many pages were
/// moved for blocks that weren't ready.
fn run<K: KeeperIdentity + Send + Sync, R: Runtime>(
    rt: &R,
    pool: &Pool<K>,
    stack_size: usize,
    meanwhile: Meanwhile,
) -> (Option<Work>, u64) {
    thread::scope(
        thread::scope_env(),
        rt,
        move |scope| -> (Option<Work>, u64) {
            let thread = start(scope, rt, pool, stack_size);
            let taken = meanwhile.happens(rt, pool);
            let told = stop(rt, pool);
            let Some(thread) = thread else {
                return (None, taken);
            };
            let work = thread.join(rt);
            assert!(rt; work == told, "it makes no step after it was told to end");
            (Some(work), taken)
        },
    )
}

/// Shares the zone with its keeper, and does something while the keeper's thread runs.
fn tries_in<K: KeeperIdentity + Send + Sync, R: Runtime>(
    rt: &R,
    zone: BareZone<8>,
    keeper: Keeper,
    most: u32,
    stack_size: usize,
    meanwhile: Meanwhile,
) -> Outcome
    requires keeper { (keeper.order ≡ K.order) × (keeper.ready ≡ K.ready) }
    requires most { (most ≡ K.most) × (0 < most) }
{
    let pool: Pool<K> = SharedPool::new(zone, keeper, most);
    let (joined, taken) = run(rt, &pool, stack_size, meanwhile);
    let (zone, keeper, work) = pool.into_parts();
    Outcome {
        zone,
        keeper,
        work,
        joined,
        taken,
    }
}

fn opened<R: Runtime>(rt: &R, opening: Opening) -> BareZone<8> {
    let number = ZoneNo::new(1).expect(rt, "a zone");
    let opened = match opening.places {
        Some(places) => BareZone::open(rt.alloc(), number, opening.blocks, places),
        None => BareZone::open_unrecorded(rt.alloc(), number, opening.blocks),
    };
    opened.expect(rt, "a zone")
}

/// Opens a zone and its keeper, and does something while its thread runs.
fn tries<R: Runtime>(rt: &R, opening: Opening, most: u32, meanwhile: Meanwhile) -> Outcome
    requires { 0 < most }
{
    let mut zone = opened(rt, opening);
    map_pages(rt, &mut zone, opening.pages);
    let order = Order::new(opening.order).expect(rt, "an order");
    let keeper = Keeper::open(rt.alloc(), order, opening.ready).expect(rt, "a keeper");
    tries_in::<Brand, R>(rt, zone, keeper, most, opening.stack_size, meanwhile)
}

/// The counts of a thread add up, and the zone counted as many moves.
fn assert_adds_up(rt: &impl Abort, outcome: &Outcome, most: u64) {
    let work = outcome.work;
    let others = work
        .claimed
        .saturating_add(work.rests)
        .saturating_add(work.refused);
    assert!(rt; others <= work.steps, "a step is counted once");
    assert!(rt;
        work.pages <= most.saturating_mul(work.steps.saturating_sub(others)),
        "no step moves more"
    );
    assert!(rt;
        outcome.zone.ended() == work.pages.saturating_add(outcome.taken),
        "each move is counted"
    );
}
