//! Work on threads: a round, or the emptying of runs.

ghost use Rattle.std.specs.Prelude.{◌≡◌, ◌+◌, ◌<◌, ◌≤◌, All, IfOk, [], vec_len, vec_capacity};
ghost use Rattle.worker_threads.specs.Hands.{AreEmpty};
ghost use Rattle.worker_threads.specs.Working.{WasSettled};
ghost use Rattle.worker_threads.specs.declared.work.Work.TheVariants.{Compact, Empty};

use crate::compacting_zone::CompactingZone;
use crate::error::WorkError;
use crate::gate::Gate;
use crate::keeping::Keeping;
use crate::round::Round;
use crate::runs::Runs;
use crate::work::Work;
use crate::worker::{Hands, work};
use std::alloc::{AllocError, Global};
use std::marker::Model;
use std::sync::Wait;
use std::thread;
use std::thread::{JoinHandle, Scope, Threads};

/// The workers: the one that the caller's thread is, and the others, with room for the handles of their threads.
#[derive(Drop)]
struct Hired<K: Keeping, const W: usize> {
    own: Hands<K, W>,
    others: Vec<Hands<K, W>>,
    threads: Vec<JoinHandle<bool>>,
}

// No worker has a page, no thread was started, and there is room for the handles of all.
impl<K: Keeping, const W: usize> Model for Hired<K, W> {
    ghost use Rattle.std.specs.Prelude.{◌≡◌, ◌≤◌, ⊤, All, [], vec_len, vec_capacity};
    ghost use Rattle.worker_threads.specs.Hands.{AreEmpty};

    ghost Value = { ⊤ };

    ghost view = { λ h. tt };

    ghost invariant = { λ h. AreEmpty h.own × All AreEmpty h.others.items × (vec_len h.others ≤ vec_capacity h.threads) × (h.threads.items ≡ []) };
}

/// Moves what can be moved, with so many workers, 1 to 64, of which the thread of the caller is one. Where a thread can't be started, fewer
/// workers do it.
///
/// Refused as Memory where there isn't enough, else as Busy where other work is under way or a page is moving, and then no round was
/// begun; as Broken where a page is still moving when the workers have ended.
pub fn compact<K: Keeping + Send + Sync, const W: usize, G: Gate, R: Threads + Wait + Sync>(
    rt: &R,
    alloc: Global,
    shared: &CompactingZone<K, W>,
    workers: usize,
    gate: &G,
) -> Result<Round, WorkError>
    requires may { K.works Compact }
    requires workers { (0 < workers) × (workers ≤ 64) }
    ensures { IfOk result (WasSettled K.number K.blocks K.memory W) }
{
    run(rt, alloc, shared, Work::Compact, workers, gate)
}

/// Empties runs, the first one first, with so many workers, 1 to 64, as `compact` moves pages. Their free frames are claimed first, so that no
/// page comes there. Each page goes to the highest free frame of an unmarked pageblock, the lowest page of a run first, and the frame that it
/// leaves is claimed. Pages that are pinned, moving or unmovable stay. `BareZone::take_claimed` hands a run out whose frames are all claimed.
///
/// Refused as Memory, else as Range where no block of this order can begin at one of the frames, else as Busy or Broken, as `compact` is.
pub fn empty<K: Keeping + Send + Sync, const W: usize, G: Gate, R: Threads + Wait + Sync>(
    rt: &R,
    alloc: Global,
    shared: &CompactingZone<K, W>,
    runs: Runs,
    workers: usize,
    gate: &G,
) -> Result<Round, WorkError>
    requires may { K.works (Empty runs) }
    requires workers { (0 < workers) × (workers ≤ 64) }
    ensures { IfOk result (WasSettled K.number K.blocks K.memory W) }
{
    run(rt, alloc, shared, Work::Empty(runs), workers, gate)
}

/// Does work, with so many workers.
pub(crate) fn run<K: Keeping + Send + Sync, const W: usize, G: Gate, R: Threads + Wait + Sync>(
    rt: &R,
    alloc: Global,
    shared: &CompactingZone<K, W>,
    work: Work,
    workers: usize,
    gate: &G,
) -> Result<Round, WorkError>
    requires may { K.works work }
    requires workers { (0 < workers) × (workers ≤ 64) }
    ensures { IfOk result (WasSettled K.number K.blocks K.memory W) }
{
    let Ok(crew) = reserve(alloc, workers) else {
        return Err(WorkError::Memory);
    };
    begin(rt, shared, work)?;
    let whole = in_scope(rt, shared, crew, gate);
    settle(rt, shared, whole)
}

/// Takes the memory of so many workers.
fn reserve<K: Keeping, const W: usize>(
    alloc: Global,
    workers: usize,
) -> Result<Hired<K, W>, AllocError>
    requires { (0 < workers) × (workers ≤ 64) }
{
    let own = Hands::new(alloc, 0)?;
    let others = Hands::of_workers(alloc, 1, workers)?;
    let threads = Vec::with_capacity(alloc, workers - 1)?;
    Ok(Hired {
        own,
        others,
        threads,
    })
}

/// Begins work. Refused as Range where no block can begin at one of its runs, and as Busy where other work is under way, or a page is moving.
pub(crate) fn begin<K: Keeping, const W: usize, R: Wait>(
    rt: &R,
    shared: &CompactingZone<K, W>,
    work: Work,
) -> Result<(), WorkError>
    requires { K.works work }
{
    let mut room = shared.lock(rt);
    if !work.fits(room.zone()) {
        return Err(WorkError::Range);
    }
    if !room.can_begin() {
        return Err(WorkError::Busy);
    }
    room.begin(work);
    Ok(())
}

/// Ends work whose workers have ended, and answers what was done. Refused as Broken where a page is still moving, or a copy wasn't taken
/// back.
pub(crate) fn settle<K: Keeping, const W: usize, R: Wait>(
    rt: &R,
    shared: &CompactingZone<K, W>,
    whole: bool,
) -> Result<Round, WorkError>
    ensures { IfOk result (WasSettled K.number K.blocks K.memory W) }
{
    let mut room = shared.lock(rt);
    room.end();
    if !whole {
        return Err(WorkError::Broken);
    }
    room.settled().ok_or(WorkError::Broken)
}

/// Runs the workers. The answer is whether each copy was taken back.
fn in_scope<K: Keeping + Send + Sync, const W: usize, G: Gate, R: Threads + Wait + Sync>(
    rt: &R,
    shared: &CompactingZone<K, W>,
    crew: Hired<K, W>,
    gate: &G,
) -> bool {
    thread::scope(thread::scope_env(), rt, move |scope| -> bool {
        work_together(scope, rt, shared, crew, gate)
    })
}

/// Starts a thread for each of the others, works as one of them, and waits until all have ended.
fn work_together<
    's,
    'e,
    K: Keeping + Send + Sync,
    const W: usize,
    G: Gate,
    R: Threads + Wait + Sync,
>(
    scope: &'s Scope<'s, &'e ()>,
    rt: &'e R,
    shared: &'e CompactingZone<K, W>,
    crew: Hired<K, W>,
    gate: &'e G,
) -> bool {
    let Hired {
        mut own,
        others,
        threads,
    } = crew;
    let threads = start_workers(scope, rt, shared, others, threads, gate);
    let whole = work(rt, shared, &mut own, gate);
    join_workers(rt, threads) && whole
}

/// Starts a thread for each of these workers, until one can't be started.
fn start_workers<
    's,
    'e,
    K: Keeping + Send + Sync,
    const W: usize,
    G: Gate,
    R: Threads + Wait + Sync,
>(
    scope: &'s Scope<'s, &'e ()>,
    rt: &'e R,
    shared: &'e CompactingZone<K, W>,
    mut others: Vec<Hands<K, W>>,
    mut threads: Vec<JoinHandle<bool>>,
    gate: &'e G,
) -> Vec<JoinHandle<bool>>
    requires hands { All AreEmpty others.items }
    requires room { vec_len threads + vec_len others ≤ vec_capacity threads }
{
    while let Some(mut hands) = others.pop() {
        let started = scope.spawn(
            move || -> bool
                requires { AreEmpty hands }
            { work(rt, shared, &mut hands, gate) },
        );
        let Ok(thread) = started else {
            break;
        };
        threads.push_reserved(thread);
    }
    threads
}

/// Waits until each of these threads has ended. The answer is whether each copy was taken back.
fn join_workers<R: Threads>(rt: &R, threads: Vec<JoinHandle<bool>>) -> bool {
    let mut whole = true;
    for thread in threads {
        whole &= thread.join(rt);
    }
    whole
}
