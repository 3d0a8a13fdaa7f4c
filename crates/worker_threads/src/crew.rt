//! Workers whose threads are started once, and do their part of each round.

ghost use Rattle.std.specs.Prelude.{◌+◌, ◌<◌, ◌≤◌, All, IfOk, vec_len, vec_capacity};
ghost use Rattle.worker_threads.specs.Hands.{AreEmpty};
ghost use Rattle.worker_threads.specs.Working.{WasSettled};
ghost use Rattle.worker_threads.specs.declared.work.Work.TheVariants.{Compact, Empty};

use crate::compacting::{begin, settle};
use crate::compacting_zone::CompactingZone;
use crate::error::WorkError;
use crate::gate::Gate;
use crate::keeping::Keeping;
use crate::round::Round;
use crate::runs::Runs;
use crate::work::Work;
use crate::worker::{Hands, work};
use std::alloc::{AllocError, Global};
use std::sync::{Condvar, Mutex, Wait};
use std::thread::{JoinHandle, Scope, Threads};

/// What the workers of a crew share.
#[derive(Drop)]
struct Shift {
    /// How many rounds were given to them. After 2^64 - 1 it begins at 0 again.
    rounds: u64,
    /// How many of them stand, and how many are at work.
    standing: u32,
    at_work: u32,
    /// Whether the zone took each copy of the latest round.
    whole: bool,
    is_stopping: bool,
}

/// Workers whose threads wait for rounds. A crew has no thread until `start` starts some.
pub struct Crew {
    shift: Mutex<Shift>,
    begun: Condvar,
    ended: Condvar,
}

// Written out, so that the crates above have nothing to prove of its parts.
impl Drop for Crew {
    fn drop(self) {
        let Crew {
            shift: _shift,
            begun: _begun,
            ended: _ended,
        } = self;
    }
}

impl Crew {
    /// A crew without workers.
    pub fn new() -> Self {
        Crew {
            shift: Mutex::new(Shift {
                rounds: 0,
                standing: 0,
                at_work: 0,
                whole: true,
                is_stopping: false,
            }),
            begun: Condvar::new(),
            ended: Condvar::new(),
        }
    }

    /// How many workers the crew has.
    pub fn workers<R: Wait>(&self, rt: &R) -> u32 {
        self.shift.lock(rt).standing
    }

    /// Moves what can be moved, with the workers of the crew, and waits until each of them has done its part. Of several calls at once one
    /// waits for the others.
    ///
    /// Refused as NoWorker where the crew has none, else as Busy where other work is under way or a page is moving, and then no round was
    /// begun; as Broken where a page is still moving when the workers have done their parts.
    pub fn compact<K: Keeping, const W: usize, R: Wait>(
        &self,
        rt: &R,
        shared: &CompactingZone<K, W>,
    ) -> Result<Round, WorkError>
        requires may { K.works Compact }
        ensures { IfOk result (WasSettled K.number K.blocks K.memory W) }
    {
        self.give(rt, shared, Work::Compact)
    }

    /// Empties runs, as the function `empty` does, with the workers of the crew.
    ///
    /// Refused as NoWorker, else as Range where no block of this order can begin at one of the frames, else as Busy or Broken, as `compact`
    /// is.
    pub fn empty<K: Keeping, const W: usize, R: Wait>(
        &self,
        rt: &R,
        shared: &CompactingZone<K, W>,
        runs: Runs,
    ) -> Result<Round, WorkError>
        requires may { K.works (Empty runs) }
        ensures { IfOk result (WasSettled K.number K.blocks K.memory W) }
    {
        self.give(rt, shared, Work::Empty(runs))
    }

    /// Gives work to the workers, and waits until each of them has done its part.
    fn give<K: Keeping, const W: usize, R: Wait>(
        &self,
        rt: &R,
        shared: &CompactingZone<K, W>,
        work: Work,
    ) -> Result<Round, WorkError>
        requires may { K.works work }
        ensures { IfOk result (WasSettled K.number K.blocks K.memory W) }
    {
        let free = self.shift.lock(rt);
        let mut shift = self.ended.wait_while(rt, free, |shift| shift.at_work != 0);
        if shift.standing == 0 {
            return Err(WorkError::NoWorker);
        }
        begin(rt, shared, work)?;
        shift.call();
        self.begun.notify_all();
        let shift = self.ended.wait_while(rt, shift, |shift| shift.at_work != 0);
        settle(rt, shared, shift.whole)
    }

    /// Tells the threads of the crew to end, each after the round that it works at. Then they have to be joined.
    pub fn stop<R: Wait>(&self, rt: &R) {
        let mut shift = self.shift.lock(rt);
        shift.is_stopping = true;
        shift.standing = 0;
        self.begun.notify_all();
    }

    /// The body of a worker's thread, which joined the crew after so many rounds.
    fn run<K: Keeping, const W: usize, G: Gate, R: Wait>(
        &self,
        rt: &R,
        shared: &CompactingZone<K, W>,
        mut hands: Hands<K, W>,
        mut rounds: u64,
        gate: &G,
    )
        requires { AreEmpty hands }
    {
        for _ in rt.forever() {
            let free = self.shift.lock(rt);
            let shift = self
                .begun
                .wait_while(rt, free, |shift| shift.has_none(rounds));
            if shift.rounds == rounds {
                return;
            }
            rounds = shift.rounds;
            drop(shift);
            let whole = work(rt, shared, &mut hands, gate);
            if self.shift.lock(rt).end(whole) {
                self.ended.notify_all();
            }
        }
    }
}

impl Shift {
    /// Whether a worker that did so many rounds has to wait.
    fn has_none(&self, rounds: u64) -> bool {
        self.rounds == rounds && !self.is_stopping
    }

    /// Calls the workers to a round.
    fn call(&mut self) {
        self.rounds = self.rounds.wrapping_add(1);
        self.at_work = self.standing;
        self.whole = true;
    }

    /// A worker has done its part. The answer is whether it was the last one.
    fn end(&mut self, whole: bool) -> bool {
        self.whole &= whole;
        self.at_work = self.at_work.saturating_sub(1);
        self.at_work == 0
    }
}

/// Starts so many workers of a crew, 1 to 64, of a zone that has places for as many. Where a thread can't be started, the crew has fewer; it
/// has none where there isn't enough memory. The threads have to be joined, after the crew was told to stop.
pub fn start<'s, 'e, K: Keeping + Send + Sync, const W: usize, G: Gate, R: Threads + Wait + Sync>(
    scope: &'s Scope<'s, &'e ()>,
    rt: &'e R,
    alloc: Global,
    crew: &'e Crew,
    shared: &'e CompactingZone<K, W>,
    workers: usize,
    gate: &'e G,
) -> Result<Vec<JoinHandle<()>>, AllocError>
    requires { (0 < workers) × (workers ≤ 64) }
{
    let hands = Hands::of_workers(alloc, 0, workers)?;
    let threads = Vec::with_capacity(alloc, workers)?;
    Ok(start_all(scope, rt, crew, shared, hands, threads, gate))
}

/// Starts a thread for each of these workers, until one can't be started. None of them begins before all have joined the crew.
fn start_all<'s, 'e, K: Keeping + Send + Sync, const W: usize, G: Gate, R: Threads + Wait + Sync>(
    scope: &'s Scope<'s, &'e ()>,
    rt: &'e R,
    crew: &'e Crew,
    shared: &'e CompactingZone<K, W>,
    mut all: Vec<Hands<K, W>>,
    mut threads: Vec<JoinHandle<()>>,
    gate: &'e G,
) -> Vec<JoinHandle<()>>
    requires hands { All AreEmpty all.items }
    requires room { vec_len threads + vec_len all ≤ vec_capacity threads }
{
    let mut shift = crew.shift.lock(rt);
    let rounds = shift.rounds;
    while let Some(hands) = all.pop() {
        let started = scope.spawn(
            move ||
                requires { AreEmpty hands }
            {
                crew.run(rt, shared, hands, rounds, gate);
            },
        );
        let Ok(thread) = started else {
            break;
        };
        threads.push_reserved(thread);
        shift.standing = shift.standing.saturating_add(1);
    }
    threads
}
