//! Workers that stand.

use super::pages::{assert_ends, assert_kept, thin, thinned};
use super::{Runtime, Shared, Trial, adds_up, beside, emptying, refusals, tries};
use std::thread;
use worker_threads::{Crew, MemoryIdentity, NoGate, Stop, WorkError, start};

/// What is done while a crew stands.
#[derive(Clone, Copy)]
pub enum Meanwhile {
    /// Three rounds, with pages taken out before each.
    MakesRounds,
    /// Rounds beside two clients.
    IsUsed,
    /// It is called though a page is moving.
    IsBusy,
    /// Runs are emptied between rounds.
    EmptiesRuns,
    /// Runs are emptied beside two clients.
    IsUsedAndEmptied,
}

/// Starts four workers of a crew, does something, and ends them.
pub fn with_workers<K: MemoryIdentity + Send + Sync, R: Runtime>(
    rt: &R,
    shared: &Shared<K>,
    crew: &Crew,
    meanwhile: Meanwhile,
) {
    let gate = &NoGate;
    thread::scope(thread::scope_env(), rt, move |scope| {
        let threads = start(scope, rt, rt.alloc(), crew, shared, 4, gate);
        let threads = threads.ok().expect(rt, "memory");
        assert!(rt; crew.workers(rt) == 4, "each thread stands");
        match meanwhile {
            Meanwhile::MakesRounds => make_rounds(rt, shared, crew),
            Meanwhile::IsUsed => beside::use_and_compact(rt, shared, crew),
            Meanwhile::IsBusy => refusals::call_while_moving(rt, shared, crew),
            Meanwhile::EmptiesRuns => emptying::empty_between_rounds(rt, shared, crew),
            Meanwhile::IsUsedAndEmptied => beside::use_and_empty(rt, shared, crew),
        }
        crew.stop(rt);
        for thread in threads {
            thread.join(rt);
        }
    });
}

/// Three rounds of a crew, each after pages were taken out.
fn make_rounds<K: MemoryIdentity, R: Runtime>(rt: &R, shared: &Shared<K>, crew: &Crew) {
    for times in 2..5u32 {
        thin(rt, &mut shared.lock(rt), times);
        let round = crew.compact(rt, shared).ok().expect(rt, "a round");
        assert!(rt; adds_up(round) && round.back == 0, "each page is moved");
        assert!(rt; round.isolated != 0, "pages move in round {times}");
        assert!(rt; round.stopped == Some(Stop::Met), "none is left");
    }
}

/// A crew has no worker before any is started, and none after it was stopped.
pub fn call_and_stop<K: MemoryIdentity + Send + Sync, R: Runtime>(rt: &R, shared: &Shared<K>) {
    let crew = Crew::new();
    assert!(rt; crew.compact(rt, shared) == Err(WorkError::NoWorker));
    with_workers(rt, shared, &crew, Meanwhile::MakesRounds);
    assert!(rt; crew.compact(rt, shared) == Err(WorkError::NoWorker));
    assert!(rt; crew.workers(rt) == 0, "none stands");
}

#[test]
fn a_crew_makes_rounds_until_it_is_stopped(rt: HostRuntime) {
    let mut zone = tries(&rt, thinned::<8, HostRuntime>(&rt, None), Trial::HasCrew);
    assert_kept(&rt, &mut zone, 4);
    assert_ends(&rt, zone);
}
