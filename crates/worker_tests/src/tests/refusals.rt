//! Rounds that aren't begun, or stop early.

use super::crews::{Meanwhile, with_workers};
use super::emptying::{frame, runs_at};
use super::pages::{assert_ends, thinned};
use super::{Runtime, Shared, Trial, adds_up, tries};
use std::sync::Wait;
use worker_threads::{Crew, MemoryIdentity, NoGate, Stop, WorkError, compact, empty};
use zone_core::{BareZone, Next, ZoneNo};

/// Neither workers that are started for a round begin one, nor those that stand.
pub fn begin_while_moving<K: MemoryIdentity + Send + Sync, R: Runtime>(rt: &R, shared: &Shared<K>) {
    let round = compact(rt, rt.alloc(), shared, 2, &NoGate);
    assert!(rt; round == Err(WorkError::Busy));
    let runs = runs_at(rt, &[frame(rt, 0)]);
    let done = empty(rt, rt.alloc(), shared, runs, 2, &NoGate);
    assert!(rt; done == Err(WorkError::Busy));
    with_workers(rt, shared, &Crew::new(), Meanwhile::IsBusy);
}

pub fn call_while_moving<K: MemoryIdentity, R: Runtime>(rt: &R, shared: &Shared<K>, crew: &Crew) {
    assert!(rt; crew.compact(rt, shared) == Err(WorkError::Busy));
    let runs = runs_at(rt, &[frame(rt, 0)]);
    assert!(rt; crew.empty(rt, shared, runs) == Err(WorkError::Busy));
    assert!(rt; shared.lock(rt).rounds() == 0, "nothing was begun");
}

/// A round stops where the journal has no place for one more move, and each page that it isolated has moved.
pub fn fill_journal<K: MemoryIdentity + Send + Sync, R: Runtime>(rt: &R, shared: &Shared<K>) {
    let round = compact(rt, rt.alloc(), shared, 4, &NoGate);
    let round = round.ok().expect(rt, "a round");
    assert!(rt; round.stopped == Some(Stop::JournalFull));
    assert!(rt; adds_up(round) && round.back == 0 && round.moved != 0);
}

#[test]
fn no_round_begins_while_a_page_moves(rt: HostRuntime) {
    let mut zone = thinned::<8, HostRuntime>(&rt, None);
    zone.begin_round();
    let lent = zone.lend_move();
    assert!(&rt; matches!(&lent, Ok(Next::Page(_))), "a page moves");
    let before = zone.info();
    let zone = tries(&rt, zone, Trial::IsBusy);
    assert!(&rt;
        zone.info() == before && zone.ended() == 0,
        "nothing changes"
    );
}

#[test]
fn a_round_stops_where_the_journal_is_full(rt: HostRuntime) {
    let zone = tries(
        &rt,
        thinned::<8, HostRuntime>(&rt, Some(2200)),
        Trial::FillsJournal,
    );
    assert!(&rt; zone.info().moving == 0, "no page moves afterwards");
    assert_ends(&rt, zone);
}

#[test]
fn a_zone_in_its_own_memory_is_handed_back(rt: HostRuntime) {
    let number = ZoneNo::new(1).expect(&rt, "a zone");
    let zone = BareZone::<8>::open_unrecorded(rt.alloc(), number, 1);
    let zone = tries(&rt, zone.ok().expect(&rt, "a zone"), Trial::IsOwn);
    assert!(&rt; zone.owns_memory());
}
