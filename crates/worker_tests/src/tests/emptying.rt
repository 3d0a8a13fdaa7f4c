//! Runs that workers empty, and that are handed out then.

ghost use Rattle.std.specs.Prelude.{◌≡◌, ◌≤◌};

use super::crews::{Meanwhile, with_workers};
use super::pages::{
    PAGES, address, assert_ends, assert_kept, client, frame_of, stays, thin, thinned, thinned_often,
};
use super::{Runtime, Shared, Trial, adds_up, tries};
use std::collections::VecDeque;
use std::marker::Brand;
use std::process::Abort;
use std::sync::Wait;
use worker_threads::{
    Crew, MemoryIdentity, NoGate, Round, Runs, RunsIdentity, Stop, WorkError, empty, empty_alone,
};
use zone_core::{BareZone, CheapestRun, FrameNo, Order, ZoneError};

/// The runs are pageblocks.
const FRAMES: u32 = 512;

pub fn frame(rt: &impl Abort, number: u32) -> FrameNo {
    FrameNo::in_any_zone(number).expect(rt, "a frame")
}

/// Runs with these first frames, the next one first.
pub fn runs_at<R: Runtime>(rt: &R, firsts: &[FrameNo]) -> Runs {
    let mut left = VecDeque::new(rt.alloc());
    for first in firsts.iter() {
        left.push_back(*first).ok().expect(rt, "memory");
    }
    Runs::new(Order::of_pageblock(), left)
}

/// The first frames of the two cheapest runs, and how many pages they have.
fn cheapest<const W: usize>(rt: &impl Abort, zone: &BareZone<W>) -> ([FrameNo; 2], u32) {
    let mut firsts = [frame(rt, 0); 2];
    let pages = zone.cheapest_runs(Order::of_pageblock(), &mut firsts);
    (firsts, pages.expect(rt, "two open runs"))
}

/// What work does that moves so many pages, until none is left.
fn all_moved(pages: u32) -> Result<Round, WorkError> {
    let pages = u64::from(pages);
    Ok(Round {
        isolated: pages,
        moved: pages,
        back: 0,
        stopped: Some(Stop::NoneLeft),
    })
}

/// A zone that nobody else has after workers emptied runs of it, and what they did.
fn emptied_in<K: RunsIdentity + Send + Sync, R: Runtime>(
    rt: &R,
    zone: BareZone<8>,
    runs: Runs,
    workers: usize,
) -> (BareZone<8>, Result<Round, WorkError>)
    requires zone { zone ≡ K.start }
    requires runs { runs ≡ K.runs }
{
    let workers = workers.max(1).min(4);
    empty_alone::<K, 8, NoGate, R>(rt, rt.alloc(), zone, runs, workers, &NoGate)
}

fn emptied<R: Runtime>(
    rt: &R,
    zone: BareZone<8>,
    runs: Runs,
    workers: usize,
) -> (BareZone<8>, Result<Round, WorkError>) {
    emptied_in::<Brand, R>(rt, zone, runs, workers)
}

/// The same of a zone with large pages.
fn large_in<K: RunsIdentity + Send + Sync, R: Runtime>(
    rt: &R,
    zone: BareZone<512>,
    runs: Runs,
    workers: usize,
) -> (BareZone<512>, Result<Round, WorkError>)
    requires zone { zone ≡ K.start }
    requires runs { runs ≡ K.runs }
{
    let workers = workers.max(1).min(4);
    empty_alone::<K, 512, NoGate, R>(rt, rt.alloc(), zone, runs, workers, &NoGate)
}

fn large<R: Runtime>(
    rt: &R,
    zone: BareZone<512>,
    runs: Runs,
    workers: usize,
) -> (BareZone<512>, Result<Round, WorkError>) {
    large_in::<Brand, R>(rt, zone, runs, workers)
}

/// Workers empty a run, out of which so many pages move.
fn empty_one<R: Runtime>(rt: &R, zone: BareZone<8>, first: FrameNo, pages: u32) -> BareZone<8> {
    let runs = runs_at(rt, &[first]);
    let (zone, done) = emptied(rt, zone, runs, 2);
    assert!(rt; done == all_moved(pages));
    zone
}

/// Hands out runs, each frame of which is claimed.
fn hand_out<const W: usize>(rt: &impl Abort, zone: &mut BareZone<W>, firsts: &[FrameNo]) {
    let order = Order::of_pageblock();
    for first in firsts.iter() {
        assert!(rt; zone.claimed_frames(*first, order) == Some(FRAMES));
        assert!(rt; zone.take_claimed(*first, order) == Ok(()));
    }
}

/// A zone whose pages one thread moves out of these runs. It claims the free frames of both first.
fn emptied_by_one<const W: usize, R: Runtime>(rt: &R, firsts: &[FrameNo]) -> BareZone<W>
    requires { W ≤ 65536 }
{
    let mut zone = thinned_often(rt, None, 2);
    for most in [0, FRAMES] {
        for first in firsts.iter() {
            zone.empty_some(*first, Order::of_pageblock(), most)
                .expect(rt, "a step");
        }
    }
    zone
}

/// Each page is in the frame in which the other zone has it.
fn assert_same<const W: usize>(rt: &impl Abort, zone: &BareZone<W>, other: &BareZone<W>) {
    assert!(rt; zone.info() == other.info(), "the same counts");
    assert!(rt; zone.ended() == other.ended(), "as many moves");
    for page in 0..PAGES {
        assert!(rt;
            frame_of(rt, zone, page) == frame_of(rt, other, page),
            "the frame of page {page}"
        );
    }
}

/// Workers came to what one thread comes to, and both runs can be handed out.
fn assert_emptied<const W: usize, R: Runtime>(rt: &R, mut zone: BareZone<W>, firsts: &[FrameNo])
    requires { W ≤ 65536 }
{
    assert_same(rt, &zone, &emptied_by_one(rt, firsts));
    hand_out(rt, &mut zone, firsts);
    assert_kept(rt, &mut zone, 2);
    assert_ends(rt, zone);
}

/// So many workers empty two runs with as few moves as can be.
fn empty_two<R: Runtime>(rt: &R, workers: usize) {
    let zone = thinned_often::<8, R>(rt, None, 2);
    let (firsts, pages) = cheapest(rt, &zone);
    let (zone, done) = emptied(rt, zone, runs_at(rt, &firsts), workers);
    assert!(rt; done == all_moved(pages), "each page moves once");
    assert_emptied::<8, R>(rt, zone, &firsts);
    let zone = thinned_often::<512, R>(rt, None, 2);
    let (zone, done) = large(rt, zone, runs_at(rt, &firsts), workers);
    assert!(rt; done == all_moved(pages), "each large page moves once");
    assert_emptied::<512, R>(rt, zone, &firsts);
}

/// A round of a crew, which moves pages.
fn make_round<K: MemoryIdentity, R: Runtime>(rt: &R, shared: &Shared<K>, crew: &Crew) {
    let round = crew.compact(rt, shared).ok().expect(rt, "a round");
    assert!(rt; adds_up(round) && round.back == 0 && round.moved != 0);
}

/// Four workers empty runs between their rounds.
pub fn empty_with_crew<K: MemoryIdentity + Send + Sync, R: Runtime>(rt: &R, shared: &Shared<K>) {
    with_workers(rt, shared, &Crew::new(), Meanwhile::EmptiesRuns);
}

/// Between two rounds a crew empties two runs, of which one has no page.
pub fn empty_between_rounds<K: MemoryIdentity, R: Runtime>(
    rt: &R,
    shared: &Shared<K>,
    crew: &Crew,
) {
    make_round(rt, shared, crew);
    thin(rt, &mut shared.lock(rt), 2);
    let wrong = runs_at(rt, &[frame(rt, 8)]);
    assert!(rt; crew.empty(rt, shared, wrong) == Err(WorkError::Range));
    let (firsts, pages) = cheapest(rt, shared.lock(rt).zone());
    let done = crew.empty(rt, shared, runs_at(rt, &firsts));
    assert!(rt; pages != 0 && done == all_moved(pages));
    make_round(rt, shared, crew);
    assert!(rt; shared.lock(rt).rounds() == 3, "all work counts");
}

/// Nothing is done where no block can begin at the second run, within a pageblock or beyond the zone.
pub fn refuse_runs<K: MemoryIdentity + Send + Sync, R: Runtime>(rt: &R, shared: &Shared<K>) {
    for wrong in [8, 2048] {
        let firsts = [frame(rt, 0), frame(rt, wrong)];
        let done = empty(rt, rt.alloc(), shared, runs_at(rt, &firsts), 2, &NoGate);
        assert!(rt; done == Err(WorkError::Range), "no run begins at {wrong}");
    }
    assert!(rt; shared.lock(rt).rounds() == 0, "nothing was begun");
}

#[test]
fn workers_empty_the_cheapest_runs(rt: HostRuntime) {
    for workers in [1, 2, 4] {
        empty_two(&rt, workers);
    }
}

#[test]
fn a_crew_empties_runs_between_rounds(rt: HostRuntime) {
    let zone = thinned::<8, HostRuntime>(&rt, None);
    let mut zone = tries(&rt, zone, Trial::EmptiesRuns);
    // The rounds moved the pages upwards, out of the lower half.
    hand_out(&rt, &mut zone, &[frame(&rt, 0), frame(&rt, 512)]);
    assert_kept(&rt, &mut zone, 2);
    assert_ends(&rt, zone);
}

#[test]
fn runs_are_refused_at_which_no_block_begins(rt: HostRuntime) {
    let zone = thinned::<8, HostRuntime>(&rt, None);
    let before = zone.info();
    let zone = tries(&rt, zone, Trial::HasWrongRuns);
    let runs = runs_at(&rt, &[frame(&rt, 8)]);
    let (zone, done) = emptied(&rt, zone, runs, 2);
    assert!(&rt; done == Err(WorkError::Range));
    assert!(&rt; zone.info() == before && zone.ended() == 0);
    assert_ends(&rt, zone);
}

/// Each frame of the runs is claimed, but for those of the pages that are left.
#[test]
fn emptying_stops_where_the_journal_is_full(rt: HostRuntime) {
    let zone = thinned::<8, HostRuntime>(&rt, Some(2200));
    let (firsts, pages) = cheapest(&rt, &zone);
    let places = zone.journal().room();
    let (zone, done) = emptied(&rt, zone, runs_at(&rt, &firsts), 4);
    let done = done.ok().expect(&rt, "the work");
    assert!(&rt; done.stopped == Some(Stop::JournalFull) && adds_up(done));
    assert!(&rt;
        done.back == 0 && done.moved == places / 2,
        "each move takes two"
    );
    let claimed = u64::from(zone.info().held);
    assert!(&rt; done.moved.checked_add(1024) == Some(claimed + u64::from(pages)));
    assert!(&rt; zone.info().moving == 0, "no page moves afterwards");
    assert_ends(&rt, zone);
}

#[test]
fn a_pinned_page_stays_in_its_run(rt: HostRuntime) {
    let mut zone = thinned::<8, HostRuntime>(&rt, None);
    let run = zone.cheapest_run(Order::of_pageblock());
    let CheapestRun { first, pages } = run.expect(&rt, "an open run");
    // Each page is in the frame of its number.
    let page = (first.get()..PAGES).find(|page| stays(*page, 1));
    let page = page.expect(&rt, "the run has a page");
    zone.pin(client(&rt, 0), address(&rt, page))
        .expect(&rt, "a page");
    let mut zone = empty_one(&rt, zone, first, pages.wrapping_sub(1));
    assert!(&rt; frame_of(&rt, &zone, page) == page, "it stays");
    let taken = zone.take_claimed(first, Order::of_pageblock());
    assert!(&rt; taken == Err(ZoneError::NoBlock));
    zone.unpin(client(&rt, 0), address(&rt, page))
        .expect(&rt, "a pin");
    let mut zone = empty_one(&rt, zone, first, 1);
    hand_out(&rt, &mut zone, &[first]);
    assert_kept(&rt, &mut zone, 1);
    assert_ends(&rt, zone);
}
