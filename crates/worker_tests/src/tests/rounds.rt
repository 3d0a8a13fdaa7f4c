//! A round comes to what a round on one thread comes to.

ghost use Rattle.std.specs.Prelude.{◌≡◌, ◌≤◌};
ghost use Rattle.zone_core.specs.ZoneIdentity.{HasIdentity};

use super::pages::{assert_ends, assert_kept, thinned, used_frames};
use super::{Runtime, Trial, adds_up, tries};
use std::marker::Brand;
use worker_threads::{
    CompactingZone, MemoryIdentity, NoGate, Open, OpenZone, StartIdentity, Stop, compact,
    compact_alone,
};
use zone_core::{Answered, BareZone};

/// So many workers make a round, and another one, which has nothing to do.
pub fn make_rounds<K: MemoryIdentity + Send + Sync, const W: usize, R: Runtime>(
    rt: &R,
    shared: &OpenZone<K, W>,
    workers: usize,
) {
    let workers = workers.max(1).min(4);
    for is_first in [true, false] {
        let round = compact(rt, rt.alloc(), shared, workers, &NoGate);
        let round = round.ok().expect(rt, "a round");
        assert!(rt; adds_up(round) && round.back == 0, "each page is moved");
        assert!(rt; (round.isolated != 0) == is_first, "no page moves twice");
        assert!(rt; round.stopped == Some(Stop::Met), "none is left");
        assert!(rt; shared.lock(rt).round() == round, "it is under the lock");
    }
}

/// A zone with large pages after these rounds.
fn large_in<K: MemoryIdentity + Send + Sync, R: Runtime>(
    rt: &R,
    zone: BareZone<512>,
    workers: usize,
) -> BareZone<512>
    requires identity { HasIdentity K.number K.blocks zone }
    requires memory { zone.memory ≡ K.memory }
{
    let shared = CompactingZone::<Open<K>, 512>::new(rt.alloc(), zone, 4);
    let shared = shared.ok().expect(rt, "a zone that can be shared");
    make_rounds(rt, &shared, workers);
    shared.into_parts().0
}

fn large<R: Runtime>(rt: &R, zone: BareZone<512>, workers: usize) -> BareZone<512> {
    large_in::<Brand, R>(rt, zone, workers)
}

/// A zone with large pages that nobody else has, after a round.
fn alone_in<K: StartIdentity + Send + Sync, R: Runtime>(
    rt: &R,
    zone: BareZone<512>,
    workers: usize,
) -> BareZone<512>
    requires { zone ≡ K.start }
{
    let workers = workers.max(1).min(4);
    let (zone, round) = compact_alone::<K, 512, NoGate, R>(rt, rt.alloc(), zone, workers, &NoGate);
    let round = round.ok().expect(rt, "a round");
    assert!(rt; adds_up(round) && round.back == 0, "each page is moved");
    zone
}

fn alone<R: Runtime>(rt: &R, zone: BareZone<512>, workers: usize) -> BareZone<512> {
    alone_in::<Brand, R>(rt, zone, workers)
}

/// A zone that workers have compacted is what an equal one is that one thread compacts.
fn assert_is_compacted<const W: usize, R: Runtime>(rt: &R, mut zone: BareZone<W>)
    requires { W ≤ 65536 }
{
    let mut alone = thinned::<W, R>(rt, None);
    assert!(rt; alone.compact() == Answered::Met);
    assert!(rt; zone.info() == alone.info(), "the same counts");
    assert!(rt; zone.ended() == alone.ended(), "as many moves");
    assert!(rt;
        used_frames(rt, &zone) == used_frames(rt, &alone),
        "the same frames"
    );
    assert_kept(rt, &mut zone, 1);
    assert_ends(rt, zone);
}

#[test]
fn workers_come_to_what_one_thread_does(rt: HostRuntime) {
    for workers in [1, 2, 4] {
        let small = thinned::<8, HostRuntime>(&rt, None);
        let small = tries(&rt, small, Trial::MakesRounds(workers));
        assert_is_compacted::<8, HostRuntime>(&rt, small);
        let large_pages = thinned::<512, HostRuntime>(&rt, None);
        let large_pages = large(&rt, large_pages, workers);
        assert_is_compacted::<512, HostRuntime>(&rt, large_pages);
        let pages_alone = thinned::<512, HostRuntime>(&rt, None);
        let pages_alone = alone(&rt, pages_alone, workers);
        assert_is_compacted::<512, HostRuntime>(&rt, pages_alone);
    }
}
