ghost use Rattle.std.specs.Prelude.{◌≡◌};
ghost use Rattle.zone_core.specs.Books.{AreFor};

use super::Runtime;
use super::collecting::collector;
use super::gates::{Plan, Until, Watch};
use super::opening::{Opened, Shared, open_zone};
use frame_core::Record;
use huge_core::{Stop, reserve_alone};
use round_core::{Gate, Point, ZoneIdentity, compact_alone};
use std::marker::Brand;
use std::process::Abort;
use zone_core::{Blanks, Opening, SeatsIn, ZoneIn};

const PAGES: u32 = 64;

/// How a round is run over a zone that nobody else has.
#[derive(Clone, Copy)]
enum Way {
    Compact,
    Reserve,
}

/// These records end moves in the order of their serials.
fn assert_in_order(rt: &impl Abort, records: &[Record]) {
    let mut serials = 0..u64::from(PAGES);
    for entry in records {
        if let Record::Moved { serial } = entry {
            assert!(rt; serials.next() == Some(*serial));
        }
    }
}

/// Runs a round with one copier, and room for three pages, over a zone that nobody else has.
fn run_alone<Z: Opening + Send + Sync, G: Gate, R: Runtime>(
    rt: &R,
    way: Way,
    zone: ZoneIn<Z>,
    seats: &mut SeatsIn<Z>,
    gate: &G,
) -> ZoneIn<Z> {
    match way {
        Way::Compact => {
            let (zone, round) = compact_alone(rt, rt.alloc(), zone, seats, 1, 3, gate);
            let Ok(round) = round else {
                panic!(rt; "the round is refused");
            };
            assert!(rt; round.moved == u64::from(PAGES));
            zone
        }
        Way::Reserve => {
            let collector = collector(rt, 1, 3, 1, 9);
            let (zone, report) = reserve_alone(rt, rt.alloc(), &collector, zone, seats, 1, gate);
            assert!(rt; report.rounds == 1 && report.stop == Stop::Rounds);
            zone
        }
    }
}

/// The gate is told of each step of each page. While it holds the committer, pages are in five places of the round, three in each. Their
/// moves end in the order in which they were isolated.
fn is_watched_in<Z: Opening + ZoneIdentity + Send + Sync, R: Runtime>(
    rt: &R,
    way: Way,
    blanks: Blanks,
)
    requires identity { (Z.number ≡ 1) × (Z.blocks ≡ 1) }
    requires blanks { AreFor blanks Z.isolated Z.rounds Z.moved Z.back }
{
    let mut opening = open_zone::<Z, R>(rt, 1, Some(999), blanks);
    opening.fill(rt, PAGES);
    let Opened {
        shared: Shared { zone },
        mut seats,
        ..
    } = opening;
    let until = Until::pages(15, Point::Isolated);
    let watch = Watch::by(Plan::HoldsFirst(Point::Ended, until));
    let zone = run_alone(rt, way, zone.into_zone(), &mut seats, &watch);
    watch.assert_let_go(rt);
    assert!(rt; watch.ahead() == 15 && zone.ended() == u64::from(PAGES));
    assert_in_order(rt, zone.journal().kept().expect(rt, "a kept journal"));
    for point in 0..4 {
        assert!(rt; watch.told.number(point) == u64::from(PAGES), "{point}");
    }
}

fn is_watched<R: Runtime>(rt: &R, way: Way) {
    is_watched_in::<Brand, R>(rt, way, Blanks::new());
}

#[test]
fn a_gate_watches_a_round_over_a_zone_of_its_own(rt: HostRuntime) {
    is_watched(&rt, Way::Compact);
}

#[test]
fn a_gate_watches_a_reservation_over_a_zone_of_its_own(rt: HostRuntime) {
    is_watched(&rt, Way::Reserve);
}
