use super::calls::{Answer, Call};
use super::opening::{Opened, counts_of};
use super::{Runtime, Trial, tries};
use frame_core::Isolated;
use round_core::{NoGate, RoundError, Stop, ZoneIdentity, compact};
use std::process::Abort;
use std::sync::Wait;
use zone_core::{Next, Opening, ZoneError};

fn page_of(rt: &impl Abort, next: Result<Next, ZoneError>) -> Isolated {
    let Ok(Next::Page(page)) = next else {
        panic!(rt; "no page is isolated");
    };
    page
}

/// A round with so many copiers that may isolate so many pages, how many it moves, and why it stops.
pub type Limited = (usize, u32, u64, Stop);

const FIVE_PAGES: &[Limited] = &[
    (2, 2, 2, Stop::Most),
    (1, 2, 2, Stop::Most),
    (2, 2, 1, Stop::Met),
];

// The last page that moves is the last that the round may isolate.
const FIVE_AT_ONCE: &[Limited] = &[(1, 5, 5, Stop::Most), (1, 5, 0, Stop::Met)];

const FEWER_THAN_IT_MAY: &[Limited] = &[(2, 6, 5, Stop::Met)];

// More than are isolated under one hold of the lock.
const MANY_PAGES: &[Limited] = &[(2, 20, 20, Stop::Most), (2, 20, 5, Stop::Met)];

impl<Z: Opening + ZoneIdentity + Send + Sync> Opened<Z> {
    /// Stores its number to a word of each page of the lower half.
    fn stores_each<R: Wait + Abort>(&mut self, rt: &R) {
        for number in 0..512 {
            let stored = u64::from(number);
            self.keeps(rt, &[(Call::Store(number, 7, stored), Answer::Done)]);
        }
    }

    /// Loads these words, which are the numbers.
    fn loads_each<R: Wait + Abort>(&mut self, rt: &R) {
        for number in 0..512 {
            let stored = u64::from(number);
            self.keeps(rt, &[(Call::Load(number, 7), Answer::Value(stored))]);
        }
    }

    /// The scanners of a round meet, and it moves so many pages.
    fn assert_meets<R: Runtime>(&mut self, rt: &R, copiers: usize, moved: u64) {
        let round = self.shared.round(rt, &mut self.seats, copiers, 3, &NoGate);
        assert!(rt; counts_of(&round) == (moved, moved, 0) && round.stopped == Stop::Met);
    }

    /// The pages of the lower half move up with their words, and a second round moves nothing.
    pub fn moves_the_lower_half<R: Runtime>(&mut self, rt: &R, copiers: usize) {
        self.fill(rt, 512);
        self.stores_each(rt);
        self.assert_meets(rt, copiers, 512);
        self.loads_each(rt);
        self.assert_meets(rt, copiers, 0);
        let (info, _records) = self.told(rt);
        assert!(rt; (info.pages, info.moving, info.whole) == (512, 0, 1));
    }

    /// Rounds with a limit move as many pages as they may, and together those that a round without a limit moves.
    pub fn moves_at_most<R: Runtime>(&mut self, rt: &R, pages: u32, rounds: &[Limited]) {
        self.fill(rt, pages);
        for (copiers, most, moved, stop) in rounds {
            let round = self
                .shared
                .round_at_most(rt, &mut self.seats, *copiers, *most);
            assert!(rt; counts_of(&round) == (*moved, *moved, 0) && round.stopped == *stop);
        }
        self.assert_meets(rt, 2, 0);
    }

    /// Begins a round by hand, and isolates its first page.
    fn isolated<R: Wait + Abort>(&mut self, rt: &R) -> Isolated {
        self.shared
            .zone
            .lock(rt)
            .zone
            .begin_round(&mut self.seats.scan);
        let next = self
            .shared
            .zone
            .lock(rt)
            .zone
            .isolate_next(&mut self.seats.scan);
        page_of(rt, next)
    }

    /// Puts a page back by hand.
    fn put_back<R: Wait + Abort>(&mut self, rt: &R, page: Isolated) {
        let mut room = self.shared.zone.lock(rt);
        let ended = room.zone.put_back(&mut self.seats.ends, page);
        assert!(rt; ended.is_ok());
    }

    /// A round isn't begun, and the zone is as before.
    fn assert_broken<R: Runtime>(&mut self, rt: &R) {
        let before = self.told(rt);
        let zone = &self.shared.zone;
        let refused = compact(rt, rt.alloc(), zone, &mut self.seats, 2, 8, &NoGate);
        assert!(rt; matches!(refused, Err(RoundError::Broken)));
        assert!(rt; self.told(rt) == before);
    }

    /// A round isn't begun while a page that was isolated by hand is out, or while a part of the end seat is missing.
    pub fn is_broken<R: Runtime>(&mut self, rt: &R) {
        self.fill(rt, 2);
        let page = self.isolated(rt);
        self.assert_broken(rt);
        self.put_back(rt, page);
        let part = self.seats.ends.split().expect(rt, "a part");
        self.assert_broken(rt);
        self.seats.ends.join(part);
        let round = self.shared.round(rt, &mut self.seats, 2, 8, &NoGate);
        assert!(rt; counts_of(&round) == (2, 2, 0));
    }
}

#[test]
fn one_to_four_copiers_move_the_lower_half(rt: HostRuntime) {
    for copiers in 1..5usize {
        tries(&rt, 2, Some(65536), Trial::MovesTheLowerHalf(copiers));
    }
}

#[test]
fn rounds_with_a_limit_move_as_many_pages_as_they_may(rt: HostRuntime) {
    for rounds in [FIVE_PAGES, FIVE_AT_ONCE, FEWER_THAN_IT_MAY] {
        tries(&rt, 2, Some(65536), Trial::MovesAtMost(5, rounds));
    }
    tries(&rt, 2, Some(65536), Trial::MovesAtMost(25, MANY_PAGES));
}

#[test]
fn a_round_is_broken_while_a_page_or_a_part_is_out(rt: HostRuntime) {
    tries(&rt, 1, Some(65536), Trial::IsBroken);
}
