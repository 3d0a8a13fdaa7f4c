use super::gates::linger;
use super::opening::{Opened, counts_of};
use super::tally::Tally;
use super::{Runtime, Trial, tries};
use frame_core::Record;
use round_core::{Gate, Keeping, Open, Point, SharedZone, ZoneIdentity};
use std::process::Abort;
use std::sync::Wait;
use zone_core::Opening;

const PAGES: u32 = 16;

/// What a page is at each point.
const STEPS: [&str; 4] = ["isolated", "taken", "copied", "ended"];

/// How many isolations and how many ends these records are of.
fn recorded(records: &[Record]) -> (u64, u64) {
    let mut isolated = 0u64;
    let mut ended = 0u64;
    for entry in records {
        match entry {
            Record::Isolate { .. } => isolated = isolated.saturating_add(1),
            Record::Moved { .. } | Record::Back { .. } => ended = ended.saturating_add(1),
            _ => {}
        }
    }
    (isolated, ended)
}

/// Takes the lock of a zone at each point, some turns after it was told. Each step that it was told of has been made, and no page has
/// made the next step before it let the page go.
#[derive(Drop)]
struct Looks<'a, Z: Opening + ZoneIdentity, R: Wait + Abort>
where
    Open<Z>: Keeping,
{
    rt: &'a R,
    shared: &'a SharedZone<Z, Z>,
    told: Tally,
    let_go: Tally,
}

impl<Z: Opening + ZoneIdentity, R: Wait + Abort> Looks<'_, Z, R> {
    /// What the journal says, once the lock was free.
    fn look(&self) -> (u64, u64) {
        let room = self.shared.lock(self.rt);
        let records = room.zone().journal().kept();
        recorded(records.expect(self.rt, "a kept journal"))
    }

    /// So many pages have come this far, of those that may have.
    fn assert_few(&self, step: &str, pages: u64, most: u64) {
        assert!(self.rt; pages <= most, "{step}: {pages}, of {most}");
    }

    /// Each step that it was told of has been made, and no page has ended before it was let go with its copy.
    fn assert_made(&self) {
        let isolated = self.told.of(Point::Isolated);
        let ended = self.told.of(Point::Ended);
        let (isolations, ends) = self.look();
        self.assert_few("told as isolated", isolated, isolations);
        self.assert_few("told as ended", ended, ends);
        self.assert_few("ended", ends, self.let_go.of(Point::Copied));
    }

    /// No page has made a step before it was let go at the point before it.
    fn assert_in_turn(&self) {
        for before in 0..3usize {
            let told = self.told.number(before + 1);
            self.assert_few(STEPS[before + 1], told, self.let_go.number(before));
        }
    }
}

impl<Z: Opening + ZoneIdentity + Send + Sync, R: Wait + Abort + Sync> Gate for Looks<'_, Z, R> {
    fn at(&self, point: Point, _who: usize) {
        self.told.add(point as usize, 1);
        linger(10);
        self.assert_made();
        self.assert_in_turn();
        self.let_go.add(point as usize, 1);
    }
}

impl<Z: Opening + ZoneIdentity + Send + Sync> Opened<Z> {
    /// Each page comes by each point.
    pub fn looks_at_each_point<R: Runtime>(&mut self, rt: &R, copiers: usize, room: usize) {
        self.fill(rt, PAGES);
        let (shared, seats) = (&self.shared, &mut self.seats);
        let gate = Looks {
            rt,
            shared: &shared.zone,
            told: Tally::zeros(),
            let_go: Tally::zeros(),
        };
        let round = shared.round(rt, seats, copiers, room, &gate);
        assert!(rt; counts_of(&round) == (u64::from(PAGES), u64::from(PAGES), 0));
        for point in 0..4 {
            assert!(rt; gate.let_go.number(point) == u64::from(PAGES), "{point}");
        }
    }
}

#[test]
fn the_gate_stands_between_two_steps_with_the_lock_free(rt: HostRuntime) {
    for copiers in [1, 2, 4] {
        for room in [1, 8] {
            tries(&rt, 1, Some(99), Trial::LooksAtEachPoint(copiers, room));
        }
    }
}
