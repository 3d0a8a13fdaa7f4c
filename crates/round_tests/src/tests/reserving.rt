use super::collecting::collector;
use super::opening::Opened;
use super::{Runtime, Trial, tries};
use huge_core::{Huge, Report, Stop};
use round_core::{NoGate, RoundError, ZoneIdentity};
use std::process::Abort;
use zone_core::Opening;

/// A zone with a page in each of these frames, what is asked of a collector, and what it reports.
pub struct Case {
    name: &'static str,
    blocks: u32,
    places: u32,
    /// Whether the end seat has all its parts.
    is_whole: bool,
    pages: &'static [u32],
    order: u32,
    rounds: u32,
    n: usize,
    got: &'static [u32],
    ran: u32,
    stop: Stop,
}

/// A page in each of two pageblocks: a round makes the lower one whole.
const TWO_BLOCKS: Case = Case {
    name: "a round is enough",
    blocks: 2,
    places: 65536,
    is_whole: true,
    pages: &[0, 512],
    order: 9,
    rounds: 16,
    n: 1,
    got: &[0],
    ran: 1,
    stop: Stop::Enough,
};

const CASES: [Case; 9] = [
    TWO_BLOCKS,
    Case {
        name: "a pageblock is whole",
        pages: &[],
        ran: 0,
        ..TWO_BLOCKS
    },
    Case {
        name: "a round makes one pageblock whole, and the next moves nothing",
        n: 2,
        ran: 2,
        stop: Stop::NoBlock,
        ..TWO_BLOCKS
    },
    Case {
        name: "no round may be run",
        rounds: 0,
        got: &[],
        ran: 0,
        stop: Stop::Rounds,
        ..TWO_BLOCKS
    },
    Case {
        name: "one round may be run",
        rounds: 1,
        n: 2,
        stop: Stop::Rounds,
        ..TWO_BLOCKS
    },
    Case {
        name: "smaller blocks need no round",
        order: 8,
        n: 2,
        got: &[256, 768],
        ran: 0,
        ..TWO_BLOCKS
    },
    Case {
        name: "the journal has a place for one block",
        places: 1,
        pages: &[],
        n: 2,
        ran: 0,
        stop: Stop::JournalFull,
        ..TWO_BLOCKS
    },
    Case {
        name: "the journal has no place for a page of a round",
        places: 3,
        got: &[],
        stop: Stop::JournalFull,
        ..TWO_BLOCKS
    },
    Case {
        name: "a round is refused while a part of the end seat is missing, and isn't counted",
        blocks: 1,
        is_whole: false,
        pages: &[0],
        got: &[],
        ran: 0,
        stop: Stop::Refused(RoundError::Broken),
        ..TWO_BLOCKS
    },
];

impl Case {
    /// Whether these are the blocks of the case.
    fn has_got(&self, got: &[Option<Huge>]) -> bool {
        for (block, frame) in got.iter().zip(self.got) {
            match block {
                Some(huge) if huge.frame().get() == *frame => {}
                _ => return false,
            }
        }
        got.len() == self.got.len()
    }

    /// The report has the blocks of the case, and tells as many rounds and the same reason.
    fn assert_reported(&self, rt: &impl Abort, report: &Report) {
        assert!(rt; self.has_got(&report.got), "{}", self.name);
        assert!(rt;
            report.rounds == self.ran && report.stop == self.stop,
            "{}",
            self.name
        );
    }
}

impl<Z: Opening + ZoneIdentity + Send + Sync> Opened<Z> {
    /// A collector reports what the case says. Where the end seat isn't whole, a part of it is kept back meanwhile.
    pub fn reserves<R: Runtime>(&mut self, rt: &R, case: &Case) {
        for frame in case.pages.iter() {
            self.map(rt, *frame);
        }
        let part = if case.is_whole {
            None
        } else {
            self.seats.ends.split()
        };
        self.assert_reserves(rt, case);
        assert!(rt; part.is_none() == case.is_whole);
    }

    fn assert_reserves<R: Runtime>(&mut self, rt: &R, case: &Case) {
        let collector = collector(rt, 2, 8, case.rounds, case.order);
        let report = self.reserved(rt, &collector, case.n, &NoGate);
        case.assert_reported(rt, &report);
    }
}

#[test]
fn a_collector_reports_what_it_reserved(rt: HostRuntime) {
    for case in CASES.iter() {
        tries(&rt, case.blocks, Some(case.places), Trial::Reserves(case));
    }
}
