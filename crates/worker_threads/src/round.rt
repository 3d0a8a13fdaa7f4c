//! What a round did, or the emptying of runs.

ghost use Rattle.std.specs.Prelude.{◌≡◌, ◌+◌, ◌<◌, ◌^◌};
ghost use Rattle.worker_threads.specs.Rooms.{counted, fresh_round, noted};

use zone_core::{Ended, LentMove, Next, ZoneError};

/// Why work stops.
#[derive(Clone, Copy, Debug, PartialEq, Eq)]
pub enum Stop {
    /// The scanners met: there is no page that can be moved upwards.
    Met,
    /// No page is left in the runs that can go, or there is no frame for one.
    NoneLeft,
    /// The journal is full.
    JournalFull,
}

/// What the latest work did so far: a round, or the emptying of runs.
#[derive(Clone, Copy, Debug, PartialEq, Eq)]
pub struct Round {
    /// How many pages were isolated.
    pub isolated: u64,
    /// How many of them were moved.
    pub moved: u64,
    /// How many of them were put back.
    pub back: u64,
    /// Why no more pages were isolated, once that is so.
    pub stopped: Option<Stop>,
}

impl Round {
    /// Nothing is done yet.
    pub(crate) fn new() -> Self
        ensures { result ≡ fresh_round }
    {
        Round {
            isolated: 0,
            moved: 0,
            back: 0,
            stopped: None,
        }
    }

    /// Counts an isolation, or notes why there is none: for this reason where there is no page to isolate.
    pub(crate) fn note(&mut self, next: &Result<Next<LentMove>, ZoneError>, none: Stop)
        requires { self.old.isolated + 1 < 2 ^ 64 }
        ensures { self.new ≡ noted self.old none next.now }
    {
        match next {
            Ok(Next::Page(_)) => self.isolated += 1,
            Ok(Next::Met) => self.stopped = Some(none),
            Err(_) => self.stopped = Some(Stop::JournalFull),
        }
    }

    /// Counts the end of a move.
    pub(crate) fn count(&mut self, ended: Ended)
        requires { self.old.moved + self.old.back + 1 < 2 ^ 64 }
        ensures { self.new ≡ counted self.old ended }
    {
        match ended {
            Ended::Moved => self.moved += 1,
            Ended::Back => self.back += 1,
        }
    }
}
