//! How many pages were isolated, are out and were put back.

ghost use Rattle.std.specs.Prelude.{◌≡◌, ◌+◌, ◌-◌, ◌^◌, ◌<◌};

use frame_core::Serial;
use state_core::Audit;
use std::marker::Model;

/// How many pages were isolated, are out and were put back. The others were moved.
#[derive(Drop)]
pub struct Moves {
    isolated: u64,
    out: u64,
    back: u64,
}

impl Model for Moves {
    ghost use Rattle.std.specs.Prelude.{◌+◌, ◌-◌, ◌≤◌};
    ghost use Rattle.zone_tables.specs.Moves.{Moves as Seen};

    ghost Value = { Seen };

    ghost view = { λ z. record { isolated = z.isolated; moved = z.isolated - z.out - z.back; back = z.back } };

    ghost invariant = { λ z. z.out + z.back ≤ z.isolated };
}

impl Moves {
    /// The counts of a zone in which no page was isolated.
    pub fn none() -> Self
        ensures { result ≡ record { isolated = 0; moved = 0; back = 0 } }
    {
        Moves {
            isolated: 0,
            out: 0,
            back: 0,
        }
    }

    /// How many pages are moving.
    pub fn out(&self) -> u64
        ensures { result + self.now.moved + self.now.back ≡ self.now.isolated }
    {
        self.out
    }

    /// How many moves have ended.
    pub fn ended(&self) -> u64
        ensures { result ≡ self.now.moved + self.now.back }
    {
        self.isolated - self.out
    }

    /// Notes that a page is isolated, under the next serial, which is answered.
    pub fn isolate(&mut self) -> Serial
        requires { self.old.isolated < 2 ^ 64 - 1 }
        ensures serial { result ≡ self.old.isolated }
        ensures noted { self.new ≡ record self.old { isolated = self.old.isolated + 1 } }
    {
        let serial = self.isolated;
        self.isolated += 1;
        self.out += 1;
        serial
    }

    /// Notes that one of the pages that are out was moved.
    pub fn arrive(&mut self)
        requires { self.old.moved + self.old.back < self.old.isolated }
        ensures { self.new ≡ record self.old { moved = self.old.moved + 1 } }
    {
        self.out -= 1;
    }

    /// Notes that one of the pages that are out was put back.
    pub fn go_back(&mut self)
        requires { self.old.moved + self.old.back < self.old.isolated }
        ensures { self.new ≡ record self.old { back = self.old.back + 1 } }
    {
        self.out -= 1;
        self.back += 1;
    }

    /// The counts of pages isolated, moved and put back.
    pub fn counts(&self) -> Audit
        ensures isolated { result.isolated ≡ self.now.isolated }
        ensures moved { result.moved ≡ self.now.moved }
        ensures back { result.back ≡ self.now.back }
    {
        Audit {
            isolated: self.isolated,
            moved: self.isolated - self.out - self.back,
            back: self.back,
        }
    }
}
