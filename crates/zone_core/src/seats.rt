ghost use Rattle.std.specs.Prelude.{◌≡◌, ◌+◌, ◌-◌, ◌<◌, ◌≤◌, ◌↔◌, nat_eq, Some, None, IsSome, IfSome, OnSome, IfNone};
ghost use Rattle.zone_core.specs.Seats.{fresh_scan_seat, fresh_end_seat, met_mark, scan_amount, seat_begun};

use crate::opening::{
    EndSeatIn, IsolatedPages, MovedPages, Opening, PagesBack, Rounds, ScanSeatIn,
};
use std::marker::Model;
use std::sync::ledger::{Blank, Book, Ledger, Share};

/// Four ledgers that aren't opened yet: a zone is opened with them. Their names are its name, which no other zone has. That of the
/// scanner, `isolated`, counts two for each page that was isolated, and one while the last answer is that the scanners met.
#[derive(Drop)]
pub struct Blanks {
    pub isolated: Blank,
    pub rounds: Blank,
    pub moved: Blank,
    pub back: Blank,
    // The share of the scanner has one part, and the shares of moved pages and of pages put back have 64.
    ghost isolated_parts: { isolated.parts ≡ 1 },
    ghost rounds_parts: { rounds.parts ≡ 1 },
    ghost moved_parts: { moved.parts ≡ 64 },
    ghost back_parts: { back.parts ≡ 64 },
}

impl Blanks {
    /// Blanks for one zone, with the number of parts that each of its ledgers is cut into. Takes no memory.
    pub fn new() -> Blanks {
        Blanks {
            isolated: Blank::new(1),
            rounds: Blank::new(1),
            moved: Blank::new(64),
            back: Blank::new(64),
        }
    }
}

/// What `isolate_next` answered.
#[derive(Clone, Copy, Debug, PartialEq, Eq)]
pub enum Answered {
    Page,
    Met,
    JournalFull,
}

/// The seat of a zone's scanner. It counts the pages that were isolated with it and the rounds that were begun with it,
/// and notes the last answer of `isolate_next` since the latest round began. Each opened zone has exactly one.
pub struct ScanSeat<I: Ledger, N: Ledger> {
    isolated: Share<I>,
    rounds: Book<N>,
    begun: Share<N>,
    last: Option<Answered>,
}

// Written out, so that the crates above have nothing to prove of its parts.
impl<I: Ledger, N: Ledger> Drop for ScanSeat<I, N> {
    fn drop(self) {
        let ScanSeat {
            isolated: _isolated,
            rounds: _rounds,
            begun: _begun,
            last: _,
        } = self;
    }
}

impl<I: Ledger, N: Ledger> Model for ScanSeat<I, N> {
    ghost use Rattle.std.specs.Prelude.{◌≡◌, ◌/◌};
    ghost use Rattle.zone_core.specs.Seats.{ScanSeat as Seen, scan_amount};

    ghost Value = { Seen };

    ghost view = { λ s. record { count = s.isolated.amount / 2; rounds = s.rounds.total; last = s.last } };

    ghost invariant = { λ s. (s.isolated.parts ≡ 1) × (s.begun.parts ≡ 1) × (s.isolated.amount ≡ scan_amount (s.isolated.amount / 2) s.last) };
}

/// A seat of those who end moves. It counts the pages that were moved and put back with it. A zone is opened with one that has
/// all 64 parts.
pub struct EndSeat<M: Ledger, B: Ledger> {
    parts: u64,
    moved: Share<M>,
    back: Share<B>,
}

// Written out, so that the crates above have nothing to prove of its parts.
impl<M: Ledger, B: Ledger> Drop for EndSeat<M, B> {
    fn drop(self) {
        let EndSeat {
            parts: _,
            moved: _moved,
            back: _back,
        } = self;
    }
}

impl<M: Ledger, B: Ledger> Model for EndSeat<M, B> {
    ghost use Rattle.std.specs.Prelude.{◌≡◌, ◌<◌, ◌≤◌};
    ghost use Rattle.zone_core.specs.Seats.{EndSeat as Seen};

    ghost Value = { Seen };

    ghost view = { λ s. record { parts = s.parts; moved = s.moved.amount; back = s.back.amount } };

    ghost invariant = { λ s.
        (0 < s.parts) × (s.parts ≤ 64) × (s.moved.parts ≡ s.parts) × (s.back.parts ≡ s.parts)
        × (M.parts ≡ 64) × (B.parts ≡ 64) };
}

/// The scan seat and the end seat of a zone.
#[derive(Drop)]
pub struct Seats<I: Ledger, N: Ledger, M: Ledger, B: Ledger> {
    pub scan: ScanSeat<I, N>,
    pub ends: EndSeat<M, B>,
}

impl<Z: Opening> ScanSeatIn<Z> {
    /// The scan seat of a zone that was just opened.
    pub(crate) fn opened(isolated: Share<IsolatedPages<Z>>, rounds: Blank) -> Self
        requires whole { isolated.parts ≡ 1 }
        requires unused { isolated.amount ≡ 0 }
        requires name { rounds.name ≡ Z.rounds }
        requires parts { rounds.parts ≡ 1 }
        ensures { result ≡ fresh_scan_seat }
    {
        let (rounds, begun) = rounds.open::<Rounds<Z>>();
        ScanSeat {
            isolated,
            rounds,
            begun,
            last: None,
        }
    }

    /// Tells that the book's total is what the seat has in it.
    pub(crate) fn tell(&mut self, book: &mut Book<IsolatedPages<Z>>)
        ensures total { book.old.total ≡ scan_amount self.old.count self.old.last }
        ensures seat { self.new ≡ self.old }
        ensures book { book.new.total ≡ book.old.total }
    {
        book.audit(&mut self.isolated);
    }

    /// Counts one page more, and notes that the last answer was a page.
    pub(crate) fn count(&mut self, book: &mut Book<IsolatedPages<Z>>)
        ensures seat { self.new ≡ record self.old { count = self.old.count + 1; last = Some Answered.Page } }
        ensures book { book.new.total ≡ scan_amount (self.old.count + 1) (Some Answered.Page) }
    {
        self.set_last(book, Some(Answered::Page));
        book.add(&mut self.isolated, 2);
    }

    /// Notes an answer that isn't a page.
    pub(crate) fn note(&mut self, book: &mut Book<IsolatedPages<Z>>, answer: Answered)
        ensures seat { self.new ≡ record self.old { last = Some answer } }
        ensures book { book.new.total ≡ scan_amount self.old.count (Some answer) }
    {
        self.set_last(book, Some(answer));
    }

    /// Counts one round more, in which there was no answer yet.
    pub(crate) fn begin(&mut self, book: &mut Book<IsolatedPages<Z>>)
        ensures seat { self.new ≡ seat_begun self.old }
        ensures book { book.new.total ≡ scan_amount self.old.count None }
    {
        self.rounds.add(&mut self.begun, 1);
        self.set_last(book, None);
    }

    // Sets the last answer, and its mark in the ledger.
    fn set_last(&mut self, book: &mut Book<IsolatedPages<Z>>, last: Option<Answered>)
        ensures seat { self.new ≡ record self.old { last = last } }
        ensures book { book.new.total ≡ scan_amount self.old.count last }
    {
        book.audit(&mut self.isolated);
        book.sub(&mut self.isolated, met_mark(self.last));
        book.add(&mut self.isolated, met_mark(last));
        self.last = last;
    }
}

// What a last answer counts in the ledger of the scanner.
fn met_mark(last: Option<Answered>) -> u64
    ensures { result ≡ met_mark last }
{
    u64::from(last == Some(Answered::Met))
}

impl<Z: Opening> EndSeatIn<Z> {
    /// Counts one more page that was moved.
    pub(crate) fn count_moved(&mut self, book: &mut Book<MovedPages<Z>>)
        ensures seat { self.new ≡ record self.old { moved = self.old.moved + 1 } }
        ensures book { book.new.total ≡ book.old.total + 1 }
    {
        book.add(&mut self.moved, 1);
    }

    /// Counts one more page that was put back.
    pub(crate) fn count_back(&mut self, book: &mut Book<PagesBack<Z>>)
        ensures seat { self.new ≡ record self.old { back = self.old.back + 1 } }
        ensures book { book.new.total ≡ book.old.total + 1 }
    {
        book.add(&mut self.back, 1);
    }

    /// Tells that the books' counts are the seat's where no part of the seat is missing.
    pub(crate) fn tell(&mut self, moved: &mut Book<MovedPages<Z>>, back: &mut Book<PagesBack<Z>>)
        ensures moved { self.old.parts ≡ 64 → self.old.moved ≡ moved.old.total }
        ensures back { self.old.parts ≡ 64 → self.old.back ≡ back.old.total }
        ensures seat { self.new ≡ self.old }
        ensures books { (moved.new.total ≡ moved.old.total) × (back.new.total ≡ back.old.total) }
    {
        moved.audit(&mut self.moved);
        back.audit(&mut self.back);
    }

    /// Whether no part of the seat is missing.
    pub(crate) fn is_whole(&self) -> bool
        ensures whole { result ≡ nat_eq self.now.parts 64 }
        ensures most { self.now.parts ≤ 64 }
    {
        self.parts == 64
    }

    /// Gives off one part, as a seat with which nothing was counted. None where this seat has only one part.
    pub fn split(&mut self) -> Option<EndSeatIn<Z>>
        ensures some { IsSome result ↔ (1 < self.old.parts) }
        ensures part { IfSome result (λ part. part ≡ record { parts = 1; moved = 0; back = 0 }) }
        ensures rest { OnSome result (self.new ≡ record self.old { parts = self.old.parts - 1 }) }
        ensures none { IfNone result (self.new ≡ self.old) }
    {
        if self.parts <= 1 {
            return None;
        }
        let moved = self.moved.split_off(1, 0);
        let back = self.back.split_off(1, 0);
        self.parts -= 1;
        Some(EndSeat {
            parts: 1,
            moved,
            back,
        })
    }

    /// Adds the parts of another seat of the same zone, and what was counted with it.
    pub fn join(&mut self, other: EndSeatIn<Z>)
        ensures sum { self.new ≡ record {
          parts = self.old.parts + other.parts;
          moved = self.old.moved + other.moved;
          back = self.old.back + other.back;
        } }
        ensures whole { self.new.parts ≤ 64 }
    {
        let EndSeat { parts, moved, back } = other;
        self.moved.merge(moved);
        self.back.merge(back);
        self.parts += parts;
    }

    /// The end seat of a zone that was just opened.
    pub(crate) fn opened(moved: Share<MovedPages<Z>>, back: Share<PagesBack<Z>>) -> Self
        requires whole { (moved.parts ≡ 64) × (back.parts ≡ 64) }
        requires unused { (moved.amount ≡ 0) × (back.amount ≡ 0) }
        ensures { result ≡ fresh_end_seat }
    {
        EndSeat {
            parts: 64,
            moved,
            back,
        }
    }
}
