//! A zone that was just opened, and the steps that tests make with it.

ghost use Rattle.std.specs.Prelude.{◌≤◌};
ghost use Rattle.zone_core.specs.Books.{AreFor};

mod moves;
mod words;

use super::answers::{Answer, Shown, assert_answer};
use super::calls::{Call, PAGE, told, value_of};
use super::client;
use frame_core::{IsolatedOf, Serial, ZoneNo};
use std::process::Abort;
use zone_core::{Blanks, EndSeatIn, Opening, Seats, SeatsIn, ZoneInOf, compact};

/// A block: its first frame and its order.
pub type Block = (u32, u32);

/// A step with a zone.
#[derive(Clone, Copy)]
pub enum Step<'a> {
    Call(Call),
    /// Writes words of the zone's own page, from one on.
    Write(u32, &'a [u64]),
    /// Reads words of this page, from one on, which have to be these.
    Read(u32, &'a [u64]),
    /// The same with the words of a block.
    WriteBlock(Block, usize, &'a [u64]),
    ReadBlock(Block, usize, &'a [u64]),
    /// The words of a block are lent: each is given the first value where it stands, and the last one the other. Answers how many
    /// there are.
    Lend(Block, u64, u64),
    /// Begins a round.
    Round,
    /// Runs a round on one thread.
    Compact,
    /// Begins a round and isolates its first page.
    Isolate,
    /// Gives a word of the isolated page another value, and answers the one before.
    SetWord(u32, u64),
    /// Copies the isolated page and brings the copy to the zone.
    Commit,
    PutBack,
    /// Brings the zone a page of this zone number and page number under this serial, and before it a copy of the page.
    Stranger(u32, u32, Serial),
    /// Splits a part off the end seat.
    Split,
    /// The first part and the end seat change places.
    Swap,
    /// The part that was split off last is joined again.
    Join,
    Audit,
    /// Whether the round is quiet.
    Quiet,
    /// How many records the journal has.
    Journal,
}

/// Rows that are played so many times: steps, each with its answer.
#[derive(Clone, Copy)]
pub struct Part<'a> {
    pub times: u32,
    pub rows: &'a [(Step<'a>, Answer)],
}

/// Zone 3, of one pageblock with pages of so many words, and a page in its frame 0. Besides its seats, the page that is isolated, the
/// parts that were split off the end seat, and how many pages were isolated.
#[derive(Drop)]
pub struct Opened<const W: usize, Z: Opening> {
    zone: ZoneInOf<W, Z>,
    seats: SeatsIn<Z>,
    page: Option<IsolatedOf<W>>,
    parts: Vec<EndSeatIn<Z>>,
    isolated: u64,
}

impl<const W: usize, Z: Opening> Opened<W, Z> {
    /// With so many places in its journal.
    pub fn of(rt: &(impl Abort + AllocGlobal), places: u32, blanks: Blanks) -> Self
        requires blanks { AreFor blanks Z.isolated Z.rounds Z.moved Z.back }
        requires size { W ≤ 65536 }
    {
        let number = ZoneNo::new(3).expect(rt, "a zone");
        let opened = ZoneInOf::<W, Z>::open(rt.alloc(), number, 1, places, blanks);
        let (zone, scan, ends) = opened.expect(rt, "a zone");
        Opened {
            zone,
            seats: Seats { scan, ends },
            page: None,
            parts: Vec::new(rt.alloc()),
            isolated: 0,
        }
    }

    /// Maps its page, and plays the parts.
    pub fn plays(&mut self, rt: &(impl Abort + AllocGlobal), name: &str, parts: &[Part])
        requires { W ≤ 65536 }
    {
        assert!(rt; self.call(rt, Call::Map(PAGE)) == Answer::Frame(0));
        for part in parts {
            for _ in 0..part.times {
                self.play(rt, name, part.rows);
            }
        }
    }

    fn play(&mut self, rt: &(impl Abort + AllocGlobal), name: &str, rows: &[(Step, Answer)])
        requires { W ≤ 65536 }
    {
        for (number, row) in rows.iter().enumerate() {
            let (step, want) = *row;
            assert_answer(rt, self.make(rt, step), want, name, number);
        }
    }

    fn make(&mut self, rt: &(impl Abort + AllocGlobal), step: Step) -> Answer
        requires { W ≤ 65536 }
    {
        match step {
            Step::Call(call) => self.call(rt, call),
            Step::Write(from, values) => self.write(rt, from, values),
            Step::Read(from, want) => self.read(rt, from, want),
            Step::WriteBlock(block, from, values) => self.write_block(rt, block, from, values),
            Step::ReadBlock(block, from, want) => self.read_block(rt, block, from, want),
            Step::Lend(block, value, last) => self.lend(rt, block, value, last),
            Step::Compact => compact(&mut self.zone, &mut self.seats).shown(),
            Step::Quiet => Answer::Is(self.zone.quiet()),
            Step::Journal => self.zone.journal().len().shown(),
            Step::Audit => self
                .zone
                .audit(&mut self.seats.scan, &mut self.seats.ends)
                .shown(),
            Step::Split | Step::Swap | Step::Join => self.change_parts(rt, step),
            _ => self.move_page(rt, step),
        }
    }

    fn call(&mut self, rt: &impl Abort, call: Call) -> Answer
        requires { W ≤ 65536 }
    {
        let answer = self.zone.make(client(rt), value_of(rt, call));
        told(call, answer)
    }
}
