ghost use Rattle.std.specs.Prelude.{◌≡◌, ◌+◌, ◌<◌, ◌≤◌, ◌++◌, ◌∷◌, [], true, false, length, OnOk, OnErr, IfErr};
ghost use Rattle.frame_core.specs.Serials.{HasSerialsFrom};

use crate::batch::Batch;
use crate::error::Gone;
use crate::page_queue::{Known, Note, Ordered, Puts};
use crate::patience;
use crossbeam_channel::{Pass, RuledSender};
use frame_core::{Isolated, Serial};
use std::alloc::Global;
use std::marker::Model;
use std::sync::Wait;

/// The giving end of a hand-over of pages.
#[derive(Drop)]
pub struct Giver {
    pub(crate) base: Serial,
    // The serial of the next page. Where it is 2^64 no more page can be given.
    pub(crate) next: u128,
    // How many pages a batch has at most.
    pub(crate) most: usize,
    pub(crate) takers: usize,
    pub(crate) marks: usize,
    pub(crate) closed: bool,
    pub(crate) to: RuledSender<Note, Known, Ordered, Global>,
    pub(crate) pass: Pass<Note, Known>,
}

impl Model for Giver {
    ghost use Rattle.crossbeam_channel.specs.Claims.{view as knows};
    ghost use Rattle.crossbeam_channel.specs.Ends.{sends_on, ruled_capacity};
    ghost use Rattle.hand_core.specs.PageEnds.{Giver as Seen};
    ghost use Rattle.hand_core.specs.Queue.{name_of};

    ghost Value = { Seen };

    ghost use Rattle.hand_core.specs.PageInvariants.{IsGiving};

    ghost view = { λ g. record { hand_over = name_of (sends_on g.to); room = ruled_capacity (sends_on g.to); most = g.most; takers = g.takers; base = g.base; given = (knows g.pass).given; marks = (knows g.pass).marks; closed = g.closed } };

    ghost invariant = { IsGiving };
}

impl Giver {
    /// Puts a page at the back of the queue, and waits for room. Its serial has to be the next one, and the giver not
    /// closed. Where every taker is gone, the page is handed back.
    pub fn give<R: Wait>(&mut self, rt: &R, page: Isolated) -> Result<(), Isolated>
        requires open { self.old.closed ≡ false }
        requires next { page.serial ≡ self.old.base + length self.old.given }
        ensures ok { OnOk result (self.new ≡ record self.old { given = self.old.given ++ page ∷ [] }) }
        ensures back { IfErr result (λ handed_back. handed_back ≡ page) }
        ensures err { OnErr result (self.new ≡ self.old) }
    {
        let mut pages = Batch::new();
        pages.push(page);
        let Err(mut refused) = self.give_all(rt, pages) else {
            return Ok(());
        };
        let Some(page) = refused.pop() else {
            unreachable!()
        };
        Err(page)
    }

    /// How many pages a batch has at most: 1 to 8.
    pub fn most(&self) -> usize
        ensures value { result ≡ self.now.most }
        ensures range { (0 < result) × (result ≤ 8) }
    {
        self.most
    }

    /// Puts pages at the back of the queue together, for one taker, and waits for room. Their serials have to be the next ones, if
    /// they are several they may be no more than a batch has at most, and the giver must not be closed. Where every taker is gone, the pages are handed back.
    pub fn give_all<R: Wait>(
        &mut self,
        rt: &R,
        pages: Batch<Isolated>,
    ) -> Result<(), Batch<Isolated>>
        requires open { self.old.closed ≡ false }
        requires next { HasSerialsFrom (self.old.base + length self.old.given) pages.items }
        requires few { 1 < length pages.items → length pages.items ≤ self.old.most }
        ensures ok { OnOk result (self.new ≡ record self.old { given = self.old.given ++ pages.items }) }
        ensures back { IfErr result (λ handed_back. handed_back ≡ pages) }
        ensures err { OnErr result (self.new ≡ self.old) }
    {
        let Giver { next, to, pass, .. } = self;
        let after = serial_after(&pages, *next);
        let Err(refused) = patience::send::<Puts, _, _, _, R>(rt, to, pass, Note::Pages(pages))
        else {
            *next = after;
            return Ok(());
        };
        let Note::Pages(pages) = refused else {
            unreachable!()
        };
        Err(pages)
    }

    /// Puts an end mark for each taker, once. Nothing more can be given afterwards, even where the answer is an `Err`.
    pub fn close<R: Wait>(&mut self, rt: &R) -> Result<(), Gone>
        requires { self.old.closed ≡ false }
        ensures ok { OnOk result (self.new.marks ≡ self.old.takers) }
        ensures err { OnErr result (self.new.marks < self.old.takers) }
        ensures closed { self.new ≡ record self.old { closed = true; marks = self.new.marks } }
    {
        self.closed = true;
        for _taker in 0..self.takers {
            self.mark(rt)?;
        }
        Ok(())
    }

    // Puts one end mark.
    fn mark<R: Wait>(&mut self, rt: &R) -> Result<(), Gone>
        requires closed { self.old.closed ≡ true }
        requires few { self.old.marks < self.old.takers }
        ensures ok { OnOk result (self.new ≡ record self.old { marks = self.old.marks + 1 }) }
        ensures err { OnErr result (self.new ≡ self.old) }
    {
        let Giver {
            marks,
            to,
            pass,
            ..
        } = self;
        let Ok(()) = patience::send::<Puts, _, _, _, R>(rt, to, pass, Note::Mark) else {
            return Err(Gone);
        };
        *marks += 1;
        Ok(())
    }
}

// The serial that comes after those of the pages, of which the first has the serial `next`.
fn serial_after(pages: &[Isolated], next: u128) -> u128
    requires { HasSerialsFrom next pages.now }
    ensures { result ≡ next + length pages.now }
{
    match pages.last() {
        Some(page) => u128::from(page.serial()) + 1,
        None => next,
    }
}
