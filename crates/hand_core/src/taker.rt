ghost use Rattle.std.specs.Prelude.{◌≡◌, ◌≢◌, ◌++◌, ◌∷◌, ◌↔◌, [], true, false, IfSome, IfNone, OnErr};
ghost use Rattle.frame_core.specs.Serials.{IsRising};
ghost use Rattle.hand_core.specs.HandedOver.{is_mark, pages_in_one};
ghost use Rattle.hand_core.specs.PageEnds.{IsAnswered, off};

use crate::batch::BATCH_CAPACITY;
use crate::page_queue::{Gets, Known, Note, Ordered};
use crate::patience;
use arrayvec::IntoIter;
use crossbeam_channel::{Pass, RecvError, RuledReceiver};
use frame_core::Isolated;
use std::alloc::Global;
use std::marker::Model;
use std::sync::Wait;

/// A taking end of a hand-over of pages.
#[derive(Drop)]
pub struct Taker {
    pub(crate) ended: bool,
    // The pages that were received and that no call has answered yet.
    pub(crate) hand: IntoIter<Isolated, BATCH_CAPACITY>,
    pub(crate) from: RuledReceiver<Note, Known, Ordered, Global>,
    pub(crate) pass: Pass<Note, Known>,
}

impl Model for Taker {
    ghost use Rattle.crossbeam_channel.specs.Claims.{view as knows};
    ghost use Rattle.crossbeam_channel.specs.Ends.{receives_on};
    ghost use Rattle.hand_core.specs.PageEnds.{Taker as Seen};
    ghost use Rattle.hand_core.specs.Batches.{before_hand};
    ghost use Rattle.hand_core.specs.Queue.{name_of};

    ghost Value = { Seen };

    ghost use Rattle.hand_core.specs.PageInvariants.{IsTaking};

    ghost view = { λ t. record { hand_over = name_of (receives_on t.from); taken = before_hand (knows t.pass).off t.hand; in_hand = t.hand; ended = t.ended } };

    ghost invariant = { IsTaking };
}

/// What a taker is answered: the next page, the end mark, or that the giver is gone and nothing is left.
#[derive(Drop)]
pub enum Took {
    Page(Isolated),
    End,
    Gone,
}

impl Taker {
    /// Takes the next page, and waits for it. Nothing more is taken after an end mark.
    pub fn take<R: Wait>(&mut self, rt: &R) -> Took
        requires { self.old.ended ≡ false }
        ensures took { IsAnswered self.old result self.new }
        ensures rising { IsRising (off self.new) }
    {
        for _ in rt.forever() {
            if let Some(page) = self.next_in_hand() {
                return Took::Page(page);
            }
            if self.receive(rt).is_err() {
                return Took::Gone;
            }
            if self.ended {
                return Took::End;
            }
        }
        unreachable!()
    }

    /// Whether pages that were received with the last one are still in hand, so that the next page is taken without waiting.
    pub fn has_more(&self) -> bool
        ensures { result ≡ true ↔ self.now.in_hand ≢ [] }
    {
        !self.hand.as_slice().is_empty()
    }

    // Takes the first of the pages that are in hand.
    fn next_in_hand(&mut self) -> Option<Isolated>
        ensures some { IfSome result (λ page. self.new ≡ record self.old { taken = self.old.taken ++ page ∷ []; in_hand = self.new.in_hand }) }
        ensures off { off self.new ≡ off self.old }
        ensures none { IfNone result ((self.new ≡ self.old) × (self.old.in_hand ≡ [])) }
        ensures rising { IsRising (off self.new) }
    {
        self.hand.next()
    }

    // Receives the message at the front of the queue, with no page in hand.
    fn receive<R: Wait>(&mut self, rt: &R) -> Result<(), RecvError>
        requires going { self.old.ended ≡ false }
        requires empty { self.old.in_hand ≡ [] }
        ensures pages { self.new.ended ≡ false → self.new ≡ record self.old { in_hand = self.new.in_hand } }
        ensures mark { self.new.ended ≡ true → self.new ≡ record self.old { ended = true } }
        ensures err { OnErr result (self.new ≡ self.old) }
        ensures rising { IsRising (off self.new) }
    {
        let Taker {
            ended,
            hand,
            from,
            pass,
        } = self;
        let note = patience::receive::<Gets, _, _, _, R>(rt, from, pass)?;
        keep(ended, hand, note);
        Ok(())
    }
}

// Keeps the pages of a message in hand, which has to be empty, or notes that the end mark came.
fn keep(ended: &mut bool, hand: &mut IntoIter<Isolated, BATCH_CAPACITY>, note: Note)
    requires going { ended.old ≡ false }
    requires empty { hand.old ≡ [] }
    ensures ended { ended.new ≡ is_mark note }
    ensures hand { hand.new ≡ pages_in_one note }
{
    match note {
        Note::Pages(pages) => *hand = pages.into_iter(),
        Note::Mark => *ended = true,
    }
}
