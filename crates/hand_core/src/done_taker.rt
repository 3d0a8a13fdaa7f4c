ghost use Rattle.std.specs.Prelude.{◌≡◌, ◌<◌, ◌++◌, ◌∷◌, List, [], true, false, IfSome, IfNone, OnOk, OnErr};
ghost use Rattle.std.specs.List.{list_all};
ghost use Rattle.hand_core.specs.CopyQueue.{sender_of};
ghost use Rattle.hand_core.specs.CopyEnds.{copies_in_one, copies_taken, has_ended, copy_answered, copy_tried, IsEndInTime, IsReceived, IsTriedInTime};
ghost use Rattle.hand_core.specs.CopyInvariants.{marks_of_four};

use crate::batch::BATCH_CAPACITY;
use crate::copy_queue::{Account, Message, Receives, Turns};
use crate::patience;
use arrayvec::IntoIter;
use crossbeam_channel::{Pass, RecvError, RuledReceiver, TryRecvError};
use frame_core::Copied;
use std::alloc::Global;
use std::marker::Model;
use std::sync::Wait;

/// The taking end of the queue of copies.
#[derive(Drop)]
pub struct DoneTaker {
    pub(crate) senders: usize,
    pub(crate) marked: [bool; 4],
    // The copies that were received and that no call has answered yet.
    pub(crate) hand: IntoIter<Copied, BATCH_CAPACITY>,
    pub(crate) from: RuledReceiver<Message, Account, Turns, Global>,
    pub(crate) pass: Pass<Message, Account>,
}

impl Model for DoneTaker {
    ghost use Rattle.crossbeam_channel.specs.Claims.{view as knows};
    ghost use Rattle.crossbeam_channel.specs.Ends.{receives_on, ruled_capacity};
    ghost use Rattle.hand_core.specs.CopyEnds.{DoneTaker as Seen};
    ghost use Rattle.hand_core.specs.Queue.{name_of};

    ghost Value = { Seen };

    ghost use Rattle.hand_core.specs.CopyInvariants.{IsReceiving};

    ghost view = { λ t. record { queue = name_of (receives_on t.from); room = ruled_capacity (receives_on t.from); senders = t.senders; came = (knows t.pass).came; in_hand = t.hand } };

    ghost invariant = { IsReceiving };
}

/// What the taker is answered: the next copy, the end, or that the senders are gone and nothing is left.
#[derive(Drop)]
pub enum Came {
    Copy(Copied),
    End,
    Gone,
}

impl DoneTaker {
    /// Takes the next copy, and waits for it. Once the mark of every sender was received, the answer is the end. Nothing
    /// more may be taken afterwards.
    pub fn take<R: Wait>(&mut self, rt: &R) -> Came
        requires { has_ended self.old ≡ false }
        ensures copies { copies_taken self.new ≡ copies_taken self.old ++ copy_answered result }
        ensures end { IsEndInTime self.new result }
        ensures same { self.new ≡ record self.old { came = self.new.came; in_hand = self.new.in_hand } }
    {
        for _ in rt.forever() {
            if let Some(copy) = self.next_in_hand() {
                return Came::Copy(copy);
            }
            if self.receive(rt).is_err() {
                return Came::Gone;
            }
            if self.has_all_marks() {
                return Came::End;
            }
        }
        unreachable!()
    }

    /// Takes the next copy if one is there, and doesn't wait: `None` where none is there. Else it answers as `take` does.
    /// Marks that stand before the copy are received with it, even where nothing comes after them. No copy is lost where
    /// none is answered, and after `None` the end has yet to come.
    pub fn try_take<R: Wait>(&mut self, rt: &R) -> Option<Came>
        requires { has_ended self.old ≡ false }
        ensures copies { copies_taken self.new ≡ copies_taken self.old ++ copy_tried result }
        ensures end { IsTriedInTime self.new result }
        ensures same { self.new ≡ record self.old { came = self.new.came; in_hand = self.new.in_hand } }
    {
        for _ in rt.forever() {
            if let Some(copy) = self.next_in_hand() {
                return Some(Came::Copy(copy));
            }
            match self.try_receive(rt) {
                Ok(()) => {}
                Err(TryRecvError::Empty) => return None,
                Err(TryRecvError::Disconnected) => return Some(Came::Gone),
            }
            if self.has_all_marks() {
                return Some(Came::End);
            }
        }
        unreachable!()
    }

    // Takes the first of the copies that are in hand.
    fn next_in_hand(&mut self) -> Option<Copied>
        ensures some { IfSome result (λ copy. copies_taken self.new ≡ copies_taken self.old ++ copy ∷ []) }
        ensures none { IfNone result ((self.new ≡ self.old) × (self.old.in_hand ≡ [])) }
        ensures same { self.new ≡ record self.old { in_hand = self.new.in_hand } }
    {
        self.hand.next()
    }

    // Receives the message at the front of the queue, with no copy in hand.
    fn receive<R: Wait>(&mut self, rt: &R) -> Result<(), RecvError>
        requires { self.old.in_hand ≡ [] }
        ensures ok { OnOk result (IsReceived self.old self.new) }
        ensures err { OnErr result (self.new ≡ self.old) }
    {
        let message = patience::receive::<Receives, _, _, _, R>(rt, &self.from, &mut self.pass)?;
        keep(&mut self.marked, &mut self.hand, message);
        Ok(())
    }

    // Receives the message at the front of the queue, with no copy in hand, and doesn't wait.
    fn try_receive<R: Wait>(&mut self, rt: &R) -> Result<(), TryRecvError>
        requires { self.old.in_hand ≡ [] }
        ensures ok { OnOk result (IsReceived self.old self.new) }
        ensures err { OnErr result (self.new ≡ self.old) }
    {
        let message = self.from.try_recv_as::<Receives, R>(rt, &mut self.pass)?;
        keep(&mut self.marked, &mut self.hand, message);
        Ok(())
    }

    fn has_all_marks(&self) -> bool
        ensures { result ≡ has_ended self.now }
    {
        are_all(&self.marked[..self.senders])
    }
}

// Keeps the copies of a message in hand, which has to be empty, or notes whose mark it is.
fn keep(marked: &mut [bool; 4], hand: &mut IntoIter<Copied, BATCH_CAPACITY>, message: Message)
    requires sender { sender_of message < 4 }
    requires empty { hand.old ≡ [] }
    ensures marked { (came : List Message) → marked.old ≡ marks_of_four came → marked.new ≡ marks_of_four (came ++ message ∷ []) }
    ensures hand { hand.new ≡ copies_in_one message }
{
    match message {
        Message::Copies(_, copies) => *hand = copies.into_iter(),
        Message::Mark(sender) => marked[sender] = true,
    }
}

fn are_all(marked: &[bool]) -> bool
    ensures { result ≡ list_all (λ m. m) marked.now }
{
    marked.iter().all(|marked| *marked)
}
