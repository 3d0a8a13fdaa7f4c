use crate::batch::Batch;
use crate::copy_queue::{Account, Message, Sends, Turns};
use crate::error::Gone;
use crate::patience;
use crossbeam_channel::{Pass, RuledSender};
use frame_core::Copied;
use std::alloc::Global;
use std::marker::Model;
use std::sync::Wait;

/// A sending end of the queue of copies.
#[derive(Drop)]
pub struct DoneSender {
    // How many copies a batch has at most.
    pub(crate) most: usize,
    pub(crate) number: usize,
    pub(crate) closed: bool,
    pub(crate) to: RuledSender<Message, Account, Turns, Global>,
    pub(crate) pass: Pass<Message, Account>,
}

impl Model for DoneSender {
    ghost use Rattle.crossbeam_channel.specs.Claims.{view as knows};
    ghost use Rattle.crossbeam_channel.specs.Ends.{sends_on};
    ghost use Rattle.hand_core.specs.CopyEnds.{DoneSender as Seen};
    ghost use Rattle.hand_core.specs.Batches.{pages_of};
    ghost use Rattle.hand_core.specs.Queue.{name_of};

    ghost Value = { Seen };

    ghost use Rattle.hand_core.specs.CopyInvariants.{IsSending};

    ghost view = { λ s. record { queue = name_of (sends_on s.to); most = s.most; number = s.number; sent = pages_of (knows s.pass).sent; marked = (knows s.pass).marked; closed = s.closed } };

    ghost invariant = { IsSending };
}

impl DoneSender {
    ghost use Rattle.std.specs.Prelude.{◌≡◌, ◌<◌, ◌≤◌, ◌++◌, ◌∷◌, [], true, false, length, OnOk, OnErr, IfErr};

    /// Puts a copy at the back of the queue, and waits for room. The sender must not be closed. Where the taker is
    /// gone, the copy is handed back.
    pub fn send<R: Wait>(&mut self, rt: &R, copy: Copied) -> Result<(), Copied>
        requires { self.old.closed ≡ false }
        ensures ok { OnOk result (self.new ≡ record self.old { sent = self.old.sent ++ copy ∷ [] }) }
        ensures back { IfErr result (λ handed_back. handed_back ≡ copy) }
        ensures err { OnErr result (self.new ≡ self.old) }
    {
        let mut copies = Batch::new();
        copies.push(copy);
        let Err(mut refused) = self.send_all(rt, copies) else {
            return Ok(());
        };
        let Some(copy) = refused.pop() else {
            unreachable!()
        };
        Err(copy)
    }

    /// How many copies a batch has at most: 1 to 8.
    pub fn most(&self) -> usize
        ensures value { result ≡ self.now.most }
        ensures range { (0 < result) × (result ≤ 8) }
    {
        self.most
    }

    /// Puts copies at the back of the queue together, and waits for room. If they are several they may be no more than a batch has
    /// at most, and the sender must not be closed. Where the taker is gone, the copies are handed back.
    pub fn send_all<R: Wait>(&mut self, rt: &R, copies: Batch<Copied>) -> Result<(), Batch<Copied>>
        requires open { self.old.closed ≡ false }
        requires few { 1 < length copies.items → length copies.items ≤ self.old.most }
        ensures ok { OnOk result (self.new ≡ record self.old { sent = self.old.sent ++ copies.items }) }
        ensures back { IfErr result (λ handed_back. handed_back ≡ copies) }
        ensures err { OnErr result (self.new ≡ self.old) }
    {
        let DoneSender {
            number,
            to,
            pass,
            ..
        } = self;
        let message = Message::Copies(*number, copies);
        let Err(refused) = patience::send::<Sends, _, _, _, R>(rt, to, pass, message) else {
            return Ok(());
        };
        let Message::Copies(_, copies) = refused else {
            unreachable!()
        };
        Err(copies)
    }

    /// Puts the sender's end mark, once. Nothing more can be sent afterwards, even where the answer is an `Err`.
    pub fn close<R: Wait>(&mut self, rt: &R) -> Result<(), Gone>
        requires { self.old.closed ≡ false }
        ensures ok { OnOk result (self.new ≡ record self.old { closed = true; marked = true }) }
        ensures err { OnErr result (self.new ≡ record self.old { closed = true }) }
        ensures unmarked { OnErr result (self.new.marked ≡ false) }
    {
        self.closed = true;
        let DoneSender {
            number,
            to,
            pass,
            ..
        } = self;
        match patience::send::<Sends, _, _, _, R>(rt, to, pass, Message::Mark(*number)) {
            Ok(()) => Ok(()),
            Err(_) => Err(Gone),
        }
    }
}
