//! A worker, which moves pages of a zone.

ghost use Rattle.std.specs.Prelude.{◌≡◌, ◌+◌, ◌<◌, ◌≤◌, [], true, All, length, vec_len, IfOk};
ghost use Rattle.worker_threads.specs.Hands.{AreEmpty};
ghost use Rattle.worker_threads.specs.Working.{GotPages, all_committed, all_copied};

use crate::SLICE;
use crate::compacting_zone::CompactingZone;
use crate::gate::Gate;
use crate::identity::MemoryIdentity;
use crate::keeping::Keeping;
use crate::page::{CopiedPage, PageInHand};
use crate::room::Room;
use std::alloc::{AllocError, Global};
use std::collections::VecDeque;
use std::marker::Model;
use std::sync::Wait;
use zone_core::Next;

/// The hands of a worker: the pages that it has, and their copies.
#[derive(Drop)]
pub(crate) struct Hands<K: MemoryIdentity, const W: usize> {
    worker: usize,
    pages: VecDeque<PageInHand<K, W>>,
    copies: VecDeque<CopiedPage<K, W>>,
}

impl<K: MemoryIdentity, const W: usize> Model for Hands<K, W> {
    ghost use Rattle.std.specs.Prelude.{◌<◌, ◌≤◌, length};
    ghost use Rattle.std.specs.Coded.{codes};
    ghost use Rattle.std.specs.VecDeque.{deque_capacity};
    ghost use Rattle.worker_threads.specs.Hands.{Hands as Seen};

    ghost Value = { Seen };

    ghost coded = { Prim.hlevel codes };

    ghost view = { λ h. record { worker = h.worker; pages = h.pages.items; copies = h.copies.items } };

    // It has places for 32 pages, and the pages that it has are so many at most.
    ghost invariant = { λ h. (h.worker < 64) × (length h.pages.items ≤ 32) × (32 ≤ deque_capacity h.pages) × (32 ≤ deque_capacity h.copies) };
}

impl<K: Keeping, const W: usize> Hands<K, W> {
    /// The empty hands of the worker with this number, from 0 on.
    pub(crate) fn new(alloc: Global, worker: usize) -> Result<Self, AllocError>
        requires { worker < 64 }
        ensures { IfOk result AreEmpty }
    {
        Ok(Hands {
            worker,
            pages: VecDeque::with_capacity(alloc, SLICE)?,
            copies: VecDeque::with_capacity(alloc, SLICE)?,
        })
    }

    /// The empty hands of each of so many workers, from this one on.
    pub(crate) fn of_workers(
        alloc: Global,
        first: usize,
        workers: usize,
    ) -> Result<Vec<Self>, AllocError>
        requires { (first ≤ workers) × (workers ≤ 64) }
        ensures empty { IfOk result (λ hands. All AreEmpty hands.items) }
        ensures count { IfOk result (λ hands. vec_len hands + first ≡ workers) }
    {
        let mut hands = Vec::with_capacity(alloc, workers - first)?;
        for worker in first..workers {
            hands.push_reserved(Hands::new(alloc, worker)?);
        }
        Ok(hands)
    }

    /// Copies each page.
    fn copy_all(&mut self)
        requires { self.old.copies ≡ [] }
        ensures pages { self.new.pages ≡ [] }
        ensures copies { self.new.copies ≡ all_copied self.old.pages }
        ensures worker { self.new.worker ≡ self.old.worker }
    {
        while let Some(page) = self.pages.pop_front() {
            self.copies.push_back_reserved(page.copy());
        }
    }

    /// Gives all copies back. The answer is whether each was taken.
    fn give_back(&mut self, room: &mut Room<K, W>) -> bool
        ensures copies { self.new.copies ≡ [] }
        ensures pages { self.new.pages ≡ self.old.pages }
        ensures committed { result ≡ true → room.new ≡ all_committed room.old self.old.copies }
    {
        let mut whole = true;
        while let Some(copied) = self.copies.pop_front() {
            whole &= room.commit(copied).is_ok();
        }
        whole
    }

    /// Takes the pages that are next, at most as many as the worker has places. Where there are fewer, the round stops.
    fn take_pages(&mut self, room: &mut Room<K, W>)
        requires { self.old.pages ≡ [] }
        ensures pages { GotPages room.old room.new (length self.new.pages) }
        ensures copies { self.new.copies ≡ self.old.copies }
    {
        let first = self.worker * SLICE;
        for place in first..first + SLICE {
            if !room.can_take(place) {
                return;
            }
            match room.take_page(place) {
                Ok(Next::Page(page)) => self.pages.push_back_reserved(page),
                // The room notes why there is none.
                Ok(Next::Met) | Err(_) => return,
            }
        }
    }
}

/// Moves pages until there is none to take. The answer is whether each copy was taken back.
pub(crate) fn work<K: Keeping, const W: usize, G: Gate, R: Wait>(
    rt: &R,
    shared: &CompactingZone<K, W>,
    hands: &mut Hands<K, W>,
    gate: &G,
) -> bool
    requires { AreEmpty hands.old }
    ensures { AreEmpty hands.new }
{
    let mut whole = true;
    for _ in rt.forever() {
        whole &= exchange(&mut shared.lock(rt), hands);
        if hands.pages.is_empty() {
            return whole;
        }
        gate.copies(hands.worker, hands.pages.len());
        hands.copy_all();
    }
    unreachable!()
}

/// Gives all copies back, and takes the pages that are next. The answer is whether each copy was taken.
fn exchange<K: Keeping, const W: usize>(room: &mut Room<K, W>, hands: &mut Hands<K, W>) -> bool
    requires { hands.old.pages ≡ [] }
    ensures { hands.new.copies ≡ [] }
{
    let whole = hands.give_back(room);
    hands.take_pages(room);
    whole
}
