ghost use Rattle.std.specs.Prelude.{◌≡◌, ◌+◌, ◌<◌, ◌≤◌, false, All, IfOk, IfErr, OnSome, vec_len, []};
ghost use Rattle.std.specs.VecDeque.{deque_capacity};
ghost use Rattle.hand_core.specs.CopyEnds.{has_ended};
ghost use Rattle.round_core.specs.Runs.{IsFresh, IsUnstarted, IsEmpty, CanRun, AreJoined, IsRunOver, IsRunOrNot};
ghost use Rattle.round_core.specs.Scanning.{HasMore};

use crate::committer::{Committed, Committer, HandsPartBack, commit_all};
use crate::copier::{Carried, Copier, start_copier};
use crate::gate::Gate;
use crate::keeping::Keeping;
use crate::memory::{CopierParts, CopierResults, Copies, Memory, Pages};
use crate::round::Stop;
use crate::scanner::scan_all;
use crate::shared_zone::KeptIn;
use crate::stack::stack;
use crate::under_lock::least;
use frame_core::Serial;
use hand_core::Giver;
use std::marker::PhantomData;
use std::sync::Wait;
use std::thread::{Scope, Threads};
use zone_core::{EndSeatIn, Opening, ScanSeatIn, Seats, SeatsIn};

/// How a round ran: why its scanner stopped, and what its threads handed back.
#[derive(Drop)]
pub(crate) struct RoundRun {
    pub(crate) giver: Giver,
    pub(crate) joined: CopierResults,
    pub(crate) stop: Option<Stop>,
    pub(crate) stranger: Option<Serial>,
}

/// The threads of a round, and the giver of its pages.
#[derive(Drop)]
struct Crew<K: Keeping, Z: Opening> {
    giver: Giver,
    copiers: Vec<Copier>,
    committer: Committer<K, Z>,
}

/// Starts the copiers, the last of them first. None where one can't be started.
fn start_copiers<'s, 'e, G: Gate, R: Threads + Wait + Sync>(
    scope: &'s Scope<'s, &'e ()>,
    rt: &'e R,
    copier_parts: &mut CopierParts,
    gate: &'e G,
) -> Option<()>
    requires { IsUnstarted copier_parts.old }
    ensures giver { copier_parts.new.giver ≡ copier_parts.old.giver }
    ensures copiers { OnSome result ((vec_len copier_parts.new.copiers ≡ vec_len copier_parts.old.takers) × All (λ c. c.promise.taker.value.hand_over ≡ copier_parts.old.giver.hand_over) copier_parts.new.copiers.items) }
{
    while let Some(taker) = copier_parts.takers.pop() {
        let Some(sender) = copier_parts.senders.pop() else {
            unreachable!()
        };
        let Some(list) = copier_parts.serials.pop() else {
            unreachable!()
        };
        let who = copier_parts.takers.len() + 1;
        let copier = start_copier(scope, rt, taker, sender, list, gate, who)?;
        copier_parts.copiers.push_reserved(copier);
    }
    Some(())
}

/// Joins the copiers, the first of them first.
fn join_copiers<R: Threads>(
    rt: &R,
    giver: &Giver,
    mut copiers: Vec<Copier>,
    mut joined: CopierResults,
) -> CopierResults
    requires copiers { All (λ c. c.promise.taker.value.hand_over ≡ giver.now.hand_over) copiers.items }
    requires joined { IsEmpty (vec_len copiers) joined }
    ensures joined { AreJoined giver.now result }
    ensures lists { vec_len result.lists ≡ vec_len copiers }
{
    while let Some(copier) = copiers.pop() {
        let Carried {
            taker,
            serials,
            whole,
            ..
        } = copier.join(rt);
        joined.takers.push_reserved(taker);
        joined.lists.push_reserved(serials);
        joined.whole &= whole;
    }
    joined
}

/// The copiers that were started. Everything else is dropped, so that they come to their ends.
fn let_go(copier_parts: CopierParts) -> Vec<Copier> {
    copier_parts.copiers
}

/// Joins the copiers that were started, and then the committer.
fn join_early<K: Keeping, Z: Opening, R: Threads>(
    rt: &R,
    copier_parts: CopierParts,
    committer: Committer<K, Z>,
) -> EndSeatIn<Z>
    ensures { result.parts ≡ 1 }
{
    let mut copiers = let_go(copier_parts);
    while let Some(copier) = copiers.pop() {
        drop(copier.join(rt));
    }
    let Committed { seat, .. } = committer.join(rt);
    seat
}

/// Runs a round with its scanner on this thread, and joins its crew.
fn run_crew<K: Keeping, Z: Opening, G: Gate, R: Threads + Wait>(
    rt: &R,
    shared: &KeptIn<K, Z>,
    scan: &mut ScanSeatIn<Z>,
    ends: &mut EndSeatIn<Z>,
    crew: Crew<K, Z>,
    mut pages: Pages,
    joined: CopierResults,
    gate: &G,
) -> RoundRun
    requires giver { IsFresh scan.old.count crew.giver }
    requires copiers { All (λ c. c.promise.taker.value.hand_over ≡ crew.giver.hand_over) crew.copiers.items }
    requires pages { (pages.list.items ≡ []) × (0 < deque_capacity pages.list) }
    requires left { HasMore pages.left }
    requires joined { IsEmpty (vec_len crew.copiers) joined }
    requires begins { K.begins_at scan.old.count }
    ensures ran { IsRunOver K.stops_at K.unpinned pages.left (vec_len crew.copiers) scan.old scan.new ends.old ends.new result }
    ensures ends { (ends.new.parts ≡ ends.old.parts + 1) × (ends.old.moved ≤ ends.new.moved) × (ends.old.back ≤ ends.new.back) }
{
    let Crew {
        mut giver,
        copiers,
        committer,
    } = crew;
    let scanned = scan_all(rt, shared, scan, ends, &mut giver, &mut pages, gate);
    let _ = giver.close(rt);
    let mut joined = join_copiers(rt, &giver, copiers, joined);
    let Committed {
        seat,
        stranger,
        whole,
    } = committer.join(rt);
    ends.join(seat);
    joined.whole &= whole;
    let (stop, stranger) = match scanned {
        Ok(stop) => (Some(stop), stranger),
        Err(left) => (None, least(left, stranger)),
    };
    RoundRun {
        giver,
        joined,
        stop,
        stranger,
    }
}

/// The scope that the threads of a round run in, and what each of them uses.
#[derive(Drop)]
pub(crate) struct Site<'s, 'e, K: Keeping, Z: Opening, G: Gate, R> {
    pub(crate) scope: &'s Scope<'s, &'e ()>,
    pub(crate) rt: &'e R,
    pub(crate) shared: &'e KeptIn<K, Z>,
    pub(crate) gate: &'e G,
}

impl<
    's,
    'e,
    K: Keeping + Send + Sync,
    Z: Opening + Send + Sync,
    G: Gate,
    R: Threads + Wait + Sync,
> Site<'s, 'e, K, Z, G, R> {
    /// Runs the threads of a round. None where one of them can't be started.
    pub(crate) fn run(&self, seats: &mut SeatsIn<Z>, memory: Memory) -> Option<RoundRun>
        requires { CanRun K.begins_at seats.old.scan seats.old.ends memory }
        ensures { IsRunOrNot K.stops_at K.unpinned memory.pages.left (vec_len memory.copier_parts.takers) seats.old.scan seats.new.scan seats.old.ends seats.new.ends result }
    {
        let Memory {
            copier_parts,
            copies,
            pages,
            joined,
        } = memory;
        let Seats { scan, ends } = seats;
        let Some(part) = ends.split() else {
            unreachable!()
        };
        match self.start_crew(copier_parts, copies, part) {
            Ok(crew) => Some(run_crew(
                self.rt,
                self.shared,
                scan,
                ends,
                crew,
                pages,
                joined,
                self.gate,
            )),
            Err(part) => {
                ends.join(part);
                None
            }
        }
    }

    /// Starts the committer and the copiers. Where one of them can't be started, those that run come to their ends, and the part of the
    /// end seat is handed back.
    fn start_crew(
        &self,
        copier_parts: CopierParts,
        copies: Copies,
        part: EndSeatIn<Z>,
    ) -> Result<Crew<K, Z>, EndSeatIn<Z>>
        requires copier_parts { IsUnstarted copier_parts }
        requires committer { (has_ended copies.taker ≡ false) × (part.parts ≡ 1) × (part.back ≡ 0) }
        ensures giver { IfOk result (λ crew. crew.giver ≡ copier_parts.giver) }
        ensures copiers { IfOk result (λ crew. (vec_len crew.copiers ≡ vec_len copier_parts.takers) × All (λ c. c.promise.taker.value.hand_over ≡ copier_parts.giver.hand_over) crew.copiers.items) }
        ensures part { IfErr result (λ part. part.parts ≡ 1) }
    {
        let (mut copier_parts, committer) = self.start_committer(copier_parts, copies, part)?;
        if start_copiers(self.scope, self.rt, &mut copier_parts, self.gate).is_none() {
            return Err(join_early(self.rt, copier_parts, committer));
        }
        let CopierParts { giver, copiers, .. } = copier_parts;
        Ok(Crew {
            giver,
            copiers,
            committer,
        })
    }

    /// Starts the committer. Where no thread can be started, the committer's body runs on this thread. The copiers' parts are dropped
    /// then, and the senders with them, so that the body ends at once.
    fn start_committer(
        &self,
        copier_parts: CopierParts,
        copies: Copies,
        seat: EndSeatIn<Z>,
    ) -> Result<(CopierParts, Committer<K, Z>), EndSeatIn<Z>>
        requires { (has_ended copies.taker ≡ false) × (seat.parts ≡ 1) × (seat.back ≡ 0) }
        ensures copier_parts { IfOk result (λ started. started.0 ≡ copier_parts) }
        ensures part { IfErr result (λ seat. seat.parts ≡ 1) }
    {
        let (rt, shared, gate) = (self.rt, self.shared, self.gate);
        let started = stack().spawn_scoped_with(
            self.scope,
            HandsPartBack::<K> { of: PhantomData },
            move || -> Committed<Z>
                requires { (has_ended copies.taker ≡ false) × (seat.parts ≡ 1) × (seat.back ≡ 0) }
                ensures { (result.seat.parts ≡ 1) × (K.unpinned → result.seat.back ≡ 0) }
            { commit_all(rt, shared, copies, seat, gate) },
        );
        match started {
            Ok(committer) => Ok((copier_parts, committer)),
            Err(refused) => {
                drop(copier_parts);
                let Committed { seat, .. } = (refused.value)();
                Err(seat)
            }
        }
    }
}
