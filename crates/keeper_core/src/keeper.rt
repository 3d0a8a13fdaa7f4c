//! A keeper, its steps, and the blocks that are taken from it.

ghost use Rattle.std.specs.Prelude.{◌≡◌, ◌+◌, ◌≤◌, ℕ, None, [], length, IfOk, OnErr, OnOk};
ghost use Rattle.std.specs.List.{position};
ghost use Rattle.std.specs.Result.{result_err};
ghost use Rattle.keeper_core.specs.Keeping.{claims_dropped, is_ready, keep_refusal, next_ready, next_unfinished, take_refusal, IsKept, IsTaken};
ghost use Rattle.state_core.specs.Valid.{IsValidZone};
ghost use Rattle.zone_core.specs.ZoneIdentity.{HasIdentity};

use frame_core::{FrameNo, Order};
use std::alloc::{AllocError, Global};
use std::marker::Model;
use zone_core::{BareZone, ZoneError};

/// Keeps blocks of one order ready. It has a list of the runs that it claimed in a zone. One that is dropped, and not closed, leaves its
/// claims to the zone.
#[derive(Drop)]
pub struct Keeper {
    order: Order,
    ready: usize,
    claims: Vec<FrameNo>,
}

impl Model for Keeper {
    ghost use Rattle.std.specs.Prelude.{◌≤◌, length, vec_capacity};
    ghost use Rattle.keeper_core.specs.Keeping.{Keeper as Seen};

    ghost Value = { Seen };

    ghost view = { λ k. record { order = k.order; ready = k.ready; claims = k.claims.items } };

    ghost invariant = { λ k. (length k.claims.items ≤ k.ready) × (k.ready ≤ vec_capacity k.claims) };
}

/// What a step did.
#[derive(Clone, Copy, Debug, PartialEq, Eq)]
pub enum Step {
    /// It went on with a run: so many pages were moved out of it, and its free frames are claimed.
    Emptied { first: FrameNo, pages: u32 },
    /// It claimed the cheapest open run, which has so many pages.
    Claimed { first: FrameNo, pages: u32 },
    /// Nothing: each claim is as empty as it can be now, and there are as many as the keeper wants, or no run is open.
    Rested,
}

/// A block that was handed out.
#[derive(Clone, Copy, Debug, PartialEq, Eq)]
pub struct Taken {
    /// Its first frame.
    pub first: FrameNo,
    /// How many pages were moved for it now: none where it was ready.
    pub pages: u32,
}

impl Keeper {
    /// A keeper of so many blocks of an order, which has claimed no run yet, or an error where there is no memory for its list. Only this
    /// call and `with_claims` take any.
    pub fn open(alloc: Global, order: Order, ready: usize) -> Result<Keeper, AllocError>
        ensures { IfOk result (λ k. k ≡ record { order = order; ready = ready; claims = [] }) }
    {
        Keeper::with_claims(alloc, order, ready, &[])
    }

    /// A keeper that goes on with runs that are claimed already: these are their first frames, the first claimed first, and no more than it
    /// keeps ready.
    pub fn with_claims(
        alloc: Global,
        order: Order,
        ready: usize,
        firsts: &[FrameNo],
    ) -> Result<Keeper, AllocError>
        requires { length firsts.now ≤ ready }
        ensures { IfOk result (λ k. k ≡ record { order = order; ready = ready; claims = firsts.now }) }
    {
        let mut claims = Vec::with_capacity(alloc, ready)?;
        claims.extend_from_slice(firsts)?;
        Ok(Keeper {
            order,
            ready,
            claims,
        })
    }

    /// The first frames of the runs that it claimed, the first claimed first.
    pub fn claims(&self) -> &[FrameNo]
        ensures claims { result.now ≡ self.now.claims }
        ensures few { length result.now ≤ self.now.ready }
    {
        &self.claims
    }

    /// How many more runs it may claim.
    pub fn lacks(&self) -> usize
        ensures { result + length self.now.claims ≡ self.now.ready }
    {
        self.ready - self.claims.len()
    }

    /// Makes one step. It goes on with the first claim that isn't finished, and moves at most `most` pages out of that run. Where all are
    /// finished and the keeper has fewer claims than it wants, it claims the cheapest open run. So a step moves at most `most` pages, or
    /// looks at the runs of the zone once. Call it until it rests, and again after a block was taken.
    ///
    /// Refused as JournalFull, as `BareZone::empty_some` is. A refusal changes nothing.
    pub fn step<const W: usize>(
        &mut self,
        zone: &mut BareZone<W>,
        most: u32,
    ) -> Result<Step, ZoneError>
        ensures refused { result_err result ≡ keep_refusal self.old zone.old most }
        ensures err { OnErr result ((self.new ≡ self.old) × (zone.new ≡ zone.old)) }
        ensures ok { IfOk result (λ step. IsKept self.old zone.old most step self.new zone.new) }
        ensures identity { HasIdentity zone.old.number zone.old.blocks zone.new }
    {
        if let Some(first) = self.next_unfinished(zone) {
            let pages = zone.empty_some(first, self.order, most)?;
            return Ok(Step::Emptied { first, pages });
        }
        Ok(self.claim_another(zone))
    }

    /// Hands out the first block that is ready. Where none is, the cheapest open run is emptied and handed out, as `BareZone::reserve`
    /// does it.
    ///
    /// Refused as JournalFull, or as `BareZone::reserve` is where no block is ready. A refusal changes nothing.
    pub fn take<const W: usize>(&mut self, zone: &mut BareZone<W>) -> Result<Taken, ZoneError>
        ensures refused { result_err result ≡ take_refusal self.old zone.old }
        ensures err { OnErr result ((self.new ≡ self.old) × (zone.new ≡ zone.old)) }
        ensures ok { IfOk result (λ taken. IsTaken self.old zone.old taken self.new zone.new) }
        ensures identity { HasIdentity zone.old.number zone.old.blocks zone.new }
        ensures valid { OnOk result (IsValidZone zone.new) }
    {
        let Some(place) = self.place_of_ready(zone) else {
            return self.take_cheapest(zone);
        };
        let first = self.claims[place];
        zone.take_claimed(first, self.order)?;
        self.claims.remove(place);
        Ok(Taken { first, pages: 0 })
    }

    /// Ends the keeping: drops the claims of all its runs, whose frames are free then.
    pub fn close<const W: usize>(self, zone: &mut BareZone<W>)
        ensures dropped { zone.new ≡ claims_dropped self.order self.claims zone.old (length self.claims) }
        ensures identity { HasIdentity zone.old.number zone.old.blocks zone.new }
    {
        for place in 0..self.claims.len() {
            // A claim whose zone has no such block has nothing to drop.
            let _ = zone.drop_claim(self.claims[place], self.order);
        }
    }

    /// Claims the cheapest open run, if the keeper wants another one and a run is open.
    fn claim_another<const W: usize>(&mut self, zone: &mut BareZone<W>) -> Step
        requires { next_unfinished self.old zone.old ≡ None }
        ensures kept { (most : ℕ) → IsKept self.old zone.old most result self.new zone.new }
        ensures identity { HasIdentity zone.old.number zone.old.blocks zone.new }
    {
        if self.claims.len() >= self.ready {
            return Step::Rested;
        }
        let Some(run) = zone.cheapest_run(self.order) else {
            return Step::Rested;
        };
        let Ok(pages) = zone.claim(run.first, self.order) else {
            unreachable!();
        };
        self.claims.push_reserved(run.first);
        Step::Claimed {
            first: run.first,
            pages,
        }
    }

    /// Empties the cheapest open run and hands it out.
    fn take_cheapest<const W: usize>(&mut self, zone: &mut BareZone<W>) -> Result<Taken, ZoneError>
        requires { next_ready self.old zone.old ≡ None }
        ensures refused { result_err result ≡ take_refusal self.old zone.old }
        ensures err { OnErr result ((self.new ≡ self.old) × (zone.new ≡ zone.old)) }
        ensures ok { IfOk result (λ taken. IsTaken self.old zone.old taken self.new zone.new) }
        ensures identity { HasIdentity zone.old.number zone.old.blocks zone.new }
        ensures valid { OnOk result (IsValidZone zone.new) }
    {
        let Some(lowest) = FrameNo::in_any_zone(0) else {
            unreachable!();
        };
        let mut firsts = [lowest];
        let pages = zone.reserve(self.order, &mut firsts)?;
        Ok(Taken {
            first: firsts[0],
            pages,
        })
    }

    /// The first of its claims that isn't finished, if there is one.
    fn next_unfinished<const W: usize>(&self, zone: &BareZone<W>) -> Option<FrameNo>
        ensures { result ≡ next_unfinished self.now zone.now }
    {
        for place in 0..self.claims.len() {
            let first = self.claims[place];
            if zone.is_unfinished(first, self.order) {
                return Some(first);
            }
        }
        None
    }

    /// The place of the first of its claims that is ready, if there is one.
    fn place_of_ready<const W: usize>(&self, zone: &BareZone<W>) -> Option<usize>
        ensures { result ≡ position (is_ready zone.now self.now.order) self.now.claims }
    {
        for place in 0..self.claims.len() {
            if self.is_ready(zone, self.claims[place]) {
                return Some(place);
            }
        }
        None
    }

    /// Whether all frames of a run are claimed.
    fn is_ready<const W: usize>(&self, zone: &BareZone<W>, first: FrameNo) -> bool
        ensures { result ≡ is_ready zone.now self.now.order first }
    {
        zone.claimed_frames(first, self.order) == Some(self.order.frames())
    }
}
