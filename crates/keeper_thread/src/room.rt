//! What is under the lock of a shared pool.

ghost use Rattle.std.specs.Prelude.{◌≡◌, true, IfOk, OnErr, OnOk};
ghost use Rattle.std.specs.Borrow.{sem};
ghost use Rattle.std.specs.Result.{result_err};
ghost use Rattle.keeper_core.specs.Keeping.{keep_refusal, take_refusal, IsKept, IsTaken};
ghost use Rattle.keeper_thread.specs.Lending.{LendsZone};
ghost use Rattle.keeper_thread.specs.Working.{goes_on, woken, worked, IsWithin};
ghost use Rattle.state_core.specs.Valid.{IsValidZone};

use crate::guard::Calling;
use crate::identity::KeeperIdentity;
use crate::work::Work;
use keeper_core::{Keeper, Step, Taken};
use std::marker::{Model, PhantomData};
use zone_core::{BareZone, ZoneError};

/// A zone with its keeper, as whoever has the lock sees it. A keeper is awake where there may be something for it to do.
#[derive(Drop)]
pub struct Room<K: KeeperIdentity, const W: usize> {
    zone: BareZone<W>,
    keeper: Keeper,
    most: u32,
    work: Work,
    is_awake: bool,
    is_stopping: bool,
    of: PhantomData<K>,
}

impl<K: KeeperIdentity, const W: usize> Model for Room<K, W> {
    ghost use Rattle.std.specs.Prelude.{◌≡◌};
    ghost use Rattle.std.specs.Coded.{codes};
    ghost use Rattle.keeper_thread.specs.Working.{IsWithin, Room as Seen};
    ghost use Rattle.state_core.specs.ZoneCode.{coded_zone};

    ghost Value = { Seen };

    ghost coded = { Prim.hlevel (codes, coded_zone) };

    ghost view = { λ r. record { zone = r.zone; keeper = r.keeper; work = r.work; is_awake = r.is_awake; is_stopping = r.is_stopping } };

    ghost invariant = { λ r. (r.keeper.order ≡ K.order) × (r.keeper.ready ≡ K.ready) × (r.most ≡ K.most) × IsWithin K.most r.work };
}

impl<K: KeeperIdentity, const W: usize> Room<K, W> {
    /// A keeper that is awake, and has done nothing yet.
    pub(crate) fn new(zone: BareZone<W>, keeper: Keeper, most: u32) -> Self
        requires keeper { (keeper.order ≡ K.order) × (keeper.ready ≡ K.ready) }
        requires most { most ≡ K.most }
    {
        Room {
            zone,
            keeper,
            most,
            work: Work::default(),
            is_awake: true,
            is_stopping: false,
            of: PhantomData,
        }
    }

    /// The zone, to be read.
    pub fn zone(&self) -> &BareZone<W>
        ensures { result.now ≡ self.now.zone }
    {
        &self.zone
    }

    /// The zone, for calls of it. Whatever is done with it, the keeper goes on with what it finds.
    pub fn zone_mut(&mut self) -> &mut BareZone<W>
        ensures* lends { sem 𝓛 (LendsZone K.row W.row K.KeeperIdentity self.entry result) }
        ensures zone { result.now ≡ self.old.zone }
    {
        &mut self.zone
    }

    /// The keeper, to be read.
    pub fn keeper(&self) -> &Keeper
        ensures keeper { result.now ≡ self.now.keeper }
        ensures order { result.now.order ≡ K.order }
        ensures ready { result.now.ready ≡ K.ready }
    {
        &self.keeper
    }

    /// What the keeper's thread did so far.
    pub fn work(&self) -> Work
        ensures work { result ≡ self.now.work }
        ensures within { IsWithin K.most result }
    {
        self.work
    }

    /// Whether there may be something for the keeper to do.
    pub fn is_awake(&self) -> bool
        ensures { result ≡ self.now.is_awake }
    {
        self.is_awake
    }

    /// Whether the keeper's thread was told to end.
    pub fn is_stopping(&self) -> bool
        ensures { result ≡ self.now.is_stopping }
    {
        self.is_stopping
    }

    /// Makes a step of the keeper, and counts it. The keeper goes to sleep where the step did nothing.
    ///
    /// Refused as JournalFull, as `Keeper::step` is. A refusal leaves the zone and the keeper as they were.
    pub fn step(&mut self) -> Result<Step, ZoneError>
        ensures refused { result_err result ≡ keep_refusal self.old.keeper self.old.zone K.most }
        ensures err { OnErr result ((self.new.keeper ≡ self.old.keeper) × (self.new.zone ≡ self.old.zone)) }
        ensures ok { IfOk result (λ step. IsKept self.old.keeper self.old.zone K.most step self.new.keeper self.new.zone) }
        ensures work { self.new.work ≡ worked self.old.work result }
        ensures awake { self.new.is_awake ≡ goes_on result }
        ensures stopping { self.new.is_stopping ≡ self.old.is_stopping }
    {
        let made = self.keeper.step(&mut self.zone, self.most);
        self.work.add(&made);
        self.is_awake = goes_on(&made);
        made
    }

    /// Hands out a block, as `Keeper::take` does, and wakes the keeper.
    ///
    /// Refused as `Keeper::take` is. A refusal changes nothing.
    pub fn take(&mut self) -> Result<Taken, ZoneError>
        ensures refused { result_err result ≡ take_refusal self.old.keeper self.old.zone }
        ensures err { OnErr result (self.new ≡ self.old) }
        ensures ok { IfOk result (λ taken. IsTaken self.old.keeper self.old.zone taken self.new.keeper self.new.zone) }
        ensures awake { IfOk result (λ taken. self.new ≡ woken (record self.old { zone = self.new.zone; keeper = self.new.keeper })) }
        ensures order { self.old.keeper.order ≡ K.order }
        ensures valid { OnOk result (IsValidZone self.new.zone) }
    {
        let taken = self.keeper.take(&mut self.zone)?;
        self.wake();
        Ok(taken)
    }

    /// Wakes the keeper.
    pub fn wake(&mut self)
        ensures { self.new ≡ woken self.old }
    {
        if !self.is_awake {
            self.is_awake = true;
            self.work.wakes = self.work.wakes.saturating_add(1);
        }
    }

    /// Tells the keeper's thread to end.
    pub fn stop(&mut self)
        ensures { self.new ≡ record self.old { is_stopping = true } }
    {
        self.is_stopping = true;
    }

    /// Takes the zone, the keeper and the counts apart.
    pub(crate) fn into_parts(self) -> (BareZone<W>, Keeper, Work)
        ensures parts { (result.0 ≡ self.zone) × (result.1 ≡ self.keeper) × (result.2 ≡ self.work) }
        ensures keeper { (result.1.order ≡ K.order) × (result.1.ready ≡ K.ready) }
        ensures within { IsWithin K.most result.2 }
    {
        let Room {
            zone,
            keeper,
            work,
            ..
        } = self;
        (zone, keeper, work)
    }
}

impl<K: KeeperIdentity, const W: usize> Calling for Room<K, W> {
    fn is_calling(&self) -> bool {
        self.is_awake || self.is_stopping
    }
}

/// Whether a keeper goes on after this step.
fn goes_on(made: &Result<Step, ZoneError>) -> bool
    ensures { result ≡ goes_on made.now }
{
    let Ok(step) = made else {
        return false;
    };
    !matches!(step, Step::Rested)
}
