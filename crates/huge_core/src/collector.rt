ghost use Rattle.std.specs.Prelude.{◌≡◌, ◌≢◌, ◌<◌, ◌≤◌, ◌↔◌, All, IfOk, IfErr, OnOk, OnErr};
ghost use Rattle.arrayvec.specs.ArrayVec.{array_vec_len};
ghost use Rattle.huge_core.specs.Huge.{IsHandedOut, IsRefused};

use crate::huge::Huge;
use crate::report::{Report, Stop};
use arrayvec::ArrayVec;
use frame_core::Order;
use round_core::{Gate, SharedZone, Stop as RoundStop, ZoneIdentity, compact};
use std::alloc::Global;
use std::sync::Wait;
use std::thread::Threads;
use zone_core::{Opening, SeatsIn, ZoneError};

/// Reserves blocks of free frames, and runs rounds where too few are free. The kernel's kcompactd compacts memory in the
/// background; a collector works only when it is called.
#[derive(Clone, Copy, Debug)]
pub struct Collector {
    /// The copiers of a round, 1 to 4.
    pub copiers: usize,
    /// The room in the queues of a round, 1 to 64 pages.
    pub cap: usize,
    /// How many rounds it may run in one call of `reserve`, 0 to 16.
    pub rounds: u32,
    /// The order of the blocks that it reserves, 3 to 9.
    pub order: Order,
    ghost copiers_in_range: { (0 < copiers) × (copiers ≤ 4) },
    ghost cap_in_range: { (0 < cap) × (cap ≤ 64) },
    ghost rounds_in_range: { rounds ≤ 16 },
}

impl Collector {
    ghost use Rattle.huge_core.specs.Reserving.{IsGot, HasRun};

    /// Reserves up to `n` blocks, 1 to 8, one after the other. Where no block is free it runs a round, as long as it may and its
    /// rounds move pages.
    pub fn reserve<
        K: ZoneIdentity + Send + Sync,
        Z: Opening + Send + Sync,
        G: Gate,
        R: Threads + Wait + Sync,
    >(
        &self,
        rt: &R,
        alloc: Global,
        shared: &SharedZone<K, Z>,
        seats: &mut SeatsIn<Z>,
        n: usize,
        gate: &G,
    ) -> Report
        requires n { (0 < n) × (n ≤ 8) }
        ensures got { All (IsGot self.now.order) result.got.items }
        ensures most { array_vec_len result.got ≤ n }
        ensures enough { (result.stop ≡ Stop.Enough) ↔ (array_vec_len result.got ≡ n) }
        ensures rounds { HasRun self.now seats.old.scan seats.new.scan seats.old.ends seats.new.ends result }
    {
        let mut got = ArrayVec::new();
        let mut rounds = 0;
        let stop = loop {
            let Err(error) = self.fill(rt, shared, n, &mut got) else {
                break Stop::Enough;
            };
            if let ZoneError::JournalFull = error {
                break Stop::JournalFull;
            }
            if rounds == self.rounds {
                break Stop::Rounds;
            }
            match compact(rt, alloc, shared, seats, self.copiers, self.cap, gate) {
                Ok(round) => {
                    rounds += 1;
                    if round.moved == 0 {
                        break idle_stop(round.stopped);
                    }
                }
                Err(error) => break Stop::Refused(error),
            }
        };
        Report { got, rounds, stop }
    }

    /// Takes free blocks until there are `n`, or until the zone refuses one.
    fn fill<K: ZoneIdentity, Z: Opening, R: Wait>(
        &self,
        rt: &R,
        shared: &SharedZone<K, Z>,
        n: usize,
        got: &mut ArrayVec<Option<Huge>, 8>,
    ) -> Result<(), ZoneError>
        requires n { n ≤ 8 }
        requires most { array_vec_len got.old ≤ n }
        requires got { All (IsGot self.now.order) got.old.items }
        ensures got { All (IsGot self.now.order) got.new.items }
        ensures ok { OnOk result (array_vec_len got.new ≡ n) }
        ensures err { OnErr result (array_vec_len got.new < n) }
        ensures refused { IfErr result (IsRefused self.now.order) }
    {
        while got.len() < n {
            got.push(Some(take(rt, shared, self.order)?));
        }
        Ok(())
    }
}

/// Takes the lowest free block of an order.
fn take<K: ZoneIdentity, Z: Opening, R: Wait>(
    rt: &R,
    shared: &SharedZone<K, Z>,
    order: Order,
) -> Result<Huge, ZoneError>
    ensures got { IfOk result (λ huge. (huge.order ≡ order) × IsHandedOut huge) }
    ensures refused { IfErr result (IsRefused order) }
{
    let mut room = shared.lock(rt);
    Huge::take(&mut room.zone, order)
}

/// Why a collector stops after a round that moved no page.
pub(crate) fn idle_stop(stopped: RoundStop) -> Stop
    requires { stopped ≢ RoundStop.Most }
    ensures met { stopped ≡ RoundStop.Met → result ≡ Stop.NoBlock }
    ensures full { stopped ≡ RoundStop.JournalFull → result ≡ Stop.JournalFull }
{
    match stopped {
        RoundStop::Met => Stop::NoBlock,
        RoundStop::JournalFull => Stop::JournalFull,
        RoundStop::Most => unreachable!(),
    }
}
