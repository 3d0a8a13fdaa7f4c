//! What is done with a zone whose lower half is full, and how long that takes.

ghost use Rattle.zone_core.specs.Books.{AreFor};
ghost use Rattle.zone_core.specs.ZoneIdentity.{HasIdentity};

use super::alone::{half_full, time_moves};
use crate::Runtime;
use crate::opening::Opened;
use crate::settings::Setting;
use crate::times::{Times, nanos_since};
use round_core::{NoGate, SharedZone, ZoneIdentity, compact};
use std::alloc::Global;
use std::io;
use std::marker::Brand;
use std::time::Instant;
use zone_core::{Blanks, Opening, SeatsIn, ZoneIn};

/// What is done with the zone.
#[derive(Clone, Copy)]
pub enum Work {
    /// Nothing but that it is filled.
    Filling,
    /// Its pages are moved up on one thread and without queues.
    Alone,
    /// A round on threads moves its pages up, and one after it finds nothing to move.
    Rounds(Setting),
}

/// How long a work takes in a zone that is opened and filled for it.
pub fn time<Z: Opening + Send + Sync, R: Runtime>(
    rt: &R,
    alloc: Global,
    work: Work,
    blanks: Blanks,
) -> io::Result<Times>
    requires blanks { AreFor blanks Z.isolated Z.rounds Z.moved Z.back }
{
    let Some(opening) = half_full::<Z>(alloc, blanks) else {
        return Ok(Times::NONE);
    };
    let Opened {
        mut zone,
        mut seats,
    } = opening;
    match work {
        Work::Filling => Ok(Times::of(u64::from(zone.info().pages), u64::MAX)),
        Work::Alone => time_moves(rt, &mut zone, &mut seats),
        Work::Rounds(setting) => {
            time_rounds::<Brand, Z, R>(rt, alloc, zone, &mut seats, setting)
        }
    }
}

/// How long both rounds take over a zone of the identity that the type names.
fn time_rounds<K: ZoneIdentity + Send + Sync, Z: Opening + Send + Sync, R: Runtime>(
    rt: &R,
    alloc: Global,
    zone: ZoneIn<Z>,
    seats: &mut SeatsIn<Z>,
    setting: Setting,
) -> io::Result<Times>
    requires identity { HasIdentity K.number K.blocks zone }
{
    let shared = SharedZone::<K, Z>::new(zone);
    let round = time_round(rt, alloc, &shared, seats, setting)?;
    let after = time_round(rt, alloc, &shared, seats, setting)?;
    Ok(Times {
        empty: after.whole,
        ..round
    })
}

/// How long a round takes.
fn time_round<K: ZoneIdentity + Send + Sync, Z: Opening + Send + Sync, R: Runtime>(
    rt: &R,
    alloc: Global,
    shared: &SharedZone<K, Z>,
    seats: &mut SeatsIn<Z>,
    setting: Setting,
) -> io::Result<Times> {
    let Setting { threads, capacity } = setting;
    let start = Instant::now(rt)?;
    let pages = match compact(rt, alloc, shared, seats, threads, capacity, &NoGate) {
        Ok(round) => round.moved,
        Err(_) => 0,
    };
    Ok(Times::of(pages, nanos_since(rt, &start)?))
}
