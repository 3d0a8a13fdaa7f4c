//! A round on one thread. Its zone needs no ledgers, no seats and no lock.

use crate::numbers::{address, client, frame, word, zone_number};
use anyhow::Result;
use std::alloc::Global;
use zone_core::{BareZone, FrameNo, Order};

/// Brings two pages of 4 KiB together in one pageblock, by a round on this thread, and takes the other pageblock. The answers are the
/// word that was stored before the round, loaded after it, and the first frame of the pageblock.
pub fn compact_on_one_thread(alloc: Global) -> Result<(u64, FrameNo)> {
    let mut zone = BareZone::<512>::open_unrecorded(alloc, zone_number(0)?, 2)?;
    let (user, low, high) = (client(0)?, address(0, 10)?, address(0, 11)?);
    zone.map_at(user, low, false, frame(0)?)?;
    zone.map_at(user, high, false, frame(512)?)?;
    zone.store(user, low, word(3)?, 7)?;
    zone.compact();
    let loaded = zone.load(user, low, word(3)?)?;
    let huge = zone.take_order(Order::of_pageblock())?;
    Ok((loaded, huge))
}
