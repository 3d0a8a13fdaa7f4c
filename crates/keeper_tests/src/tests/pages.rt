//! The pages of a test's clients, and what is in them.

use super::{Pool, Runtime};
use frame_core::{Address, ClientNo, FrameNo, SpaceNo, VPage, WordOf};
use keeper_thread::KeeperIdentity;
use std::process::Abort;
use zone_core::{BareZone, Look, ZoneError};

/// How many pages each of the two clients has, in a space of its own.
pub const PAGES: u32 = 64;

pub fn client(rt: &impl Abort, who: u32) -> ClientNo {
    ClientNo::new(who).expect(rt, "a client")
}

pub fn address(rt: &impl Abort, who: u32, page: u32) -> Address {
    let space = SpaceNo::new(who).expect(rt, "a space");
    let vpage = VPage::new(page).expect(rt, "a virtual page");
    Address { space, vpage }
}

fn word(rt: &impl Abort) -> WordOf<8> {
    WordOf::new(7).expect(rt, "a word")
}

/// Maps so many pages of each client, each of them into a run of eight frames of its own.
pub fn map_pages(rt: &impl Abort, zone: &mut BareZone<8>, pages: u32) {
    for page in 0..pages.min(2 * PAGES) {
        let frame = FrameNo::in_any_zone(page * 8).expect(rt, "a frame");
        let (who, page) = (page % 2, page / 2);
        zone.map_at(client(rt, who), address(rt, who, page), false, frame)
            .expect(rt, "a frame for the page");
    }
}

/// Whether no page of a client is in this block.
pub fn is_clear(rt: &impl Abort, zone: &BareZone<8>, first: FrameNo, frames: u32) -> bool {
    for page in 0..2 * PAGES {
        let frame = frame_of(rt, zone, page % 2, page / 2);
        if frame.wrapping_sub(first.get()) < frames {
            return false;
        }
    }
    true
}

/// The frame of a page, or a number that no frame has where there is no page.
fn frame_of(rt: &impl Abort, zone: &BareZone<8>, who: u32, page: u32) -> u32 {
    let Ok(look) = zone.look(address(rt, who, page)) else {
        return u32::MAX;
    };
    match look {
        Look::At { frame, .. } => frame.get(),
        Look::Moving { .. } => u32::MAX,
    }
}

/// A client finds in a page what it stored there in its last turn, and stores something else, under one hold of the lock.
pub fn use_page<K: KeeperIdentity, R: Runtime>(
    rt: &R,
    pool: &Pool<K>,
    who: u32,
    page: u32,
    turn: u64,
) {
    let mut room = pool.lock(rt);
    let zone = room.zone_mut();
    if turn != 0 {
        let loaded = zone.load(client(rt, who), address(rt, who, page), word(rt));
        assert!(rt; loaded == Ok(stored(who, page, turn - 1)), "a word is lost");
    }
    change(rt, zone, who, page, turn).expect(rt, "no change is refused");
    let value = stored(who, page, turn);
    zone.store(client(rt, who), address(rt, who, page), word(rt), value)
        .expect(rt, "a page");
}

/// A client pins some pages for a turn, and maps others anew.
fn change(
    rt: &impl Abort,
    zone: &mut BareZone<8>,
    who: u32,
    page: u32,
    turn: u64,
) -> Result<(), ZoneError> {
    match page % 4 {
        0 if turn % 2 == 0 => zone.pin(client(rt, who), address(rt, who, page)),
        0 => zone.unpin(client(rt, who), address(rt, who, page)),
        1 => map_anew(rt, zone, who, page),
        _ => Ok(()),
    }
}

fn map_anew(rt: &impl Abort, zone: &mut BareZone<8>, who: u32, page: u32) -> Result<(), ZoneError> {
    zone.unmap(client(rt, who), address(rt, who, page))?;
    zone.map(client(rt, who), address(rt, who, page), false)?;
    Ok(())
}

/// What a client stores in a page in a turn: nothing is stored twice, nor what a fresh page has.
fn stored(who: u32, page: u32, turn: u64) -> u64 {
    let place = u64::from(who.wrapping_mul(PAGES).wrapping_add(page));
    turn.wrapping_mul(256).wrapping_add(place).wrapping_add(1)
}
