//! What C calls to find the pages that are moving.

ghost use Rattle.std.specs.Prelude.{◌≡◌, ◌<◌, None, Some};
ghost use Rattle.compactd_c.specs.Moving.{IsToldOfNext, move_of, page_of};
ghost use Rattle.state_core.specs.ZoneState.{ZoneState};
ghost use Rattle.zone_tables.specs.MovingPages.{IsNoneMoving};

use crate::calls::number;
use crate::carrying::MovingPage;
use crate::looking::RESERVED;
use crate::pool::Pool;
use bitflags::Flags;
use frame_core::FrameNo;
use state_core::ZoneError;
use zone_core::MovingPage as Found;

/// The number of a question for a moving page where there is none.
const NOT_MOVING: u32 = 54;

/// Where a moving page is, and what names it.
#[repr(C)]
#[derive(Clone, Copy)]
pub struct Move {
    /// The frame that it leaves.
    pub source: u32,
    /// The frame that it goes to.
    pub target: u32,
    /// The space and the virtual page of the lowest address that names it.
    pub space: u32,
    pub vpage: u32,
    pub reserved: [u64; 2],
}

/// Tells of the moving page that leaves the lowest frame, of those that leave a frame from `from` on.
///
/// Refused as RANGE where there is no such frame number, as NOT_MOVING where no page leaves such a frame, or as CLOSED.
#[unsafe(no_mangle)]
pub extern "C" fn compactd_next_moving(
    pool: &mut Pool,
    from: u32,
    page: &mut MovingPage,
    way: &mut Move,
) -> u32
    ensures closed { pool.old.zone ≡ None → result ≡ 51 }
    ensures range { (z : ZoneState) → pool.old.zone ≡ Some z → ¬ (from < 16777216) → result ≡ 1 }
    ensures some { (z : ZoneState) → pool.old.zone ≡ Some z → result ≡ 0 → IsToldOfNext z from page.new way.new }
    ensures none { (z : ZoneState) → pool.old.zone ≡ Some z → from < 16777216 → ¬ (result ≡ 0) → (result ≡ 54) × IsNoneMoving z from }
    ensures zone { pool.new.zone ≡ pool.old.zone }
    ensures kept { ¬ (result ≡ 0) → (page.new ≡ page.old) × (way.new ≡ way.old) }
{
    let zone = open_zone!(pool);
    let Some(from) = FrameNo::in_any_zone(from) else {
        return number(ZoneError::Range);
    };
    let Some(found) = zone.next_moving(from) else {
        return NOT_MOVING;
    };
    *page = page_of(&found);
    *way = move_of(&found);
    0
}

fn page_of(found: &Found) -> MovingPage
    ensures { result ≡ page_of found.now }
{
    MovingPage {
        serial: found.serial,
        number: found.page.get(),
        flags: u32::from(found.flags.bits()),
        reserved: RESERVED,
    }
}

fn move_of(found: &Found) -> Move
    ensures { result ≡ move_of found.now }
{
    Move {
        source: found.source.get(),
        target: found.target.get(),
        space: found.address.space.get(),
        vpage: found.address.vpage.get(),
        reserved: RESERVED,
    }
}
