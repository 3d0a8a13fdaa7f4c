//! What C calls to be told something. No call here changes the zone.

ghost use Rattle.std.specs.Prelude.{◌≡◌, ◌+◌, ◌&&◌, nat_lt, None, Some};
ghost use Rattle.compactd_c.specs.Answers.{IsAsked};
ghost use Rattle.compactd_c.specs.Ranges.{address_of, is_address, ranged};
ghost use Rattle.compactd_c.specs.Looks.{look_refusal, audit_refusal};
ghost use Rattle.compactd_c.specs.Told.{counts_of, geometry_of, page_info_of, reserved, AreMoves};
ghost use Rattle.frame_core.specs.Moves.{moved, put_back};
ghost use Rattle.state_core.specs.Looking.{look_of, info_of};
ghost use Rattle.state_core.specs.Marking.{marked_of};
ghost use Rattle.state_core.specs.ZoneState.{is_quiet};

use crate::calls::told;
use crate::pool::Pool;
use bitflags::Flags;
use state_core::{Audit, Info, Look};

/// What the spare words of each structure that C gets are filled with. A later version may give them a meaning.
pub(crate) const RESERVED: [u64; 2] = [0; 2];

/// The counts of a zone, in frames unless it says otherwise.
#[repr(C)]
#[derive(Clone, Copy)]
pub struct Counts {
    /// Free frames.
    pub free: u32,
    /// Pages in use, moving ones too.
    pub pages: u32,
    /// Moving pages.
    pub moving: u32,
    /// Blocks that are handed out.
    pub huge: u32,
    /// Pageblocks whose 512 frames are all free.
    pub whole: u32,
    /// Frames of the blocks that are handed out, and claimed frames.
    pub held: u32,
    pub reserved: [u64; 2],
}

/// What a pool was opened with.
#[repr(C)]
#[derive(Clone, Copy)]
pub struct Geometry {
    /// How many words a page has, 8 or 512.
    pub page_words: u32,
    /// How many pageblocks it has, 1 to 32,768.
    pub blocks: u32,
    /// How many places its journal has, used or not; 0 where no record is kept.
    pub places: u64,
    /// How many address spaces it has, 1 to 256.
    pub spaces: u32,
    /// How many virtual pages each space has, 1 to 16,777,216.
    pub vpages: u32,
    pub reserved: u64,
}

/// What is known of the page that an address names.
#[repr(C)]
#[derive(Clone, Copy)]
pub struct PageInfo {
    /// The serial of its move, or 0 where it isn't moving.
    pub serial: u64,
    /// Its frame, or 0 where it is moving.
    pub frame: u32,
    /// 1 is unmovable, 2 is dirty, 3 both; 0 where it is moving.
    pub flags: u32,
    /// How many pins it has, 0 to 255.
    pub pins: u32,
    /// How many addresses name it, 1 to 4.
    pub maps: u32,
    /// Whether it is moving.
    pub moving: bool,
    pub reserved: [u64; 2],
}

/// What became of the pages that were isolated.
#[repr(C)]
#[derive(Clone, Copy)]
pub struct RoundCounts {
    pub isolated: u64,
    pub moved: u64,
    /// The pages that were put back.
    pub back: u64,
    pub reserved: [u64; 2],
}

/// Tells the counts of the zone.
///
/// Refused as CLOSED.
#[unsafe(no_mangle)]
pub extern "C" fn compactd_info(pool: &mut Pool, counts: &mut Counts) -> u32
    ensures { IsAsked (λ z. None) (λ z counts. counts ≡ counts_of (info_of z)) pool.old.zone pool.new.zone result counts.old counts.new }
{
    let zone = open_zone!(pool);
    *counts = counts_in(zone.info());
    0
}

fn counts_in(info: Info) -> Counts
    ensures { result ≡ counts_of info }
{
    Counts {
        free: info.free,
        pages: info.pages,
        moving: info.moving,
        huge: info.huge,
        whole: info.whole,
        held: info.held,
        reserved: RESERVED,
    }
}

/// Tells what the pool was opened with.
///
/// Refused as CLOSED.
#[unsafe(no_mangle)]
pub extern "C" fn compactd_describe(pool: &mut Pool, geometry: &mut Geometry) -> u32
    ensures { IsAsked (λ z. None) (λ z geometry. geometry ≡ geometry_of z) pool.old.zone pool.new.zone result geometry.old geometry.new }
{
    let zone = open_zone!(pool);
    *geometry = zone.geometry();
    0
}

/// Tells whether the latest round is quiet: when it began nothing was stuck, and since then pages were loaded, stored, isolated and moved
/// alone.
///
/// Refused as CLOSED.
#[unsafe(no_mangle)]
pub extern "C" fn compactd_quiet(pool: &mut Pool, quiet: &mut bool) -> u32
    ensures { IsAsked (λ z. None) (λ z quiet. quiet ≡ is_quiet z) pool.old.zone pool.new.zone result quiet.old quiet.new }
{
    let zone = open_zone!(pool);
    *quiet = zone.quiet();
    0
}

/// Tells whether a pageblock is marked.
///
/// Refused as RANGE where the zone has no such pageblock, or as CLOSED.
#[unsafe(no_mangle)]
pub extern "C" fn compactd_marked(pool: &mut Pool, block: u32, marked: &mut bool) -> u32
    ensures { IsAsked (λ z. ranged (nat_lt block 32768 && nat_lt block z.blocks) None) (λ z marked. marked_of z block ≡ Some marked) pool.old.zone pool.new.zone result marked.old marked.new }
{
    let zone = open_zone!(pool);
    told(zone.marked(block), marked)
}

/// Tells what is known of the page that an address names.
///
/// Refused as RANGE where a number is out of its range, as UNMAPPED where the address names no page, or as CLOSED.
#[unsafe(no_mangle)]
pub extern "C" fn compactd_look(pool: &mut Pool, space: u32, vpage: u32, info: &mut PageInfo) -> u32
    ensures { IsAsked (λ z. ranged (is_address space vpage) (look_refusal z (address_of space vpage))) (λ z info. page_info_of (look_of z (address_of space vpage)) ≡ Some info) pool.old.zone pool.new.zone result info.old info.new }
{
    let zone = open_zone!(pool);
    told(zone.look(space, vpage).map(page_info_in), info)
}

fn page_info_in(look: Look) -> PageInfo
    ensures { page_info_of (Some look) ≡ Some result }
{
    match look {
        Look::At {
            frame,
            flags,
            pins,
            maps,
        } => PageInfo {
            serial: 0,
            frame: frame.get(),
            flags: u32::from(flags.bits()),
            pins: u32::from(pins),
            maps: u32::from(maps),
            moving: false,
            reserved: RESERVED,
        },
        Look::Moving { serial, pins, maps } => PageInfo {
            serial,
            frame: 0,
            flags: 0,
            pins: u32::from(pins),
            maps: u32::from(maps),
            moving: true,
            reserved: RESERVED,
        },
    }
}

/// Tells how many moves have ended since the pool was opened: those of pages that were moved, and those of pages that were put back.
///
/// Refused as CLOSED.
#[unsafe(no_mangle)]
pub extern "C" fn compactd_ended(pool: &mut Pool, ended: &mut u64) -> u32
    ensures { IsAsked (λ z. None) (λ z ended. ended ≡ moved z.records + put_back z.records) pool.old.zone pool.new.zone result ended.old ended.new }
{
    let zone = open_zone!(pool);
    *ended = zone.ended();
    0
}

/// Tells what became of the pages that were isolated: each was moved or put back.
///
/// Refused as OUT while a page is moving, or as CLOSED.
#[unsafe(no_mangle)]
pub extern "C" fn compactd_audit(pool: &mut Pool, counts: &mut RoundCounts) -> u32
    ensures { IsAsked audit_refusal AreMoves pool.old.zone pool.new.zone result counts.old counts.new }
{
    let zone = open_zone!(pool);
    told(zone.audit().map(round_counts_in), counts)
}

fn round_counts_in(audit: Audit) -> RoundCounts
    ensures { result ≡ record { isolated = audit.isolated; moved = audit.moved; back = audit.back; reserved = reserved } }
{
    RoundCounts {
        isolated: audit.isolated,
        moved: audit.moved,
        back: audit.back,
        reserved: RESERVED,
    }
}

/// The version of this library, 0.2.0: 10,000 times its first number, 100 times its second, and its third.
#[unsafe(no_mangle)]
pub extern "C" fn compactd_version() -> u32
    ensures { result ≡ 200 }
{
    200
}
