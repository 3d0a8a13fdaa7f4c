//! What C calls: opening and closing, and the calls of a client.

ghost use Rattle.std.specs.Prelude.{◌≡◌, ◌&&◌, nat_lt, None, Some, unwrap_or, IsOk, IfOk, OnOk, OnErr};
ghost use Rattle.std.specs.Result.{result_err};
ghost use Rattle.compactd_c.specs.Answers.{answer_of, number_for, IsCall, IsTold};
ghost use Rattle.compactd_c.specs.Ranges.{address_of, is_address, is_client, is_order, ranged};
ghost use Rattle.compactd_c.specs.Kinds.{IsPageSize};
ghost use Rattle.state_core.specs.Access.{access_refusal, value_at, loaded, stored};
ghost use Rattle.state_core.specs.Claiming.{with_apart};
ghost use Rattle.state_core.specs.HandingOut.{lowest_run, take_order_refusal, give_order_refusal, block_taken, block_given};
ghost use Rattle.state_core.specs.Mapping.{map_refusal, map_at_refusal, mapped};
ghost use Rattle.state_core.specs.Marking.{mark_refusal, unmark_refusal, block_marked, block_unmarked};
ghost use Rattle.compactd_c.specs.Sizes.{size_with, some_places, IsOpening};
ghost use Rattle.state_core.specs.Opening.{IsAllowed, IsOpenable, IsSize, opened_sized, opened_unrecorded, opened_with, places_of as opened_places};
ghost use Rattle.state_core.specs.Pinning.{pin_refusal, pinned, unpin_refusal, unpinned};
ghost use Rattle.state_core.specs.Sharing.{share_refusal, shared};
ghost use Rattle.state_core.specs.Unmapping.{unmap_refusal, unmapped};
ghost use Rattle.state_core.specs.ZoneState.{frame_for};

use crate::calls::{CLOSED, number, numbered, told};
use crate::pool::Pool;
use crate::zone::Zone;
use state_core::{ZoneError, ZoneSize};
use std::alloc::Global;

/// The number of an opening of a pool that is open.
pub(crate) const OPEN: u32 = 52;

/// Opens a closed pool: an empty zone whose pages have 8 or 512 words, with 1 to 32,768 pageblocks of 512 frames and with 8 address spaces of
/// 4,096 virtual pages. No record of its history is kept in memory.
///
/// Refused as OPEN where the pool is open, as RANGE where a number is out of its range, or as MEMORY where there isn't enough memory.
#[unsafe(no_mangle)]
pub extern "C" fn compactd_open(alloc: Global, pool: &mut Pool, page_words: u32, blocks: u32) -> u32
    ensures { IsOpening (IsPageSize page_words × IsSize blocks) (λ zone. zone ≡ Some (opened_unrecorded page_words 0 blocks)) pool.old.zone pool.new.zone result }
{
    if let Some(_) = pool.zone() {
        return OPEN;
    }
    opened(
        pool,
        alloc,
        Zone::open_sized(alloc, page_words, ZoneSize::of_blocks(blocks), None),
    )
}

/// Opens a closed pool of any size: an empty zone whose pages have 8 or 512 words, with 1 to 32,768 pageblocks of 512 frames and 1 to 256
/// address spaces of 1 to 16,777,216 virtual pages each, 67,108,864 at most in all. Its journal keeps its records in so many places, 1 to
/// 65,536; where there are none no record is kept.
///
/// Refused as `compactd_open` is.
#[unsafe(no_mangle)]
pub extern "C" fn compactd_open_sized(
    alloc: Global,
    pool: &mut Pool,
    page_words: u32,
    blocks: u32,
    spaces: u32,
    vpages: u32,
    places: u32,
) -> u32
    ensures { IsOpening (IsPageSize page_words × IsAllowed (size_with blocks spaces vpages) (some_places places)) (λ zone. zone ≡ Some (opened_sized page_words 0 (size_with blocks spaces vpages) (opened_places (some_places places)))) pool.old.zone pool.new.zone result }
{
    if let Some(_) = pool.zone() {
        return OPEN;
    }
    let size = ZoneSize {
        blocks,
        spaces,
        vpages,
    };
    opened(
        pool,
        alloc,
        Zone::open_sized(alloc, page_words, size, some_places(places)),
    )
}

/// The places of a journal that is kept, or none where there are 0.
pub(crate) fn some_places(places: u32) -> Option<u32>
    ensures { result ≡ some_places places }
{
    (places > 0).then_some(places)
}

/// Opens a closed pool whose zone keeps its journal: each record of it, at most as many as there are places, 1 to 65,536.
///
/// Refused as `compactd_open` is.
#[unsafe(no_mangle)]
pub extern "C" fn compactd_open_journal(
    alloc: Global,
    pool: &mut Pool,
    page_words: u32,
    blocks: u32,
    places: u32,
) -> u32
    ensures { IsOpening (IsPageSize page_words × IsOpenable blocks places) (λ zone. zone ≡ Some (opened_with page_words 0 blocks places)) pool.old.zone pool.new.zone result }
{
    if let Some(_) = pool.zone() {
        return OPEN;
    }
    opened(pool, alloc, Zone::open(alloc, page_words, blocks, places))
}

/// Puts a zone that was opened into a closed pool.
fn opened(pool: &mut Pool, alloc: Global, zone: Result<Zone, ZoneError>) -> u32
    requires { pool.old.zone ≡ None }
    ensures refused { OnErr zone (result ≡ number_for (result_err zone)) }
    ensures memory { OnOk zone (¬ (result ≡ 0) → result ≡ 14) }
    ensures zone { result ≡ 0 → IfOk zone (λ zone. pool.new.zone ≡ Some zone) }
    ensures known { result ≡ 0 → IsOk zone }
    ensures kept { ¬ (result ≡ 0) → pool.new.zone ≡ None }
{
    match zone {
        Ok(zone) => match Box::new(alloc, zone) {
            Ok(zone) => {
                pool.put(alloc, zone);
                0
            }
            Err(_) => number(ZoneError::Memory),
        },
        Err(error) => number(error),
    }
}

/// Closes a pool: its zone is let go, with all its memory.
///
/// Refused as CLOSED.
#[unsafe(no_mangle)]
pub extern "C" fn compactd_close(alloc: Global, pool: &mut Pool) -> u32
    ensures answer { result ≡ answer_of pool.old.zone (λ z. None) }
    ensures zone { pool.new.zone ≡ None }
{
    match pool.take(alloc) {
        Some(_) => 0,
        None => CLOSED,
    }
}

/// Maps unmovable pages apart from the others from now on, in pageblocks of their own as far as there are free frames; or no longer, as in
/// a pool that was just opened.
///
/// Refused as CLOSED.
#[unsafe(no_mangle)]
pub extern "C" fn compactd_set_apart(pool: &mut Pool, apart: bool) -> u32
    ensures call { IsCall (λ z. None) (λ z. with_apart z apart) pool.old.zone pool.new.zone result }
{
    let zone = open_zone!(pool);
    zone.set_apart(apart);
    0
}

/// Makes an address name a fresh page, and tells its frame: the lowest free one, or one by its pageblock where unmovable pages are mapped
/// apart. The page holds zeros.
///
/// Refused as CLOSED, RANGE, JOURNAL_FULL, OCCUPIED or NO_FRAME.
#[unsafe(no_mangle)]
pub extern "C" fn compactd_map(
    pool: &mut Pool,
    client: u32,
    space: u32,
    vpage: u32,
    unmovable: bool,
    frame: &mut u32,
) -> u32
    ensures call { IsCall (λ z. ranged (is_client client && is_address space vpage) (map_refusal z (address_of space vpage))) (λ z. mapped z client (address_of space vpage) unmovable (unwrap_or (frame_for z unmovable) 0)) pool.old.zone pool.new.zone result }
    ensures frame { IsTold (λ z frame. frame ≡ unwrap_or (frame_for z unmovable) 0) pool.old.zone result frame.old frame.new }
{
    let zone = open_zone!(pool);
    told(zone.map(client, space, vpage, unmovable), frame)
}

/// Makes an address name a fresh page in a given frame.
///
/// Refused as CLOSED, RANGE, JOURNAL_FULL, OCCUPIED or NO_FRAME.
#[unsafe(no_mangle)]
pub extern "C" fn compactd_map_at(
    pool: &mut Pool,
    client: u32,
    space: u32,
    vpage: u32,
    unmovable: bool,
    frame: u32,
) -> u32
    ensures call { IsCall (λ z. ranged (is_client client && (is_address space vpage && nat_lt frame 16777216)) (map_at_refusal z (address_of space vpage) frame)) (λ z. mapped z client (address_of space vpage) unmovable frame) pool.old.zone pool.new.zone result }
{
    let zone = open_zone!(pool);
    numbered(zone.map_at(client, space, vpage, unmovable, frame))
}

/// Reads a word of the page that an address names.
///
/// Refused as CLOSED, RANGE, JOURNAL_FULL, UNMAPPED or MOVING.
#[unsafe(no_mangle)]
pub extern "C" fn compactd_load(
    pool: &mut Pool,
    client: u32,
    space: u32,
    vpage: u32,
    word: u32,
    value: &mut u64,
) -> u32
    ensures call { IsCall (λ z. ranged (is_client client && (is_address space vpage && nat_lt word z.page_size)) (access_refusal z (address_of space vpage))) (λ z. loaded z client (address_of space vpage) word) pool.old.zone pool.new.zone result }
    ensures value { IsTold (λ z value. value ≡ value_at z (address_of space vpage) word) pool.old.zone result value.old value.new }
{
    let zone = open_zone!(pool);
    told(zone.load(client, space, vpage, word), value)
}

/// Writes a word of the page that an address names.
///
/// Refused as CLOSED, RANGE, JOURNAL_FULL, UNMAPPED or MOVING.
#[unsafe(no_mangle)]
pub extern "C" fn compactd_store(
    pool: &mut Pool,
    client: u32,
    space: u32,
    vpage: u32,
    word: u32,
    value: u64,
) -> u32
    ensures call { IsCall (λ z. ranged (is_client client && (is_address space vpage && nat_lt word z.page_size)) (access_refusal z (address_of space vpage))) (λ z. stored z client (address_of space vpage) word value) pool.old.zone pool.new.zone result }
{
    let zone = open_zone!(pool);
    numbered(zone.store(client, space, vpage, word, value))
}

/// Makes an alias name the page of an address too. A page has at most 4 addresses.
///
/// Refused as CLOSED, RANGE, JOURNAL_FULL, UNMAPPED, MOVING, OCCUPIED or SHARE_FULL.
#[unsafe(no_mangle)]
pub extern "C" fn compactd_share(
    pool: &mut Pool,
    client: u32,
    space: u32,
    vpage: u32,
    alias_space: u32,
    alias_vpage: u32,
) -> u32
    ensures call { IsCall (λ z. ranged (is_client client && (is_address space vpage && is_address alias_space alias_vpage)) (share_refusal z (address_of space vpage) (address_of alias_space alias_vpage))) (λ z. shared z client (address_of space vpage) (address_of alias_space alias_vpage)) pool.old.zone pool.new.zone result }
{
    let zone = open_zone!(pool);
    numbered(zone.share(client, space, vpage, alias_space, alias_vpage))
}

/// Makes an address name no page any more.
///
/// Refused as CLOSED, RANGE, JOURNAL_FULL, UNMAPPED, MOVING or PINNED.
#[unsafe(no_mangle)]
pub extern "C" fn compactd_unmap(pool: &mut Pool, client: u32, space: u32, vpage: u32) -> u32
    ensures call { IsCall (λ z. ranged (is_client client && is_address space vpage) (unmap_refusal z (address_of space vpage))) (λ z. unmapped z client (address_of space vpage)) pool.old.zone pool.new.zone result }
{
    let zone = open_zone!(pool);
    numbered(zone.unmap(client, space, vpage))
}

/// Pins the page that an address names. No round moves it until each of its pins is taken off.
///
/// Refused as CLOSED, RANGE, JOURNAL_FULL, UNMAPPED or PIN_FULL.
#[unsafe(no_mangle)]
pub extern "C" fn compactd_pin(pool: &mut Pool, client: u32, space: u32, vpage: u32) -> u32
    ensures call { IsCall (λ z. ranged (is_client client && is_address space vpage) (pin_refusal z (address_of space vpage))) (λ z. pinned z client (address_of space vpage)) pool.old.zone pool.new.zone result }
{
    let zone = open_zone!(pool);
    numbered(zone.pin(client, space, vpage))
}

/// Takes a pin off the page that an address names.
///
/// Refused as CLOSED, RANGE, JOURNAL_FULL, UNMAPPED or NOT_PINNED.
#[unsafe(no_mangle)]
pub extern "C" fn compactd_unpin(pool: &mut Pool, client: u32, space: u32, vpage: u32) -> u32
    ensures call { IsCall (λ z. ranged (is_client client && is_address space vpage) (unpin_refusal z (address_of space vpage))) (λ z. unpinned z client (address_of space vpage)) pool.old.zone pool.new.zone result }
{
    let zone = open_zone!(pool);
    numbered(zone.unpin(client, space, vpage))
}

/// Hands out the lowest free block of an order, 3 to 9, and tells its first frame.
///
/// Refused as CLOSED, RANGE, JOURNAL_FULL or NO_BLOCK.
#[unsafe(no_mangle)]
pub extern "C" fn compactd_take_order(pool: &mut Pool, order: u32, first: &mut u32) -> u32
    ensures call { IsCall (λ z. ranged (is_order order) (take_order_refusal z order)) (λ z. block_taken z (unwrap_or (lowest_run z order) 0) order) pool.old.zone pool.new.zone result }
    ensures first { IsTold (λ z first. first ≡ unwrap_or (lowest_run z order) 0) pool.old.zone result first.old first.new }
{
    let zone = open_zone!(pool);
    told(zone.take_order(order), first)
}

/// Takes back a block that was handed out, by its first frame and its order.
///
/// Refused as CLOSED, RANGE, JOURNAL_FULL or NOT_HUGE.
#[unsafe(no_mangle)]
pub extern "C" fn compactd_give_order(pool: &mut Pool, first: u32, order: u32) -> u32
    ensures call { IsCall (λ z. ranged (nat_lt first 16777216 && is_order order) (give_order_refusal z first order)) (λ z. block_given z first order) pool.old.zone pool.new.zone result }
{
    let zone = open_zone!(pool);
    numbered(zone.give_order(first, order))
}

/// Marks a pageblock: rounds take no frame of it.
///
/// Refused as CLOSED, RANGE, JOURNAL_FULL or MARKED.
#[unsafe(no_mangle)]
pub extern "C" fn compactd_mark(pool: &mut Pool, block: u32) -> u32
    ensures call { IsCall (λ z. ranged (nat_lt block 32768) (mark_refusal z block)) (λ z. block_marked z block) pool.old.zone pool.new.zone result }
{
    let zone = open_zone!(pool);
    numbered(zone.mark(block))
}

/// Takes the mark of a pageblock off.
///
/// Refused as CLOSED, RANGE, JOURNAL_FULL or NOT_MARKED.
#[unsafe(no_mangle)]
pub extern "C" fn compactd_unmark(pool: &mut Pool, block: u32) -> u32
    ensures call { IsCall (λ z. ranged (nat_lt block 32768) (unmark_refusal z block)) (λ z. block_unmarked z block) pool.old.zone pool.new.zone result }
{
    let zone = open_zone!(pool);
    numbered(zone.unmark(block))
}
