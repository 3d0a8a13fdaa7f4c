//! What C calls for a pool in memory of its own, and to have the words of a block by a pointer.

ghost use Rattle.std.specs.Prelude.{◌≡◌, ◌<◌, ◌*◌, length, replicate, None, Some, IsTrue, IfErr, IfOk, IfSome, OnErr, OnOk};
ghost use Rattle.std.specs.FinSet as set;
ghost use Rattle.std.specs.Option.{option_map};
ghost use Rattle.std.specs.Result.{result_err, result_ok};
ghost use Rattle.compactd_c.specs.Answers.{answer_of, number_for, IsCall};
ghost use Rattle.compactd_c.specs.Memory.{back_refusal, block_refusal, end_refusal, page_back_refusal, page_words_refusal, words_in, AreLent, AreTaken, IsOpenableIn};
ghost use Rattle.compactd_c.specs.Sizes.{size_with, some_places, IsOpening};
ghost use Rattle.compactd_c.specs.Ranges.{address_of};
ghost use Rattle.state_core.specs.Bulk.{values_at};
ghost use Rattle.state_core.specs.Contents.{contents_of};
ghost use Rattle.state_core.specs.Lending.{block_lent, block_place, block_returned, page_lent, page_place, page_returned, LendsNone};
ghost use Rattle.state_core.specs.Opening.{opened_in, places_of};
ghost use Rattle.state_core.specs.ZoneState.{ZoneState};

use crate::calls::number;
use crate::exports::{OPEN, some_places};
use crate::pool::Pool;
use crate::zone::Zone;
use row_core::{HeldWords, Row};
use state_core::{ZoneError, ZoneSize};
use std::alloc::Global;
use std::mem::replace;

/// Opens a closed pool of any size in memory of its caller's: the words of frame 0 come first, and `memory` has those of all frames and no
/// other. Where it `is_blank`, which no call tests, all its words are 0. No word of a frame is read or written before the frame is used. The
/// memory is the pool's until `compactd_close_in`.
///
/// Refused as OPEN where the pool is open, as RANGE where a number is out of its range or there are fewer words or more, or as MEMORY
/// where there isn't enough memory for the tables. The memory stays the caller's then; after MEMORY no clause says what its words are.
#[unsafe(no_mangle)]
pub extern "C" fn compactd_open_in(
    alloc: Global,
    pool: &mut Pool,
    page_words: u32,
    blocks: u32,
    spaces: u32,
    vpages: u32,
    places: u32,
    memory: &mut HeldWords,
    is_blank: bool,
) -> u32
    requires { IsTrue is_blank → words_in memory.old.row ≡ replicate (length (words_in memory.old.row)) 0 }
    ensures opening { IsOpening (IsOpenableIn page_words blocks spaces vpages places memory.old.row) (λ zone. IfSome memory.old.row (λ row. zone ≡ Some (opened_in row.at page_words 0 (size_with blocks spaces vpages) (places_of (some_places places))))) pool.old.zone pool.new.zone result }
    ensures taken { result ≡ 0 → (memory.new.row ≡ None) × ¬ (memory.old.row ≡ None) }
    ensures back { ¬ (result ≡ 0) → ¬ (result ≡ 14) → memory.new.row ≡ memory.old.row }
    ensures place { result ≡ 14 → IfSome memory.old.row (λ old. IfSome memory.new.row (λ new. (new.at ≡ old.at) × (length new.words ≡ length old.words))) × ¬ (memory.new.row ≡ None) }
{
    if let Some(_) = pool.zone() {
        return OPEN;
    }
    let Some(row) = taken(memory) else {
        return number(ZoneError::Range);
    };
    let size = ZoneSize {
        blocks,
        spaces,
        vpages,
    };
    match Zone::open_in(alloc, page_words, size, some_places(places), row, is_blank) {
        Ok(zone) => returned(put_in(alloc, pool, zone), memory),
        Err(back) => returned(Err(back), memory),
    }
}

/// Puts a zone in memory of its caller's into a closed pool, or gives the memory back.
fn put_in(alloc: Global, pool: &mut Pool, zone: Zone) -> Result<(), (ZoneError, Row)>
    requires closed { pool.old.zone ≡ None }
    requires lent { LendsNone zone × ¬ (zone.memory ≡ None) }
    ensures memory { IfErr result (λ back. (back.0 ≡ ZoneError.Memory) × (Some back.1.at ≡ zone.memory)) }
    ensures count { IfErr result (λ back. (length back.1.words ≡ 512 * zone.blocks * zone.page_size) × (0 < length back.1.words)) }
    ensures zone { OnOk result (pool.new.zone ≡ Some zone) }
    ensures kept { OnErr result (pool.new.zone ≡ None) }
{
    match Box::new(alloc, zone) {
        Ok(zone) => {
            pool.put(alloc, zone);
            Ok(())
        }
        Err(failed) => Err((ZoneError::Memory, failed.value.end().unwrap())),
    }
}

/// Closes a pool in memory of its caller's, and gives that memory back.
///
/// Refused as OWN_MEMORY where the pool lies in memory of its own, as LENT where words of it are lent, or as CLOSED.
#[unsafe(no_mangle)]
pub extern "C" fn compactd_close_in(alloc: Global, pool: &mut Pool, memory: &mut HeldWords) -> u32
    ensures answer { result ≡ answer_of pool.old.zone end_refusal }
    ensures closed { result ≡ 0 → pool.new.zone ≡ None }
    ensures memory { (z : ZoneState) → pool.old.zone ≡ Some z → result ≡ 0 → IfSome memory.new.row (λ row. (Some row.at ≡ z.memory) × (length row.words ≡ 512 * z.blocks * z.page_size)) }
    ensures given { result ≡ 0 → ¬ (memory.new.row ≡ None) }
    ensures kept { ¬ (result ≡ 0) → (pool.new.zone ≡ pool.old.zone) × (memory.new.row ≡ memory.old.row) }
{
    let zone = open_zone!(pool);
    if let Some(error) = zone.end_refusal() {
        return number(error);
    }
    let Some(row) = ended(alloc, pool) else {
        unreachable!();
    };
    *memory = HeldWords::of(row);
    0
}

/// Ends the zone of an open pool, no words of which may be lent, and gives back the memory of its caller, if it lies in such memory.
fn ended(alloc: Global, pool: &mut Pool) -> Option<Row>
    requires { (z : ZoneState) → pool.old.zone ≡ Some z → LendsNone z }
    ensures at { (z : ZoneState) → pool.old.zone ≡ Some z → option_map (λ row. row.at) result ≡ z.memory }
    ensures count { (z : ZoneState) → pool.old.zone ≡ Some z → IfSome result (λ row. length row.words ≡ 512 * z.blocks * z.page_size) }
    ensures some { IfSome result (λ row. 0 < length row.words) }
    ensures closed { pool.new.zone ≡ None }
{
    let zone = pool.take(alloc)?;
    Box::into_inner(zone).end()
}

/// Takes the words that C has, if it has some.
pub(crate) fn taken(words: &mut HeldWords) -> Option<Row>
    ensures row { (result ≡ words.old.row) × (words.new.row ≡ None) }
    ensures some { IfSome result (λ row. 0 < length row.words) }
{
    replace(words, HeldWords::none()).into_row()
}

/// The number of an answer, whose words go where C wants them.
fn lent(answer: Result<Row, ZoneError>, words: &mut HeldWords) -> u32
    requires { IfOk answer (λ row. 0 < length row.words) }
    ensures number { result ≡ number_for (result_err answer) }
    ensures words { OnOk answer (words.new.row ≡ result_ok answer) }
    ensures kept { OnErr answer (words.new.row ≡ words.old.row) }
{
    match answer {
        Ok(row) => {
            *words = HeldWords::of(row);
            0
        }
        Err(error) => number(error),
    }
}

/// The number of an answer to words that C brought back. It has them again where they aren't taken.
fn returned(answer: Result<(), (ZoneError, Row)>, words: &mut HeldWords) -> u32
    requires { IfErr answer (λ back. 0 < length back.1.words) }
    ensures number { result ≡ number_for (option_map (λ back. back.0) (result_err answer)) }
    ensures taken { OnOk answer (words.new.row ≡ words.old.row) }
    ensures back { IfErr answer (λ back. words.new.row ≡ Some back.1) }
{
    match answer {
        Ok(()) => 0,
        Err((error, row)) => {
            *words = HeldWords::of(row);
            number(error)
        }
    }
}

/// Lends the words of a block that is handed out. They are the caller's until `compactd_return_block`. A fresh block holds zeros. Nothing
/// is copied.
///
/// Refused as RANGE where a number is out of its range, as NOT_HUGE, as LENT where they are lent already, as OWN_MEMORY where the pool
/// lies in memory of its own, or as CLOSED.
#[unsafe(no_mangle)]
pub extern "C" fn compactd_block_words(
    pool: &mut Pool,
    first: u32,
    order: u32,
    words: &mut HeldWords,
) -> u32
    ensures call { IsCall (block_refusal first order) (λ z. block_lent z first) pool.old.zone pool.new.zone result }
    ensures words { AreLent (λ z. contents_of z first) (λ z. block_place z first) pool.old.zone result words.old.row words.new.row }
{
    let zone = open_zone!(pool);
    lent(zone.lend_block(first, order), words)
}

/// Takes back the words of a block that `compactd_block_words` lent, which no call tests. The block has what was left in them.
///
/// Refused as RANGE where a number is out of its range or the block has another number of words, as NOT_HUGE, or as CLOSED.
#[unsafe(no_mangle)]
pub extern "C" fn compactd_return_block(
    pool: &mut Pool,
    first: u32,
    order: u32,
    words: &mut HeldWords,
) -> u32
    requires { (z : ZoneState) → pool.old.zone ≡ Some z → IfSome words.old.row (λ row. Some row.at ≡ block_place z first) }
    ensures call { IsCall (back_refusal first order words.old.row) (λ z. block_returned z first (words_in words.old.row)) pool.old.zone pool.new.zone result }
    ensures words { AreTaken result words.old.row words.new.row }
{
    let zone = open_zone!(pool);
    let Some(row) = taken(words) else {
        return number(ZoneError::Range);
    };
    returned(zone.return_block(first, order, row), words)
}

/// Lends the words of the page that an address names, which is pinned. They are the caller's until `compactd_return_page`. Meanwhile no call
/// reads or writes them, and the page keeps a pin. Nothing is copied.
///
/// Refused as RANGE where a number is out of its range, as UNMAPPED, MOVING or NOT_PINNED, as LENT where they are lent already, as
/// OWN_MEMORY where the pool lies in memory of its own, or as CLOSED.
#[unsafe(no_mangle)]
pub extern "C" fn compactd_page_words(
    pool: &mut Pool,
    space: u32,
    vpage: u32,
    words: &mut HeldWords,
) -> u32
    ensures call { IsCall (page_words_refusal space vpage) (λ z. page_lent z (address_of space vpage)) pool.old.zone pool.new.zone result }
    ensures words { AreLent (λ z. values_at z (address_of space vpage) 0 z.page_size) (λ z. page_place z (address_of space vpage)) pool.old.zone result words.old.row words.new.row }
{
    let zone = open_zone!(pool);
    lent(zone.lend_page(space, vpage), words)
}

/// Takes back the words of a page that `compactd_page_words` lent, which no call tests. The page has what was left in them, as if the client had
/// stored each word.
///
/// Refused as RANGE where a number is out of its range or a page has another number of words, as JOURNAL_FULL where there aren't places
/// for a store of each word, as UNMAPPED or MOVING, or as CLOSED.
#[unsafe(no_mangle)]
pub extern "C" fn compactd_return_page(
    pool: &mut Pool,
    client: u32,
    space: u32,
    vpage: u32,
    words: &mut HeldWords,
) -> u32
    requires { (z : ZoneState) → pool.old.zone ≡ Some z → IfSome words.old.row (λ row. Some row.at ≡ page_place z (address_of space vpage)) }
    ensures call { IsCall (page_back_refusal client space vpage words.old.row) (λ z. page_returned z client (address_of space vpage) (words_in words.old.row)) pool.old.zone pool.new.zone result }
    ensures words { AreTaken result words.old.row words.new.row }
{
    let zone = open_zone!(pool);
    let Some(row) = taken(words) else {
        return number(ZoneError::Range);
    };
    returned(zone.return_page(client, space, vpage, row), words)
}
