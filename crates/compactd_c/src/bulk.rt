//! What C calls to read and write several words: of a page, and of a block that was handed out. C passes a pointer to the words and then
//! how many they are.

ghost use Rattle.std.specs.Prelude.{◌≡◌, ◌&&◌, nat_lt, length};
ghost use Rattle.compactd_c.specs.Answers.{IsAsked, IsCall, IsTold};
ghost use Rattle.compactd_c.specs.Ranges.{address_of, is_address, is_client, is_block, ranged};
ghost use Rattle.state_core.specs.Bulk.{bulk_refusal, values_at, loaded_all, stored_all};
ghost use Rattle.state_core.specs.Contents.{contents_refusal, contents_from, contents_written};

use crate::calls::numbered;
use crate::pool::Pool;

/// Reads words of the page that an address names, from one on: as loads of these words do, one after the other.
///
/// Refused as RANGE where a number is out of its range or the words go past the page, as JOURNAL_FULL, UNMAPPED or MOVING, or as
/// CLOSED.
#[unsafe(no_mangle)]
pub extern "C" fn compactd_read(
    pool: &mut Pool,
    client: u32,
    space: u32,
    vpage: u32,
    from: u32,
    values: &mut [u64],
) -> u32
    ensures call { IsCall (λ z. ranged (is_client client && (is_address space vpage && nat_lt from z.page_size)) (bulk_refusal z (address_of space vpage) from (length values.old))) (λ z. loaded_all z client (address_of space vpage) from (length values.old)) pool.old.zone pool.new.zone result }
    ensures values { IsTold (λ z got. got ≡ values_at z (address_of space vpage) from (length values.old)) pool.old.zone result values.old values.new }
{
    let zone = open_zone!(pool);
    numbered(zone.read(client, space, vpage, from, values))
}

/// Writes words of the page that an address names, from one on: as stores of these values do, one after the other.
///
/// Refused as `compactd_read` is.
#[unsafe(no_mangle)]
pub extern "C" fn compactd_write(
    pool: &mut Pool,
    client: u32,
    space: u32,
    vpage: u32,
    from: u32,
    values: &[u64],
) -> u32
    ensures call { IsCall (λ z. ranged (is_client client && (is_address space vpage && nat_lt from z.page_size)) (bulk_refusal z (address_of space vpage) from (length values.now))) (λ z. stored_all z client (address_of space vpage) from values.now) pool.old.zone pool.new.zone result }
{
    let zone = open_zone!(pool);
    numbered(zone.write(client, space, vpage, from, values))
}

/// Reads words of a block that was handed out, from one on: of its 2^order frames, one after the other. A fresh block holds zeros.
///
/// Refused as RANGE where a number is out of its range or the words go past the block, as NOT_HUGE where no such block was handed
/// out, or as CLOSED.
#[unsafe(no_mangle)]
pub extern "C" fn compactd_read_block(
    pool: &mut Pool,
    first: u32,
    order: u32,
    from: usize,
    values: &mut [u64],
) -> u32
    ensures { IsAsked (λ z. ranged (is_block first order) (contents_refusal z first order from (length values.old))) (λ z got. got ≡ contents_from z first from (length values.old)) pool.old.zone pool.new.zone result values.old values.new }
{
    let zone = open_zone!(pool);
    numbered(zone.read_block(first, order, from, values))
}

/// Writes words of a block that was handed out, from one on.
///
/// Refused as `compactd_read_block` is.
#[unsafe(no_mangle)]
pub extern "C" fn compactd_write_block(
    pool: &mut Pool,
    first: u32,
    order: u32,
    from: usize,
    values: &[u64],
) -> u32
    ensures call { IsCall (λ z. ranged (is_block first order) (contents_refusal z first order from (length values.now))) (λ z. contents_written z first from values.now) pool.old.zone pool.new.zone result }
{
    let zone = open_zone!(pool);
    numbered(zone.write_block(first, order, from, values))
}
