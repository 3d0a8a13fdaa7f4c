//! What C calls to read the journal of a zone that keeps one.

ghost use Rattle.std.specs.Prelude.{◌≡◌, length, reverse, slice_get, None, Some};
ghost use Rattle.std.specs.Option.{option_map};
ghost use Rattle.compactd_c.specs.Answers.{IsAsked, IsTold};
ghost use Rattle.compactd_c.specs.Records.{of_client, of_zone, cause_of, record_of, record_refused};

use crate::calls::told;
use crate::looking::RESERVED;
use crate::pool::Pool;
use frame_core::{Address, Cause, ClientNo, Record as Entry};

/// A record of the journal. Numbers that its kind doesn't have are 0.
#[repr(C)]
#[derive(Clone, Copy)]
pub struct Record {
    /// 1 map, 2 share, 3 unmap, 4 store, 5 load, 6 pin, 7 unpin, 8 isolate, 9 moved, 10 put back, 11 take, 12 give, 13 mark, 14 unmark.
    pub kind: u32,
    pub client: u32,
    pub space: u32,
    pub vpage: u32,
    /// Of a map its page; of a share the space of its alias; of a store or a load its word; of an isolation, a move or a page that was put
    /// back its serial; of a block its first frame; of a mark its pageblock.
    pub number: u64,
    /// Of a share the virtual page of its alias; of an isolation its page; of a page that was put back 1 where it had a pin, and 2 where
    /// it wasn't copied; of a block its order.
    pub other: u64,
    /// The value of a store or a load.
    pub value: u64,
    pub reserved: [u64; 2],
}

/// Tells how many records the journal has, and how many places are left. The records of a journal that isn't kept count too.
///
/// Refused as CLOSED.
#[unsafe(no_mangle)]
pub extern "C" fn compactd_journal(pool: &mut Pool, records: &mut u64, room: &mut u64) -> u32
    ensures records { IsAsked (λ z. None) (λ z records. records ≡ length z.records) pool.old.zone pool.new.zone result records.old records.new }
    ensures room { IsTold (λ z room. room ≡ z.room) pool.old.zone result room.old room.new }
{
    let zone = open_zone!(pool);
    *records = zone.journal().len();
    *room = zone.journal().room();
    0
}

/// Tells a record of the journal, by its place: 0 is the oldest.
///
/// Refused as RANGE where the journal has no such record or isn't kept, or as CLOSED.
#[unsafe(no_mangle)]
pub extern "C" fn compactd_record_at(pool: &mut Pool, place: usize, entry: &mut Record) -> u32
    ensures { IsAsked (λ z. record_refused z place) (λ z entry. option_map record_of (slice_get (reverse z.records) place) ≡ Some entry) pool.old.zone pool.new.zone result entry.old entry.new }
{
    let zone = open_zone!(pool);
    told(zone.record(place).map(numbers_of), entry)
}

/// A record, in numbers.
fn numbers_of(entry: Entry) -> Record
    ensures { result ≡ record_of entry }
{
    match entry {
        Entry::Map {
            client,
            address,
            page,
        } => of_client(1, client, address, page.get(), 0, 0),
        Entry::Share {
            client,
            address,
            alias,
        } => of_client(2, client, address, alias.space.get(), alias.vpage.get(), 0),
        Entry::Unmap { client, address } => of_client(3, client, address, 0, 0, 0),
        Entry::Store {
            client,
            address,
            word,
            value,
        } => of_client(4, client, address, u32::from(word), 0, value),
        Entry::Load {
            client,
            address,
            word,
            value,
        } => of_client(5, client, address, u32::from(word), 0, value),
        Entry::Pin { client, address } => of_client(6, client, address, 0, 0, 0),
        Entry::Unpin { client, address } => of_client(7, client, address, 0, 0, 0),
        Entry::Isolate { serial, page } => of_zone(8, serial, page.get()),
        Entry::Moved { serial } => of_zone(9, serial, 0),
        Entry::Back { serial, cause } => of_zone(10, serial, cause_of(cause)),
        Entry::TakeHuge { frame, order } => of_zone(11, u64::from(frame.get()), order.get()),
        Entry::GiveHuge { frame, order } => of_zone(12, u64::from(frame.get()), order.get()),
        Entry::Mark { block } => of_zone(13, u64::from(block.get()), 0),
        Entry::Unmark { block } => of_zone(14, u64::from(block.get()), 0),
    }
}

/// A record of a client's call on an address.
fn of_client(
    kind: u32,
    client: ClientNo,
    address: Address,
    number: u32,
    other: u32,
    value: u64,
) -> Record
    ensures { result ≡ of_client kind client address number other value }
{
    Record {
        kind,
        client: client.get(),
        space: address.space.get(),
        vpage: address.vpage.get(),
        number: u64::from(number),
        other: u64::from(other),
        value,
        reserved: RESERVED,
    }
}

/// A record that names no client and no address.
fn of_zone(kind: u32, number: u64, other: u32) -> Record
    ensures { result ≡ of_zone kind number other }
{
    Record {
        kind,
        client: 0,
        space: 0,
        vpage: 0,
        number,
        other: u64::from(other),
        value: 0,
        reserved: RESERVED,
    }
}

/// The number of why a page was put back.
fn cause_of(cause: Cause) -> u32
    ensures { result ≡ cause_of cause }
{
    match cause {
        Cause::Pinned => 1,
        Cause::NotCopied => 2,
    }
}
