//! What C calls to map or to unmap many pages, one after the other. C passes a pointer to the requests and then how many they are.

ghost use Rattle.std.specs.Prelude.{◌≡◌};
ghost use Rattle.compactd_c.specs.Batches.{after_turn, after_turns, all_answered, answered, first_refusal, IsBatch};

use crate::calls::{numbered, told};
use crate::pool::Pool;
use crate::zone::Zone;

/// A page that is to be mapped or unmapped, and what came of it.
#[repr(C)]
#[derive(Clone, Copy)]
pub struct PageRequest {
    pub space: u32,
    pub vpage: u32,
    /// 0 where a page that is to be mapped is movable.
    pub unmovable: u32,
    /// The frame of a page that was mapped.
    pub frame: u32,
    /// 0 where it was done, or else the number of the refusal.
    pub status: u32,
}

/// What is to be done with each page.
#[derive(Clone, Copy)]
enum Change {
    Map,
    Unmap,
}

/// Maps pages, one after the other, as `compactd_map` maps each. A request that is refused doesn't stop the others. Answers 0 where each
/// page was mapped, and else the number of the first refusal.
///
/// Refused as CLOSED.
#[unsafe(no_mangle)]
pub extern "C" fn compactd_map_many(
    pool: &mut Pool,
    client: u32,
    requests: &mut [PageRequest],
) -> u32
    ensures { IsBatch client Change.Map pool.old.zone pool.new.zone requests.old requests.new result }
{
    let zone = open_zone!(pool);
    change_all(zone, client, Change::Map, requests)
}

/// Makes addresses name no page any more, one after the other, as `compactd_unmap` does for each. A request that is refused doesn't stop
/// the others. Answers as `compactd_map_many` does.
///
/// Refused as CLOSED.
#[unsafe(no_mangle)]
pub extern "C" fn compactd_unmap_many(
    pool: &mut Pool,
    client: u32,
    requests: &mut [PageRequest],
) -> u32
    ensures { IsBatch client Change.Unmap pool.old.zone pool.new.zone requests.old requests.new result }
{
    let zone = open_zone!(pool);
    change_all(zone, client, Change::Unmap, requests)
}

/// Gives each request its turn, and answers the number of the first refusal, or 0.
fn change_all(zone: &mut Zone, client: u32, change: Change, requests: &mut [PageRequest]) -> u32
    ensures answer { result ≡ first_refusal requests.new }
    ensures zone { zone.new ≡ after_turns client change zone.old requests.old }
    ensures requests { requests.new ≡ all_answered client change zone.old requests.old }
{
    let mut first = 0;
    for request in requests.iter_mut() {
        change_one(zone, client, change, request);
        if first == 0 {
            first = request.status;
        }
    }
    first
}

/// Makes the call of a request, which gets its answer.
fn change_one(zone: &mut Zone, client: u32, change: Change, request: &mut PageRequest)
    ensures request { request.new ≡ answered client change zone.old request.old }
    ensures zone { zone.new ≡ after_turn client change zone.old request.old }
{
    let PageRequest { space, vpage, .. } = *request;
    request.status = match change {
        Change::Map => {
            let mapped = zone.map(client, space, vpage, request.unmovable != 0);
            told(mapped, &mut request.frame)
        }
        Change::Unmap => numbered(zone.unmap(client, space, vpage)),
    };
}
