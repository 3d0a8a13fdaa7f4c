//! Clients, each with a word of its own in every page.

use crate::Runtime;
use crate::opening::page;
use crate::times::nanos_since;
use client_core::Client;
use frame_core::WordNo;
use round_core::{SharedZone, ZoneIdentity};
use std::alloc::Global;
use std::sync::Wait;
use std::thread::for_each_mut;
use std::time::{Clock, Instant};
use zone_core::Opening;

/// The pages that clients use.
pub const PAGES: u32 = 64;

/// Calls that each client makes.
pub const CALLS: u32 = 8192;

/// Loads whose times are taken.
const LOADS: u32 = 10_000;

/// The word of a client.
fn word_of(client: &Client) -> Option<WordNo> {
    WordNo::new(client.number().get())
}

/// Lets at most four clients make their calls, each on a thread of its own. How long all calls take, in nanoseconds.
pub fn time_calls<K: ZoneIdentity + Send + Sync, Z: Opening + Send + Sync, R: Runtime>(
    rt: &R,
    shared: &SharedZone<K, Z>,
    clients: &mut [Client],
) -> Option<u64> {
    let start = Instant::now(rt).ok()?;
    use_all(rt, shared, clients);
    nanos_since(rt, &start).ok()
}

/// Lets each of at most four clients make its calls, on a thread of its own.
fn use_all<K: ZoneIdentity + Send + Sync, Z: Opening + Send + Sync, R: Runtime>(
    rt: &R,
    shared: &SharedZone<K, Z>,
    clients: &mut [Client],
) {
    for_each_mut(rt, clients, 4, &|_, client| use_pages(rt, shared, client));
}

/// Stores to the client's word of each page and loads it, by turns, until a call is refused.
fn use_pages<K: ZoneIdentity, Z: Opening, R: Wait>(
    rt: &R,
    shared: &SharedZone<K, Z>,
    client: &mut Client,
) {
    for turn in 0..CALLS / 2 {
        if use_page(rt, shared, client, turn).is_none() {
            break;
        }
    }
}

/// Stores to the client's word of the page whose turn it is, and loads it.
fn use_page<K: ZoneIdentity, Z: Opening, R: Wait>(
    rt: &R,
    shared: &SharedZone<K, Z>,
    client: &mut Client,
    turn: u32,
) -> Option<u64> {
    let word = word_of(client)?;
    client
        .store(rt, shared, page(turn % PAGES)?, word, u64::from(turn))
        .ok()?;
    client.load(rt, shared, page(turn % PAGES)?, word).ok()
}

/// Loads the client's word of each page in turn. How long each load takes, in nanoseconds.
pub fn time_loads<K: ZoneIdentity, Z: Opening, R: Wait + Clock>(
    rt: &R,
    alloc: Global,
    shared: &SharedZone<K, Z>,
    client: &mut Client,
) -> Option<Vec<u64>> {
    let mut nanos = Vec::new(alloc);
    for load in 0..LOADS {
        nanos.push(time_load(rt, shared, client, load)?).ok()?;
    }
    Some(nanos)
}

/// How long a load of the client's word of the page takes whose turn it is, in nanoseconds.
fn time_load<K: ZoneIdentity, Z: Opening, R: Wait + Clock>(
    rt: &R,
    shared: &SharedZone<K, Z>,
    client: &mut Client,
    turn: u32,
) -> Option<u64> {
    let (word, address) = (word_of(client)?, page(turn % PAGES)?);
    let start = Instant::now(rt).ok()?;
    client.load(rt, shared, address, word).ok()?;
    nanos_since(rt, &start).ok()
}
