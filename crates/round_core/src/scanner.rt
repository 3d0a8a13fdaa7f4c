ghost use Rattle.std.specs.Prelude.{◌≡◌, ◌+◌, ◌++◌, ◌<◌, ◌≤◌, [], false, None, Err, length, IfSome, IfNone, OnSome, IfOk, OnOk};
ghost use Rattle.std.specs.VecDeque.{deque_capacity};
ghost use Rattle.frame_core.specs.Serials.{HasSerialsFrom};
ghost use Rattle.round_core.specs.Counts.{CountsBack};
ghost use Rattle.round_core.specs.Crews.{IsNext};
ghost use Rattle.round_core.specs.Scanning.{HasMore, HasStopped, limit_at};

use crate::division::Division;
use crate::gate::{Gate, Point, SCANNER, tell_all};
use crate::keeping::Keeping;
use crate::memory::Pages;
use crate::round::Stop;
use crate::shared_zone::KeptIn;
use crate::under_lock::{begin_and_isolate, isolate_more, put_back_pages};
use frame_core::{Isolated, Serial};
use hand_core::{Batch, Giver};
use std::collections::VecDeque;
use std::sync::Wait;
use zone_core::{EndSeatIn, Opening, ScanSeatIn};

/// Isolates pages and gives them, as many at once as the empty list has room for, until the scanners meet, the journal is full or
/// the round is at its limit. Where the takers are gone, the pages that nobody took are put back, and the answer is an `Err`: with the least serial of
/// those that the zone refused, if there is one.
pub(crate) fn scan_all<K: Keeping, Z: Opening, G: Gate, R: Wait>(
    rt: &R,
    shared: &KeptIn<K, Z>,
    scan: &mut ScanSeatIn<Z>,
    ends: &mut EndSeatIn<Z>,
    giver: &mut Giver,
    pages: &mut Pages,
    gate: &G,
) -> Result<Stop, Option<Serial>>
    requires next { IsNext scan.old.count giver.old }
    requires pages { (pages.old.list.items ≡ []) × (0 < deque_capacity pages.old.list) }
    requires left { HasMore pages.old.left }
    requires begins { K.begins_at scan.old.count }
    ensures giver { giver.new ≡ record giver.old { given = giver.new.given } }
    ensures count { OnOk result (IsNext scan.new.count giver.new) }
    ensures stopped { IfOk result (HasStopped K.stops_at (limit_at scan.old.count pages.old.left) scan.new) }
    ensures rounds { scan.new.rounds ≡ scan.old.rounds + 1 }
    ensures ends { CountsBack ends.old ends.new }
    ensures back { OnOk result (ends.new.back ≡ ends.old.back) }
    // Where the zone refused none, each page that was counted was given or put back.
    ensures left { result ≡ Err None → giver.new.base + length giver.new.given + ends.new.back ≡ scan.new.count + ends.old.back }
{
    match isolate_and_give(rt, shared, scan, giver, pages, gate) {
        Some(stop) => Ok(stop),
        None => Err(put_back_pages(&mut shared.lock(rt), ends, &mut pages.list)),
    }
}

/// Isolates pages and gives them, as `scan_all` does. None where the takers are gone: then the list has the pages that nobody took.
fn isolate_and_give<K: Keeping, Z: Opening, G: Gate, R: Wait>(
    rt: &R,
    shared: &KeptIn<K, Z>,
    scan: &mut ScanSeatIn<Z>,
    giver: &mut Giver,
    pages: &mut Pages,
    gate: &G,
) -> Option<Stop>
    requires next { IsNext scan.old.count giver.old }
    requires pages { (pages.old.list.items ≡ []) × (0 < deque_capacity pages.old.list) }
    requires left { HasMore pages.old.left }
    requires begins { K.begins_at scan.old.count }
    ensures giver { giver.new ≡ record giver.old { given = giver.new.given } }
    ensures count { scan.new.count ≡ giver.new.base + length giver.new.given + length pages.new.list.items }
    ensures pages { OnSome result (pages.new.list.items ≡ []) }
    ensures stopped { IfSome result (HasStopped K.stops_at (limit_at scan.old.count pages.old.left) scan.new) }
    ensures rounds { scan.new.rounds ≡ scan.old.rounds + 1 }
{
    let Pages {
        division,
        list,
        left,
    } = pages;
    let mut stop = begin_and_isolate(&mut shared.lock(rt), scan, list, left);
    for _ in rt.forever() {
        give_all(rt, giver, list, *division, gate)?;
        if stop.is_some() {
            return stop;
        }
        stop = isolate_more(&mut shared.lock(rt), scan, list, left);
    }
    unreachable!()
}

/// Gives all pages, in their order and in batches. None where the takers are gone: then the list has the pages that nobody took.
fn give_all<G: Gate, R: Wait>(
    rt: &R,
    giver: &mut Giver,
    pages: &mut VecDeque<Isolated>,
    division: Division,
    gate: &G,
) -> Option<()>
    requires open { giver.old.closed ≡ false }
    requires serials { HasSerialsFrom (giver.old.base + length giver.old.given) pages.old.items }
    ensures giver { giver.new ≡ record giver.old { given = giver.new.given } }
    ensures given { giver.new.given ++ pages.new.items ≡ giver.old.given ++ pages.old.items }
    ensures count { length giver.new.given + length pages.new.items ≡ length giver.old.given + length pages.old.items }
    ensures pages { OnSome result (pages.new.items ≡ []) }
    ensures room { deque_capacity pages.new ≡ deque_capacity pages.old }
{
    tell_all(gate, Point::Isolated, SCANNER, pages.len());
    let batch_len = division.batch_len(pages.len(), giver.most());
    while let Some(batch) = first_of(pages, batch_len) {
        if let Err(refused) = giver.give_all(rt, batch) {
            put_in_front(pages, refused);
            return None;
        }
    }
    Some(())
}

/// Takes `batch_len` pages off the front, or all where there are fewer. None where there are none.
fn first_of(pages: &mut VecDeque<Isolated>, batch_len: usize) -> Option<Batch<Isolated>>
    requires { (0 < batch_len) × (batch_len ≤ 8) }
    ensures first { IfSome result (λ batch. pages.old.items ≡ batch.items ++ pages.new.items) }
    ensures few { IfSome result (λ batch. length batch.items ≤ batch_len) }
    ensures fewer { OnSome result (length pages.new.items < length pages.old.items) }
    ensures none { IfNone result ((pages.old.items ≡ []) × (pages.new.items ≡ [])) }
    ensures room { deque_capacity pages.new ≡ deque_capacity pages.old }
{
    let mut batch = Batch::new();
    while batch.len() < batch_len {
        let Some(page) = pages.pop_front() else {
            break;
        };
        batch.push(page);
    }
    if batch.is_empty() {
        return None;
    }
    Some(batch)
}

/// Puts the pages of a batch in front of the others, in their order.
fn put_in_front(pages: &mut VecDeque<Isolated>, mut batch: Batch<Isolated>)
    requires room { length pages.old.items + length batch.items ≤ deque_capacity pages.old }
    ensures pages { pages.new.items ≡ batch.items ++ pages.old.items }
    ensures room { deque_capacity pages.new ≡ deque_capacity pages.old }
{
    while let Some(page) = batch.pop() {
        pages.push_front_reserved(page);
    }
}
