//! Steps under one hold of the lock. Each leaves what the lock keeps, as the type of what is under it says.

ghost use Rattle.std.specs.Prelude.{◌≡◌, ◌⊎◌, ◌↔◌, ℕ, ◌+◌, ◌<◌, ◌≤◌, [], true, false, length, Some, None, IfSome, IfNone, IfOk, IfErr, OnOk, OnErr};
ghost use Rattle.std.specs.VecDeque.{deque_capacity};
ghost use Rattle.zone_core.specs.Seats.{seat_begun};
ghost use Rattle.state_core.specs.Ending.{IsOwnCopy, is_own, put_back_to_source};
ghost use Rattle.round_core.specs.Counts.{CountsBack};
ghost use Rattle.round_core.specs.PuttingBack.{all_put_back};
ghost use Rattle.round_core.specs.Scanning.{HasBegun, HasIsolated, HasMore, HasStopped, limit_at};

use crate::keeping::Keeping;
use crate::round::Stop;
use crate::shared_zone::RoomIn;
use frame_core::{Cause, Copied, Isolated, Serial};
use std::collections::VecDeque;
use zone_core::{Answered, EndSeatIn, Next, Opening, ScanSeatIn};

/// Begins a round, and isolates pages into the empty list, in their order, until the list is full. Where it stops before, the
/// answer says why.
#[tactic(auto, using(crate::proofs::Begun::begun_first))]
pub(crate) fn begin_and_isolate<K: Keeping, Z: Opening>(
    room: &mut RoomIn<K, Z>,
    scan: &mut ScanSeatIn<Z>,
    pages: &mut VecDeque<Isolated>,
    left: &mut Option<u32>,
) -> Option<Stop>
    requires begins { K.begins_at scan.old.count }
    requires pages { (pages.old.items ≡ []) × (0 < deque_capacity pages.old) }
    requires left { HasMore left.old }
    ensures isolated { HasIsolated K.stops_at (limit_at scan.old.count left.old) scan.old scan.new pages.new.items result }
    ensures limit { limit_at scan.new.count left.new ≡ limit_at scan.old.count left.old }
    ensures left { IfNone result (HasMore left.new) }
    ensures rounds { scan.new.rounds ≡ scan.old.rounds + 1 }
    ensures goes_on { IfNone result (HasBegun K.begins_at scan.new.count) }
    ensures room { deque_capacity pages.new ≡ deque_capacity pages.old }
{
    begin_round(room, scan);
    isolate_pages(room, scan, pages, left)
}

/// Begins a round of the scanner.
fn begin_round<K: Keeping, Z: Opening>(room: &mut RoomIn<K, Z>, scan: &mut ScanSeatIn<Z>)
    requires { K.begins_at scan.old.count }
    ensures seat { scan.new ≡ seat_begun scan.old }
    ensures keeps { K.keeps_scanning room.new }
{
    room.zone.begin_round(scan);
}

/// Goes on with a round that has begun: isolates pages into the empty list, in their order, until the list is full. Where it stops
/// before, the answer says why.
#[tactic(auto, using(crate::proofs::Begun::begun_more))]
pub(crate) fn isolate_more<K: Keeping, Z: Opening>(
    room: &mut RoomIn<K, Z>,
    scan: &mut ScanSeatIn<Z>,
    pages: &mut VecDeque<Isolated>,
    left: &mut Option<u32>,
) -> Option<Stop>
    requires goes_on { HasBegun K.begins_at scan.old.count }
    requires pages { (pages.old.items ≡ []) × (0 < deque_capacity pages.old) }
    requires left { HasMore left.old }
    ensures isolated { HasIsolated K.stops_at (limit_at scan.old.count left.old) scan.old scan.new pages.new.items result }
    ensures limit { limit_at scan.new.count left.new ≡ limit_at scan.old.count left.old }
    ensures left { IfNone result (HasMore left.new) }
    ensures rounds { scan.new.rounds ≡ scan.old.rounds }
    ensures goes_on { IfNone result (HasBegun K.begins_at scan.new.count) }
    ensures room { deque_capacity pages.new ≡ deque_capacity pages.old }
{
    go_on(room, scan);
    isolate_pages(room, scan, pages, left)
}

/// Shows that the scanner may go on with a round that has begun.
fn go_on<K: Keeping, Z: Opening>(room: &mut RoomIn<K, Z>, scan: &mut ScanSeatIn<Z>)
    requires { HasBegun K.begins_at scan.old.count }
    ensures seat { scan.new ≡ scan.old }
    ensures keeps { K.keeps_scanning room.new }
{
    room.zone.show_count(scan);
}

/// Isolates pages into the empty list, in their order, until the list is full. Where it stops before, the answer says why.
fn isolate_pages<K: Keeping, Z: Opening>(
    room: &mut RoomIn<K, Z>,
    scan: &mut ScanSeatIn<Z>,
    pages: &mut VecDeque<Isolated>,
    left: &mut Option<u32>,
) -> Option<Stop>
    requires keeps { K.keeps_scanning room.old }
    requires empty { (pages.old.items ≡ []) × (0 < deque_capacity pages.old) }
    requires left { HasMore left.old }
    ensures isolated { HasIsolated K.stops_at (limit_at scan.old.count left.old) scan.old scan.new pages.new.items result }
    ensures limit { limit_at scan.new.count left.new ≡ limit_at scan.old.count left.old }
    ensures left { IfNone result (HasMore left.new) }
    ensures rounds { scan.new.rounds ≡ scan.old.rounds }
    ensures more { IfNone result (scan.old.count < scan.new.count) }
    ensures room { deque_capacity pages.new ≡ deque_capacity pages.old }
{
    while pages.len() < pages.capacity() {
        match isolate_page(room, scan) {
            Ok(page) => pages.push_back_reserved(page),
            Err(stop) => return Some(stop),
        }
        if count_down(left) {
            return Some(Stop::Most);
        }
    }
    None
}

/// Isolates the next page. Where the scanner stops in its place, the answer says why.
fn isolate_page<K: Keeping, Z: Opening>(
    room: &mut RoomIn<K, Z>,
    scan: &mut ScanSeatIn<Z>,
) -> Result<Isolated, Stop>
    requires { K.keeps_scanning room.old }
    ensures serial { IfOk result (λ page. page.serial ≡ scan.old.count) }
    ensures count { OnOk result (scan.new.count ≡ scan.old.count + 1) }
    ensures answer { OnOk result (scan.new.last ≡ Some Answered.Page) }
    ensures same { OnErr result (scan.new.count ≡ scan.old.count) }
    ensures rounds { scan.new.rounds ≡ scan.old.rounds }
    ensures stopped { IfErr result (HasStopped K.stops_at None scan.new) }
    ensures keeps { K.keeps_scanning room.new }
{
    match room.zone.isolate_next(scan) {
        Ok(Next::Page(page)) => Ok(page),
        Ok(Next::Met) => Err(Stop::Met),
        Err(_) => Err(Stop::JournalFull),
    }
}

/// Counts a page that was isolated. The answer is whether the round may isolate no more.
fn count_down(left: &mut Option<u32>) -> bool
    requires { HasMore left.old }
    ensures limit { (count : ℕ) → limit_at (count + 1) left.new ≡ limit_at count left.old }
    ensures last { result ≡ true → left.new ≡ Some 0 }
    ensures more { result ≡ false → HasMore left.new }
{
    let Some(more) = left else {
        return false;
    };
    *more -= 1;
    *more == 0
}

/// Commits all copies, in their order. The answer is the least serial of those that were refused now or before, if there is one.
pub(crate) fn commit_copies<K: Keeping, Z: Opening>(
    room: &mut RoomIn<K, Z>,
    seat: &mut EndSeatIn<Z>,
    copies: &mut VecDeque<Copied>,
    mut stranger: Option<Serial>,
) -> Option<Serial>
    ensures back { K.unpinned → seat.new.back ≡ seat.old.back }
    ensures copies { copies.new.items ≡ [] }
    ensures parts { seat.new.parts ≡ seat.old.parts }
    // One that was refused before stays refused, under its serial or a lesser one.
    ensures least { IfSome stranger (λ before. (now : ℕ) × (result ≡ Some now) × (now ≤ before)) }
{
    while let Some(copy) = copies.pop_front() {
        stranger = least(stranger, commit_copy(room, seat, copy));
    }
    stranger
}

/// Commits a copy. The answer is its serial if it was refused.
fn commit_copy<K: Keeping, Z: Opening>(
    room: &mut RoomIn<K, Z>,
    seat: &mut EndSeatIn<Z>,
    copy: Copied,
) -> Option<Serial>
    ensures own { result ≡ None ↔ IsOwnCopy room.old copy }
    ensures serial { IfSome result (λ serial. serial ≡ copy.serial) }
    ensures back { K.unpinned → seat.new.back ≡ seat.old.back }
    ensures parts { seat.new.parts ≡ seat.old.parts }
{
    match room.zone.commit(seat, copy) {
        Ok(_) => None,
        Err(refused) => Some(refused.0.serial()),
    }
}

/// Puts all pages back, in their order. The answer is the least serial of those that were refused, if there is one.
pub(crate) fn put_back_pages<K: Keeping, Z: Opening>(
    room: &mut RoomIn<K, Z>,
    seat: &mut EndSeatIn<Z>,
    pages: &mut VecDeque<Isolated>,
) -> Option<Serial>
    ensures put_back { result ≡ None → room.new ≡ all_put_back room.old pages.old.items }
    ensures back { result ≡ None → seat.new.back ≡ seat.old.back + length pages.old.items }
    ensures seat { CountsBack seat.old seat.new }
    ensures pages { pages.new.items ≡ [] }
    ensures room { deque_capacity pages.new ≡ deque_capacity pages.old }
{
    let mut stranger = None;
    while let Some(page) = pages.pop_front() {
        stranger = least(stranger, put_back_page(room, seat, page));
    }
    stranger
}

/// Puts a page back. The answer is its serial if it was refused.
fn put_back_page<K: Keeping, Z: Opening>(
    room: &mut RoomIn<K, Z>,
    seat: &mut EndSeatIn<Z>,
    page: Isolated,
) -> Option<Serial>
    ensures own { result ≡ None ↔ (is_own room.old page ≡ true) }
    ensures serial { IfSome result (λ serial. serial ≡ page.serial) }
    ensures put_back { result ≡ None → room.new ≡ put_back_to_source room.old page.serial page.page.number Cause.NotCopied }
    ensures back { result ≡ None → seat.new.back ≡ seat.old.back + 1 }
    ensures seat { CountsBack seat.old seat.new }
{
    match room.zone.put_back(seat, page) {
        Ok(()) => None,
        Err(refused) => Some(refused.0.serial()),
    }
}

/// The least of two serials, of which each may be none.
pub(crate) fn least(one: Option<Serial>, other: Option<Serial>) -> Option<Serial>
    ensures none { result ≡ None → (one ≡ None) × (other ≡ None) }
    ensures some { IfSome result (λ serial. (one ≡ Some serial) ⊎ (other ≡ Some serial)) }
    ensures least { IfSome result (λ serial. IfSome one (λ n. serial ≤ n) × IfSome other (λ n. serial ≤ n)) }
{
    match (one, other) {
        (Some(one), Some(other)) => Some(one.min(other)),
        (one, other) => one.or(other),
    }
}
