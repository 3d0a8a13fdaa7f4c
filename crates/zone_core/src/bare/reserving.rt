//! Reservations: the cheapest open runs are emptied and handed out.

ghost use Rattle.std.specs.Prelude.{◌≡◌, ◌+◌, ◌*◌, ◌/◌, ◌^◌, ◌<◌, ◌≤◌, ℕ, None, Some, true, false, [], ◌∷◌, is_some, length, nat_le, nat_lt, slice_index, IfNone, IfOk, IfSome, OnSome, OnOk, OnErr};
ghost use Rattle.std.specs.FinMap as map;
ghost use Rattle.std.specs.Result.{result_err};
ghost use Rattle.fewest_core.specs.Claims.{claim_refusal};
ghost use Rattle.fewest_core.specs.Evacuation.{is_beside, is_in_run, IsCarriedFrom};
ghost use Rattle.fewest_core.specs.FewestMoves.{cost, costs, is_open, is_shut, least, run_count};
ghost use Rattle.fewest_core.specs.Reservation.{blocks_taken, cleared, is_in_runs, rank, reserve_refusal, reserved, ArePicked};
ghost use Rattle.frame_core.specs.Below.{highest};
ghost use Rattle.frame_core.specs.Moves.{moved, out};
ghost use Rattle.state_core.specs.HandingOut.{is_run};
ghost use Rattle.state_core.specs.Valid.{IsValidZone};
ghost use Rattle.state_core.specs.ZoneState.{frame_count};
ghost use Rattle.zone_core.specs.Emptying.{HasEnough, IsEmptying};
ghost use Rattle.zone_core.specs.Reserving.{is_after, is_before, is_level, least_free, lower, next_rank, IsNext, IsOpenRun};
ghost use Rattle.zone_core.specs.ZoneIdentity.{HasIdentity};

use crate::bare::BareZone;
use crate::bare::evacuating::is_in_run;
use frame_core::{FrameNo, Order};
use state_core::ZoneError;

/// The open run of an order with the fewest pages.
#[derive(Clone, Copy, Debug, PartialEq, Eq)]
pub struct CheapestRun {
    /// Its first frame.
    pub first: FrameNo,
    /// How many pages it has.
    pub pages: u32,
}

/// An open run by its number among the runs of its size, and how many pages it has.
#[derive(Clone, Copy)]
pub struct OpenRun {
    number: u32,
    pages: u32,
}

impl OpenRun {
    /// Whether a run goes before another one: it has fewer pages, or as many and is lower.
    fn is_before(self, other: OpenRun) -> bool
        ensures { result ≡ is_before self other }
    {
        self.pages < other.pages || self.pages == other.pages && self.number < other.number
    }

    /// Whether it goes after a run, if there is one.
    fn is_after(self, last: Option<OpenRun>) -> bool
        ensures { result ≡ is_after self last }
    {
        match last {
            Some(last) => last.is_before(self),
            None => true,
        }
    }

    /// Whether it has as few pages as a run, or none where there is no such run. Then it goes before each higher run that goes after that
    /// one.
    fn is_level(self, last: Option<OpenRun>) -> bool
        ensures { result ≡ is_level self last }
    {
        match last {
            Some(last) => self.pages == last.pages,
            None => self.pages == 0,
        }
    }
}

impl<const W: usize> BareZone<W> {
    /// Hands out as many blocks of an order as `firsts` has places, and answers how many pages were moved for it. The cheapest open runs
    /// are picked, the lowest first of equals, and their first frames are written into `firsts` in this order. No list of moves that makes
    /// so many runs free is shorter than what is moved here (`fewest_moves`). The pages go, the lowest first, each to the highest free
    /// frame of an unmarked pageblock outside of these runs. From the first of them on the latest round isn't quiet any more.
    ///
    /// Refused as NoBlock where fewer runs are open, and where fewer frames of unmarked pageblocks are free than the blocks have frames.
    /// Else refused as JournalFull unless the journal has two places for each of the pages and one for each of the blocks, besides one for
    /// each page that is moving.
    pub fn reserve(&mut self, order: Order, firsts: &mut [FrameNo]) -> Result<u32, ZoneError>
        ensures refused { result_err result ≡ reserve_refusal self.old (length firsts.old) order }
        ensures err { OnErr result ((self.new ≡ self.old) × (firsts.new ≡ firsts.old)) }
        ensures pages { IfOk result (λ pages. pages ≡ least (length firsts.old) self.old (2 ^ order)) }
        ensures picked { OnOk result (ArePicked self.old order firsts.new) }
        ensures ok { OnOk result (self.new ≡ reserved self.old order firsts.new) }
        ensures moved { IfOk result (λ pages. moved self.new.records ≡ moved self.old.records + pages) }
        ensures taken { OnOk result ((place : ℕ) → place < length firsts.new → map.get self.new.handed_out (slice_index firsts.new place) ≡ Some order) }
        // The pages are as they were, but for the frames of those that went.
        ensures carried { OnOk result (IsCarriedFrom (is_in_runs firsts.new (2 ^ order)) self.old self.new) }
        ensures count { length firsts.new ≡ length firsts.old }
        ensures identity { HasIdentity self.old.number self.old.blocks self.new }
        ensures valid { IsValidZone self.new }
    {
        let pages = self.pages_to_reserve(order, firsts.len())?;
        self.pick(order, firsts);
        self.clear(order, firsts);
        self.hand_out_each(order, firsts);
        Ok(pages)
    }

    /// The open run of an order with the fewest pages, the lowest of equals, if a run is open. A run is open where no frame of it is in a
    /// marked pageblock, handed out, claimed, or of a page that is moving, pinned or unmovable.
    pub fn cheapest_run(&self, order: Order) -> Option<CheapestRun>
        ensures there { is_some result ≡ nat_lt 0 (length (costs self.now (2 ^ order))) }
        ensures picked { IfSome result (λ run. ArePicked self.now order (run.first ∷ [])) }
        ensures pages { IfSome result (λ run. run.pages ≡ cost self.now (2 ^ order) (run.first / 2 ^ order)) }
        // No other open run has fewer.
        ensures least { IfSome result (λ run. run.pages ≡ least 1 self.now (2 ^ order)) }
        ensures claim { IfSome result (λ run. claim_refusal self.now run.first order ≡ None) }
    {
        let run = self.next_open(order, None)?;
        let first = run_start(order, run.number);
        Some(CheapestRun {
            first,
            pages: run.pages,
        })
    }

    /// How many pages the cheapest open runs of an order have together, as many runs as `firsts` has places, or none where fewer are open.
    /// Their first frames are written into `firsts`, the cheapest first, and the lowest first of equals. Where there is no answer nothing is
    /// written. A run is open as `cheapest_run` says. Other runs may be the cheapest after the next call that changes the zone.
    pub fn cheapest_runs(&self, order: Order, firsts: &mut [FrameNo]) -> Option<u32>
        ensures there { is_some result ≡ nat_le (length firsts.old) (length (costs self.now (2 ^ order))) }
        ensures pages { IfSome result (λ pages. pages ≡ least (length firsts.old) self.now (2 ^ order)) }
        ensures picked { OnSome result (ArePicked self.now order firsts.new) }
        ensures none { IfNone result (firsts.new ≡ firsts.old) }
        ensures count { length firsts.new ≡ length firsts.old }
    {
        let pages = self.least_pages(order, firsts.len())?;
        self.pick(order, firsts);
        Some(pages)
    }

    /// How many pages move for so many blocks, or why their reservation is refused.
    fn pages_to_reserve(&self, order: Order, blocks: usize) -> Result<u32, ZoneError>
        ensures refused { result_err result ≡ reserve_refusal self.now blocks order }
        ensures pages { IfOk result (λ pages. pages ≡ least blocks self.now (2 ^ order)) }
        ensures valid { IsValidZone self.now }
    {
        let vacant = self.tables.vacant();
        let Some(pages) = self.least_pages(order, blocks) else {
            return Err(ZoneError::NoBlock);
        };
        let blocks = blocks as u32;
        if order.frames() * blocks > vacant {
            return Err(ZoneError::NoBlock);
        }
        if !self.tables.has_room_to_reserve(pages, blocks) {
            return Err(ZoneError::JournalFull);
        }
        Ok(pages)
    }

    /// The open run that is next in rank after a run, or the first one of all, if there is one.
    fn next_open(&self, order: Order, last: Option<OpenRun>) -> Option<OpenRun>
        requires { IfSome last (λ run. IsOpenRun self.now (2 ^ order) run) }
        ensures there { is_some result ≡ nat_lt (next_rank self.now (2 ^ order) last) (length (costs self.now (2 ^ order))) }
        ensures next { IfSome result (λ run. IsOpenRun self.now (2 ^ order) run) }
        ensures ranked { IfSome result (λ run. rank self.now (2 ^ order) run.number ≡ next_rank self.now (2 ^ order) last) }
        ensures valid { IsValidZone self.now }
    {
        if last.is_none() {
            if let Some(run) = self.free_run(order) {
                return Some(run);
            }
        }
        let mut next = None;
        let mut from = 0;
        // Of equals the lowest comes first, so a later run is asked for only if it has fewer pages.
        while let Some(number) = self
            .tables
            .next_run_with(order, from, least_free(order, next))
        {
            from = number + 1;
            let Some(run) = self.open_run(order, number) else {
                continue;
            };
            if run.is_after(last) {
                if run.is_level(last) {
                    return Some(run);
                }
                next = Some(run);
            }
        }
        next
    }

    /// The run of an order with this number, if it is open.
    fn open_run(&self, order: Order, number: u32) -> Option<OpenRun>
        requires { number < run_count self.now (2 ^ order) }
        ensures open { is_some result ≡ is_open self.now (2 ^ order) number }
        ensures run { IfSome result (λ run. IsOpenRun self.now (2 ^ order) run) }
        ensures number { IfSome result (λ run. run.number ≡ number) }
    {
        let pages = self.tables.pages_of(run_start(order, number), order)?;
        Some(OpenRun { number, pages })
    }

    /// The lowest free run, unless its pageblock is marked. No open run goes before it.
    fn free_run(&self, order: Order) -> Option<OpenRun>
        ensures next { IfSome result (λ run. IsOpenRun self.now (2 ^ order) run) }
        ensures ranked { IfSome result (λ run. rank self.now (2 ^ order) run.number ≡ 0) }
        ensures valid { IsValidZone self.now }
    {
        let first = self.tables.find_run(order)?;
        self.open_run(order, first.get() / order.frames())
    }

    /// How many pages the cheapest open runs have together, as many runs as are asked for, or none where fewer are open.
    fn least_pages(&self, order: Order, runs: usize) -> Option<u32>
        ensures there { is_some result ≡ nat_le runs (length (costs self.now (2 ^ order))) }
        ensures pages { IfSome result (λ pages. pages ≡ least runs self.now (2 ^ order)) }
    {
        let mut pages = 0;
        let mut last = None;
        for _ in 0..runs {
            let run = self.next_open(order, last)?;
            pages += run.pages;
            last = Some(run);
        }
        Some(pages)
    }

    /// Writes the first frames of the cheapest open runs, the cheapest first, and the lowest first of equals.
    fn pick(&self, order: Order, firsts: &mut [FrameNo])
        requires { length firsts.old ≤ length (costs self.now (2 ^ order)) }
        ensures picked { ArePicked self.now order firsts.new }
        ensures count { length firsts.new ≡ length firsts.old }
    {
        let mut last = None;
        for place in 0..firsts.len() {
            let Some(run) = self.next_open(order, last) else {
                unreachable!();
            };
            firsts[place] = run_start(order, run.number);
            last = Some(run);
        }
    }

    /// Moves each page of these runs to the highest free frame of an unmarked pageblock outside of them, the lowest page first.
    pub(crate) fn clear(&mut self, order: Order, firsts: &[FrameNo])
        requires within { (frame : ℕ) → is_in_runs firsts.now (2 ^ order) frame ≡ true → frame < frame_count self.old }
        requires open { (frame : ℕ) → is_in_runs firsts.now (2 ^ order) frame ≡ true → is_shut self.old frame ≡ false }
        requires enough { HasEnough (is_in_runs firsts.now (2 ^ order)) self.old }
        ensures cleared { self.new ≡ cleared (is_in_runs firsts.now (2 ^ order)) self.old (frame_count self.old) }
        ensures emptied { IsEmptying (is_in_runs firsts.now (2 ^ order)) self.old self.new (frame_count self.old) }
        ensures valid { IsValidZone self.new }
    {
        let mut top = 512 * self.blocks();
        let mut from = 0;
        while let Some(number) = next_in_runs(firsts, order, from) {
            from = number + 1;
            let source = frame_no(number);
            let Some(page) = self.tables.holder(source) else {
                continue;
            };
            let Some(target) = self.highest_beside(order, firsts, top) else {
                unreachable!();
            };
            self.tables.move_page(page, source, target);
            top = target.get();
        }
    }

    /// The highest frame below `top` that may take a page of these runs, if there is one: it is in none of them, and free, in an unmarked
    /// pageblock.
    fn highest_beside(&self, order: Order, firsts: &[FrameNo], top: u32) -> Option<FrameNo>
        requires { top ≤ frame_count self.now }
        ensures { result ≡ highest (is_beside (is_in_runs firsts.now (2 ^ order)) self.now) top }
    {
        let mut end = top;
        while let Some(frame) = self.tables.last_vacant(end) {
            if !is_in_runs(firsts, order, frame) {
                return Some(frame);
            }
            end = frame.get();
        }
        None
    }

    /// Hands out free blocks with these first frames, no two of which share a frame.
    fn hand_out_each(&mut self, order: Order, firsts: &[FrameNo])
        requires room { length (out self.old.records) + length firsts.now ≤ self.old.room }
        requires free { (place : ℕ) → place < length firsts.now → is_run self.old order (slice_index firsts.now place) ≡ true }
        requires apart { (a b frame : ℕ) → a < b → b < length firsts.now → is_in_run (slice_index firsts.now a) (2 ^ order) frame ≡ true → is_in_run (slice_index firsts.now b) (2 ^ order) frame ≡ false }
        ensures taken { self.new ≡ blocks_taken self.old order firsts.now (length firsts.now) }
        ensures valid { IsValidZone self.new }
    {
        for place in 0..firsts.len() {
            self.tables.hand_out(firsts[place], order);
        }
    }
}

/// Whether a frame is in one of the runs with these first frames.
fn is_in_runs(firsts: &[FrameNo], order: Order, frame: FrameNo) -> bool
    ensures { result ≡ is_in_runs firsts.now (2 ^ order) frame }
{
    for place in 0..firsts.len() {
        if is_in_run(firsts[place], order, frame) {
            return true;
        }
    }
    false
}

/// The lowest frame from one on that is in one of the runs with these first frames, if there is one.
fn next_in_runs(firsts: &[FrameNo], order: Order, from: u32) -> Option<u32>
    ensures { IsNext (is_in_runs firsts.now (2 ^ order)) from result }
{
    let mut next = None;
    for place in 0..firsts.len() {
        next = lower(next, next_in_run(firsts[place], order, from));
    }
    next
}

/// The lowest frame from one on that is in a run, if there is one.
fn next_in_run(first: FrameNo, order: Order, from: u32) -> Option<u32>
    ensures { IsNext (is_in_run first (2 ^ order)) from result }
{
    if from >= first.get() + order.frames() {
        return None;
    }
    Some(from.max(first.get()))
}

/// The lower of two frames, of which each may be none.
fn lower(one: Option<u32>, other: Option<u32>) -> Option<u32>
    ensures { result ≡ lower one other }
{
    match (one, other) {
        (Some(one), Some(other)) => Some(one.min(other)),
        (one, other) => one.or(other),
    }
}

/// The fewest free frames that an open run has if it has fewer pages than the given one; 0 where none is given.
fn least_free(order: Order, next: Option<OpenRun>) -> u32
    requires { IfSome next (λ run. run.pages ≤ 2 ^ order) }
    ensures { result ≡ least_free (2 ^ order) next }
{
    match next {
        Some(next) => order.frames() - next.pages + 1,
        None => 0,
    }
}

/// The frame with a number.
pub(crate) fn frame_no(number: u32) -> FrameNo
    requires { number < 16777216 }
    ensures { result ≡ number }
{
    let Some(frame) = FrameNo::in_any_zone(number) else {
        unreachable!();
    };
    frame
}

/// The first frame of a run.
fn run_start(order: Order, number: u32) -> FrameNo
    requires { 2 ^ order * number < 16777216 }
    ensures { result ≡ 2 ^ order * number }
{
    frame_no(order.frames() * number)
}
