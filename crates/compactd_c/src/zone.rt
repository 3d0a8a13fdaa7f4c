//! A zone whose pages have one of two sizes.

ghost use Rattle.std.specs.Prelude.{◌≡◌, ◌+◌, ◌<◌, ◌≤◌, ◌↔◌, ◌&&◌, ◌/◌, ◌^◌, ◌∷◌, [], nat_lt, true, ℕ, false, length, reverse, slice_get, Some, None, IsTrue, IsOk, IfOk, IfErr, OnOk, OnErr, IfSome};
ghost use Rattle.std.specs.FinMap as map;
ghost use Rattle.std.specs.Result.{result_err};
ghost use Rattle.fewest_core.specs.Claims.{claim_refusal, claimed_frames, claimed_taken, drop_refusal, step_refusal, stepped, take_claimed_refusal};
ghost use Rattle.fewest_core.specs.Evacuation.{evacuate_refusal, evacuated, is_in_run, IsCarriedOut};
ghost use Rattle.fewest_core.specs.FewestMoves.{cost, least};
ghost use Rattle.fewest_core.specs.Reservation.{reserve_refusal, reserved, ArePicked};
ghost use Rattle.frame_core.specs.Moves.{moved, out, put_back};
ghost use Rattle.frame_core.specs.declared.record.Cause.{Cause};
ghost use Rattle.keeper_core.specs.Keeping.{keep_refusal, take_refusal, IsKept, IsTaken};
ghost use Rattle.state_core.specs.Claiming.{run_claimed, run_dropped, with_apart};
ghost use Rattle.state_core.specs.Ending.{committed, ended_as, put_back_to_source};
ghost use Rattle.state_core.specs.HandingOut.{is_run};
ghost use Rattle.state_core.specs.Isolating.{isolate_refusal, next_state};
ghost use Rattle.state_core.specs.Looking.{look_of, info_of};
ghost use Rattle.state_core.specs.Marking.{marked_of};
ghost use Rattle.state_core.specs.Opening.{IsAllowed, IsOpenable, opened_sized, opened_with, places_of as opened_places};
ghost use Rattle.state_core.specs.Packed.{IsPacked};
ghost use Rattle.state_core.specs.Pairs.{HaveMet, next_pair};
ghost use Rattle.state_core.specs.Rounds.{round_begun};
ghost use Rattle.state_core.specs.ZoneState.{is_free, is_quiet};
ghost use Rattle.zone_core.specs.Counted.{IsCounted};
ghost use Rattle.zone_core.specs.FreeRuns.{fragmentation, maximal_runs};
ghost use Rattle.zone_tables.specs.MovingPages.{IsNextMoving, IsNoneMoving};
ghost use Rattle.zone_core.specs.OneThread.{last_of_slice, moved_at_most, all_moved};
ghost use Rattle.compactd_c.specs.Ranges.{address_of, is_address, is_block, is_order, ranged};
ghost use Rattle.compactd_c.specs.Keepers.{cheapest_refusal};
ghost use Rattle.compactd_c.specs.Answers.{IsMade};
ghost use Rattle.compactd_c.specs.Emptied.{IsEmptied, IsReserved};
ghost use Rattle.compactd_c.specs.Kinds.{IsPageSize};
ghost use Rattle.compactd_c.specs.Rounds.{IsCompacted};
ghost use Rattle.compactd_c.specs.Looks.{look_refusal, audit_refusal};
ghost use Rattle.compactd_c.specs.Records.{record_refused};
ghost use Rattle.compactd_c.specs.Told.{geometry_of, places_of};
ghost use Rattle.compactd_c.specs.Carried.{IsOwn, is_carried, is_moving, moving_page_of, words_of, isolate_refused, commit_refused};

/// What an expression of the zone comes to, whichever size its pages have.
macro_rules! of_zone {
    ($kind:expr, $zone:ident => $call:expr) => {
        match $kind {
            Kind::Small($zone) => $call,
            Kind::Large($zone) => $call,
        }
    };
}

mod calls;
mod lending;
mod lent_moves;

use crate::carrying::MovingPage;
use crate::looking::{Geometry, RESERVED};
use crate::ranges::{address, block};
use bitflags::Flags;
use frame_core::{
    BlockNo, ClientNo, FrameNo, IsolatedOf, Journal, Order, PageFlags, PageNo, PageOf, Record,
    ZoneNo,
};
use keeper_core::{Keeper, Step as KeeperStep, Taken};
use state_core::{Audit, Ended, Info, Look, Next, ZoneError, ZoneSize};
use std::alloc::Global;
use std::marker::Model;
use zone_core::{Answered, BareZone, CheapestRun, MovingPage as Found, Slice};

/// What came of a step that empties a run: how many pages were moved, and how many frames of the run aren't claimed yet.
#[derive(Clone, Copy)]
pub(crate) struct Step {
    pub(crate) moved: u32,
    pub(crate) unclaimed: u32,
}

/// The two kinds of zones.
#[derive(Drop)]
pub enum Kind {
    /// Pages of 64 bytes.
    Small(BareZone<8>),
    /// Pages of 4 KiB.
    Large(BareZone<512>),
}

/// A zone of either kind.
#[derive(Drop)]
pub struct Zone {
    kind: Kind,
}

impl Model for Zone {
    ghost use Rattle.state_core.specs.ZoneCode.{coded_zone};
    ghost use Rattle.state_core.specs.ZoneState.{ZoneState};
    ghost use Rattle.compactd_c.specs.Kinds.{state_in};

    ghost Value = { ZoneState };

    ghost coded = { coded_zone };

    ghost view = { λ z. state_in z.kind };
}

impl Zone {
    /// An empty zone of any size: pages of 8 or of 512 words, and a journal that keeps its records in so many places, or is unrecorded
    /// where that is none.
    pub(crate) fn open_sized(
        alloc: Global,
        page_words: u32,
        size: ZoneSize,
        places: Option<u32>,
    ) -> Result<Zone, ZoneError>
        ensures range { ¬ (IsPageSize page_words × IsAllowed size places) → result ≡ Err ZoneError.Range }
        ensures memory { IsPageSize page_words × IsAllowed size places → IfErr result (λ error. error ≡ ZoneError.Memory) }
        ensures zone { IfOk result (λ zone. zone ≡ opened_sized page_words 0 size (opened_places places)) }
    {
        let kind = match page_words {
            8 => Kind::Small(BareZone::open_sized(alloc, lowest(), size, places)?),
            512 => Kind::Large(BareZone::open_sized(alloc, lowest(), size, places)?),
            _ => return Err(ZoneError::Range),
        };
        Ok(Zone { kind })
    }

    /// An empty zone with so many places in its journal, 1 to 65,536.
    pub(crate) fn open(
        alloc: Global,
        page_words: u32,
        blocks: u32,
        places: u32,
    ) -> Result<Zone, ZoneError>
        ensures range { ¬ (IsPageSize page_words × IsOpenable blocks places) → result ≡ Err ZoneError.Range }
        ensures memory { IsPageSize page_words × IsOpenable blocks places → IfErr result (λ error. error ≡ ZoneError.Memory) }
        ensures zone { IfOk result (λ zone. zone ≡ opened_with page_words 0 blocks places) }
    {
        let kind = match page_words {
            8 => Kind::Small(BareZone::open(alloc, lowest(), blocks, places)?),
            512 => Kind::Large(BareZone::open(alloc, lowest(), blocks, places)?),
            _ => return Err(ZoneError::Range),
        };
        Ok(Zone { kind })
    }

    /// What is known of the page that an address names.
    pub(crate) fn look(&self, space: u32, vpage: u32) -> Result<Look, ZoneError>
        ensures refused { result_err result ≡ ranged (is_address space vpage) (look_refusal self.now (address_of space vpage)) }
        ensures value { IfOk result (λ look. look_of self.now (address_of space vpage) ≡ Some look) }
    {
        let address = address(space, vpage).ok_or(ZoneError::Range)?;
        of_zone!(&self.kind, zone => zone.look(address))
    }

    /// Whether a pageblock is marked.
    pub(crate) fn marked(&self, block: u32) -> Result<bool, ZoneError>
        ensures refused { result_err result ≡ ranged (nat_lt block 32768 && nat_lt block self.now.blocks) None }
        ensures value { IfOk result (λ marked. marked_of self.now block ≡ Some marked) }
    {
        let block = BlockNo::in_any_zone(block).ok_or(ZoneError::Range)?;
        let marked = of_zone!(&self.kind, zone => zone.marked(block));
        marked.ok_or(ZoneError::Range)
    }

    /// The counts of the zone.
    pub(crate) fn info(&self) -> Info
        ensures { result ≡ info_of self.now }
    {
        of_zone!(&self.kind, zone => zone.info())
    }

    /// What the zone was opened with.
    pub(crate) fn geometry(&self) -> Geometry
        ensures { result ≡ geometry_of self.now }
    {
        let (page_words, size) = of_zone!(&self.kind, zone => (zone.page_words(), zone.size()));
        Geometry {
            page_words: page_words as u32,
            blocks: size.blocks,
            places: self.places(),
            spaces: size.spaces,
            vpages: size.vpages,
            reserved: 0,
        }
    }

    /// How many places the journal has, used or not; 0 where no record is kept.
    fn places(&self) -> u64
        ensures { result ≡ places_of self.now }
    {
        let journal = self.journal();
        match journal.kept() {
            Some(_) => journal.len() + journal.room(),
            None => 0,
        }
    }

    /// How many free runs of an order, 0 to 9, lie in no larger one.
    pub(crate) fn free_runs(&self, order: u32) -> Result<u32, ZoneError>
        ensures refused { result_err result ≡ ranged (nat_lt order 10) None }
        ensures value { IfOk result (λ runs. runs ≡ maximal_runs self.now order) }
    {
        let runs = of_zone!(&self.kind, zone => zone.free_runs(order));
        runs.ok_or(ZoneError::Range)
    }

    /// The fragmentation index of an order, 0 to 9.
    pub(crate) fn fragmentation(&self, order: u32) -> Result<i32, ZoneError>
        ensures refused { result_err result ≡ ranged (nat_lt order 10) None }
        ensures value { IfOk result (λ index. index ≡ fragmentation self.now order) }
    {
        let index = of_zone!(&self.kind, zone => zone.fragmentation(order));
        index.ok_or(ZoneError::Range)
    }

    /// The moving page that leaves the lowest frame, of those that leave a frame from `from` on.
    pub(crate) fn next_moving(&self, from: FrameNo) -> Option<Found>
        ensures some { IfSome result (IsNextMoving self.now from) }
        ensures none { result ≡ None → IsNoneMoving self.now from }
    {
        of_zone!(&self.kind, zone => zone.next_moving(from))
    }

    /// Whether the latest round is quiet.
    pub(crate) fn quiet(&self) -> bool
        ensures { result ≡ is_quiet self.now }
    {
        of_zone!(&self.kind, zone => zone.quiet())
    }

    /// How many moves have ended.
    pub(crate) fn ended(&self) -> u64
        ensures { result ≡ moved self.now.records + put_back self.now.records }
    {
        of_zone!(&self.kind, zone => zone.ended())
    }

    /// What became of the pages that were isolated.
    pub(crate) fn audit(&self) -> Result<Audit, ZoneError>
        ensures refused { result_err result ≡ audit_refusal self.now }
        ensures counted { IfOk result (λ audit. IsCounted self.now audit) }
    {
        of_zone!(&self.kind, zone => zone.audit())
    }

    /// Begins a round.
    pub(crate) fn begin_round(&mut self)
        ensures { self.new ≡ round_begun self.old }
    {
        of_zone!(&mut self.kind, zone => zone.begin_round())
    }

    /// Ends the move of a page that wasn't copied.
    pub(crate) fn put_back(&mut self, serial: u64, number: u32) -> Result<(), ZoneError>
        ensures own { IsOk result ↔ IsTrue (is_carried self.old number serial) }
        ensures stranger { IfErr result (λ error. error ≡ ZoneError.Stranger) }
        ensures err { OnErr result (self.new ≡ self.old) }
        ensures ok { OnOk result (self.new ≡ put_back_to_source self.old serial number Cause.NotCopied) }
    {
        of_zone!(&mut self.kind, zone => {
            let number = page_no(zone, number).ok_or(ZoneError::Stranger)?;
            let page = PageOf::new(zone.number(), number);
            zone.put_back(IsolatedOf::new(serial, page))
                .or(Err(ZoneError::Stranger))
        })
    }

    /// Runs a whole round, and tells whether its scanners met; else the journal was full.
    pub(crate) fn compact(&mut self) -> bool
        ensures zone { self.new ≡ all_moved (round_begun self.old) }
        ensures met { IsTrue result → IsCompacted self.new }
        ensures full { (result ≡ false) ↔ (isolate_refusal self.new ≡ Some ZoneError.JournalFull) }
    {
        let stopped = of_zone!(&mut self.kind, zone => zone.compact());
        stopped == Answered::Met
    }

    /// Moves the next pages of a round, so many at most.
    pub(crate) fn move_pages(&mut self, most: u32) -> Slice
        ensures zone { self.new ≡ moved_at_most most self.old }
        ensures moved { moved self.new.records ≡ moved self.old.records + result.moved }
        ensures most { result.moved ≤ most }
        ensures last { result.last ≡ last_of_slice result.moved most (isolate_refusal self.new) }
        ensures met { result.last ≡ Answered.Met → IsCompacted self.new }
    {
        of_zone!(&mut self.kind, zone => zone.move_pages(most))
    }

    /// Empties a run of frames, and answers how many pages went out of it.
    pub(crate) fn evacuate(&mut self, first: u32, order: u32) -> Result<u32, ZoneError>
        ensures made { IsMade (λ z. ranged (is_block first order) (evacuate_refusal z first order)) (λ z. evacuated z first (2 ^ order)) self.old self.new result }
        ensures pages { IfOk result (λ pages. pages ≡ cost self.old (2 ^ order) (first / 2 ^ order)) }
        ensures moved { IfOk result (λ pages. moved self.new.records ≡ moved self.old.records + pages) }
        ensures empty { OnOk result (IsTrue (is_run self.new order first)) }
        ensures carried { OnOk result (IsCarriedOut first (2 ^ order) self.old self.new) }
    {
        let (first, order) = block(first, order).ok_or(ZoneError::Range)?;
        of_zone!(&mut self.kind, zone => zone.evacuate(first, order))
    }

    /// Hands out as many blocks as `firsts` has places, and answers how many pages were moved for it.
    pub(crate) fn reserve(&mut self, order: Order, firsts: &mut [FrameNo]) -> Result<u32, ZoneError>
        ensures refused { result_err result ≡ reserve_refusal self.old (length firsts.old) order }
        ensures err { OnErr result ((self.new ≡ self.old) × (firsts.new ≡ firsts.old)) }
        ensures ok { IfOk result (IsReserved order firsts.new self.old self.new) }
        ensures count { length firsts.new ≡ length firsts.old }
    {
        of_zone!(&mut self.kind, zone => zone.reserve(order, firsts))
    }

    /// Maps unmovable pages apart from the others from now on, or no longer.
    pub(crate) fn set_apart(&mut self, apart: bool)
        ensures { self.new ≡ with_apart self.old apart }
    {
        of_zone!(&mut self.kind, zone => zone.set_apart(apart))
    }

    /// Claims the free frames of an open run, and answers how many pages it has.
    pub(crate) fn claim(&mut self, first: u32, order: u32) -> Result<u32, ZoneError>
        ensures made { IsMade (λ z. ranged (is_block first order) (claim_refusal z first order)) (run_claimed first (2 ^ order)) self.old self.new result }
        ensures pages { IfOk result (λ pages. pages ≡ cost self.old (2 ^ order) (first / 2 ^ order)) }
        ensures shut { OnOk result ((frame : ℕ) → is_in_run first (2 ^ order) frame ≡ true → is_free self.new frame ≡ false) }
    {
        let (first, order) = block(first, order).ok_or(ZoneError::Range)?;
        of_zone!(&mut self.kind, zone => zone.claim(first, order))
    }

    /// Moves at most so many pages out of a run, and claims its frames that are free or that they leave.
    pub(crate) fn empty_some(
        &mut self,
        first: u32,
        order: u32,
        most: u32,
    ) -> Result<Step, ZoneError>
        ensures made { IsMade (λ z. ranged (is_block first order) (step_refusal z first order most)) (λ z. stepped first (2 ^ order) z most) self.old self.new result }
        ensures emptied { IfOk result (IsEmptied first order most self.old self.new) }
    {
        let (first, order) = block(first, order).ok_or(ZoneError::Range)?;
        of_zone!(&mut self.kind, zone => empty_some(zone, first, order, most))
    }

    /// Hands out a run whose frames are all claimed.
    pub(crate) fn take_claimed(&mut self, first: u32, order: u32) -> Result<(), ZoneError>
        ensures made { IsMade (λ z. ranged (is_block first order) (take_claimed_refusal z first order)) (λ z. claimed_taken z first order) self.old self.new result }
        ensures taken { OnOk result (map.get self.new.handed_out first ≡ Some order) }
    {
        let (first, order) = block(first, order).ok_or(ZoneError::Range)?;
        of_zone!(&mut self.kind, zone => zone.take_claimed(first, order))
    }

    /// Drops the claims of the frames of a run.
    pub(crate) fn drop_claim(&mut self, first: u32, order: u32) -> Result<(), ZoneError>
        ensures { IsMade (λ z. ranged (is_block first order) (drop_refusal z first order)) (run_dropped first (2 ^ order)) self.old self.new result }
    {
        let (first, order) = block(first, order).ok_or(ZoneError::Range)?;
        of_zone!(&mut self.kind, zone => zone.drop_claim(first, order))
    }

    /// The open run of an order with the fewest pages, the lowest of equals.
    pub(crate) fn cheapest_run(&self, order: u32) -> Result<CheapestRun, ZoneError>
        ensures refused { result_err result ≡ ranged (is_order order) (cheapest_refusal self.now order) }
        ensures picked { IfOk result (λ run. ArePicked self.now order (run.first ∷ [])) }
        ensures pages { IfOk result (λ run. run.pages ≡ cost self.now (2 ^ order) (run.first / 2 ^ order)) }
        ensures least { IfOk result (λ run. run.pages ≡ least 1 self.now (2 ^ order)) }
        ensures claim { IfOk result (λ run. claim_refusal self.now run.first order ≡ None) }
    {
        let order = Order::new(order).ok_or(ZoneError::Range)?;
        let run = of_zone!(&self.kind, zone => zone.cheapest_run(order));
        run.ok_or(ZoneError::NoBlock)
    }

    /// Makes a step of a keeper.
    pub(crate) fn keep(&mut self, keeper: &mut Keeper, most: u32) -> Result<KeeperStep, ZoneError>
        ensures refused { result_err result ≡ keep_refusal keeper.old self.old most }
        ensures err { OnErr result ((keeper.new ≡ keeper.old) × (self.new ≡ self.old)) }
        ensures ok { IfOk result (λ step. IsKept keeper.old self.old most step keeper.new self.new) }
    {
        of_zone!(&mut self.kind, zone => keeper.step(zone, most))
    }

    /// Takes a block from a keeper.
    pub(crate) fn take_kept(&mut self, keeper: &mut Keeper) -> Result<Taken, ZoneError>
        ensures refused { result_err result ≡ take_refusal keeper.old self.old }
        ensures err { OnErr result ((keeper.new ≡ keeper.old) × (self.new ≡ self.old)) }
        ensures ok { IfOk result (λ taken. IsTaken keeper.old self.old taken keeper.new self.new) }
    {
        of_zone!(&mut self.kind, zone => keeper.take(zone))
    }

    /// Isolates the next page of a round, whose words go where C wants them. There is none where the scanners have met.
    pub(crate) fn isolate(&mut self, words: &mut [u64]) -> Result<Option<MovingPage>, ZoneError>
        ensures refused { result_err result ≡ isolate_refused self.old (length words.old) }
        ensures err { OnErr result ((self.new ≡ self.old) × (words.new ≡ words.old)) }
        ensures page { IfOk result (λ page. page ≡ moving_page_of self.old (next_pair self.old)) }
        ensures words { OnOk result (words.new ≡ words_of self.old (next_pair self.old) words.old) }
        ensures met { result ≡ Ok None → HaveMet self.old × (words.new ≡ words.old) }
        ensures packed { result ≡ Ok None → is_quiet self.new ≡ true → length (out self.new.records) ≡ 0 → IsPacked self.new }
        ensures ok { OnOk result (self.new ≡ next_state self.old (next_pair self.old)) }
    {
        of_zone!(&mut self.kind, zone => {
            if words.len() != zone.page_words() {
                return Err(ZoneError::Range);
            }
            match zone.isolate_next() {
                Ok(Next::Page(isolated)) => {
                    words.copy_from_slice(isolated.page().words());
                    Ok(Some(MovingPage {
                        serial: isolated.serial(),
                        number: isolated.page_no().get(),
                        flags: u32::from(isolated.page().flags().bits()),
                        reserved: RESERVED,
                    }))
                }
                Ok(Next::Met) => Ok(None),
                Err(error) => Err(error),
            }
        })
    }

    /// Ends the move of a page that C copied.
    pub(crate) fn commit(
        &mut self,
        serial: u64,
        number: u32,
        words: &[u64],
    ) -> Result<Ended, ZoneError>
        ensures own { IsOk result ↔ IsOwn self.old serial number words.now }
        ensures refused { IfErr result (λ error. error ≡ commit_refused self.old (length words.now)) }
        ensures err { OnErr result (self.new ≡ self.old) }
        ensures ended { IfOk result (λ ended. ended ≡ ended_as self.old number) }
        ensures ok { OnOk result (self.new ≡ committed self.old serial number) }
    {
        of_zone!(&mut self.kind, zone => commit(zone, serial, number, words))
    }

    /// A record of the journal, by its place.
    pub(crate) fn record(&self, place: usize) -> Result<Record, ZoneError>
        ensures refused { result_err result ≡ record_refused self.now place }
        ensures value { IfOk result (λ entry. slice_get (reverse self.now.records) place ≡ Some entry) }
    {
        let records = self.journal().kept().ok_or(ZoneError::Range)?;
        let entry = records.get(place).ok_or(ZoneError::Range)?;
        Ok(*entry)
    }

    /// The journal of the zone.
    pub(crate) fn journal(&self) -> &Journal
        ensures records { result.now.records ≡ self.now.records }
        ensures room { result.now.room ≡ self.now.room }
    {
        of_zone!(&self.kind, zone => zone.journal())
    }
}

/// The number of each zone for C, 0: a pool has one zone.
fn lowest() -> ZoneNo
    ensures { result ≡ 0 }
{
    let Some(number) = ZoneNo::new(0) else {
        unreachable!();
    };
    number
}

fn empty_some<const W: usize>(
    zone: &mut BareZone<W>,
    first: FrameNo,
    order: Order,
    most: u32,
) -> Result<Step, ZoneError>
    ensures made { IsMade (λ z. step_refusal z first order most) (λ z. stepped first (2 ^ order) z most) zone.old zone.new result }
    ensures emptied { IfOk result (IsEmptied first order most zone.old zone.new) }
{
    let moved = zone.empty_some(first, order, most)?;
    let Some(claimed) = zone.claimed_frames(first, order) else {
        unreachable!();
    };
    Ok(Step {
        moved,
        unclaimed: order.frames() - claimed,
    })
}

/// The number of a page, if the zone may have such a page: there are as many as it has frames.
fn page_no<const W: usize>(zone: &BareZone<W>, number: u32) -> Option<PageNo>
    ensures number { IfSome result (λ page. page ≡ number) }
    ensures none { result ≡ None → (serial : ℕ) → is_moving zone.now number serial ≡ false }
{
    if number >= 512 * zone.blocks() {
        return None;
    }
    PageNo::in_any_zone(number)
}

fn commit<const W: usize>(
    zone: &mut BareZone<W>,
    serial: u64,
    number: u32,
    words: &[u64],
) -> Result<Ended, ZoneError>
    requires { W ≤ 65536 }
    ensures own { IsOk result ↔ IsOwn zone.old serial number words.now }
    ensures refused { IfErr result (λ error. error ≡ commit_refused zone.old (length words.now)) }
    ensures err { OnErr result (zone.new ≡ zone.old) }
    ensures ended { IfOk result (λ ended. ended ≡ ended_as zone.old number) }
    ensures ok { OnOk result (zone.new ≡ committed zone.old serial number) }
{
    if words.len() != zone.page_words() {
        return Err(ZoneError::Range);
    }
    let number = page_no(zone, number).ok_or(ZoneError::Stranger)?;
    let mut held = [0; W];
    held.copy_from_slice(words);
    let page = PageOf::carrying(zone.number(), number, PageFlags::empty(), held);
    zone.commit(IsolatedOf::new(serial, page).copy_into_new())
        .or(Err(ZoneError::Stranger))
}
