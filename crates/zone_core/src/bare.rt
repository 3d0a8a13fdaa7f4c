//! A zone without ledgers, as one thread alone has it.

ghost use Rattle.std.specs.Prelude.{◌≡◌, ◌+◌, ◌/◌, ◌^◌, ◌≤◌, ◌&&◌, ◌↔◌, ℕ, true, Option, Some, None, is_some, if◌then◌else◌, IsTrue, IfOk, IfErr};
ghost use Rattle.frame_core.specs.declared.record.Record.{Record};
ghost use Rattle.state_core.specs.Clear.{BlocksAreApart, BlocksAreClear};
ghost use Rattle.state_core.specs.Valid.{IsValidZone};
ghost use Rattle.state_core.specs.Looking.{look_of, info_of};
ghost use Rattle.state_core.specs.Marking.{marked_of};
ghost use Rattle.state_core.specs.Opening.{IsAllowed, IsOpenable, IsSize, opened_sized, opened_unrecorded, opened_with, places_of, size_of};
ghost use Rattle.state_core.specs.Packed.{IsPacked, IsPlacement, unmarked_free, marked_whole, free_runs, left_whole, left_runs, places_now};
ghost use Rattle.state_core.specs.Swept.{IsSwept};
ghost use Rattle.state_core.specs.ZoneState.{frame_count, noted, keeps_quiet, is_quiet};
ghost use Rattle.std.specs.Result.{result_err};

mod calls;
mod claiming;
mod evacuating;
mod free_runs;
mod lending;
mod lent_moves;
mod moving;
mod one_thread;
mod reserving;
mod rounds;
mod tables;
mod words;

use frame_core::{Address, BlockNo, Journal, ZoneNo};
pub use one_thread::Slice;
pub use reserving::CheapestRun;
use state_core::{Info, Look, ZoneError, ZoneSize};
use std::alloc::Global;
use std::marker::Model;
use zone_tables::ZoneTables;

/// A zone of 1 to 32,768 pageblocks, whose pages have `W` words, 65,536 at most. It has no ledgers, so its type doesn't name its opening,
/// and its calls take no seats: it is for programs in which one thread moves pages. What is said of refusals, of memory and of the two
/// kinds of journal at `ZoneOf` holds here too.
pub struct BareZone<const W: usize> {
    tables: Box<ZoneTables<W>>,
    // A page has at most 65,536 words.
    ghost size: { W ≤ 65536 },
}

// Written out, so that the crates above have nothing to prove of its parts.
impl<const W: usize> Drop for BareZone<W> {
    fn drop(self) {
        let BareZone { tables: _tables } = self;
    }
}

impl<const W: usize> Model for BareZone<W> {
    ghost use Rattle.state_core.specs.Valid.{IsValidZone};
    ghost use Rattle.state_core.specs.ZoneState.{ZoneState};
    ghost use Rattle.state_core.specs.ZoneCode.{coded_zone};

    ghost Value = { ZoneState };

    ghost coded = { coded_zone };

    ghost view = { λ z. z.tables.value };

    ghost invariant = { λ z. IsValidZone z.tables.value };
}

/// The places of the longest journal that is kept.
const MOST_PLACES: u32 = 65536;

impl<const W: usize> BareZone<W> {
    /// An empty zone with this many pageblocks and this many places in its journal, and with 8 address spaces of 4,096 virtual pages.
    ///
    /// Refused as Range unless there are 1 to 8 pageblocks and 1 to 65,536 places, else as Memory where there isn't enough.
    pub fn open(
        alloc: Global,
        number: ZoneNo,
        blocks: u32,
        places: u32,
    ) -> Result<BareZone<W>, ZoneError>
        requires size { W ≤ 65536 }
        ensures range { ¬ (IsOpenable blocks places) → result ≡ Err ZoneError.Range }
        ensures memory { IsOpenable blocks places → IfErr result (λ error. error ≡ ZoneError.Memory) }
        ensures zone { IfOk result (λ zone. zone ≡ opened_with W number blocks places) }
        ensures valid { IfOk result (λ zone. IsValidZone zone) }
    {
        if blocks > 8 {
            return Err(ZoneError::Range);
        }
        Self::open_sized(alloc, number, ZoneSize::of_blocks(blocks), Some(places))
    }

    /// An empty zone whose journal is unrecorded, with this many pageblocks and with 8 address spaces of 4,096 virtual pages. The records
    /// exist in the proofs alone, and there is room for 2^53.
    ///
    /// Refused as Range unless there are 1 to 32,768 pageblocks, else as Memory where there isn't enough.
    pub fn open_unrecorded(
        alloc: Global,
        number: ZoneNo,
        blocks: u32,
    ) -> Result<BareZone<W>, ZoneError>
        requires size { W ≤ 65536 }
        ensures range { ¬ (IsSize blocks) → result ≡ Err ZoneError.Range }
        ensures memory { IsSize blocks → IfErr result (λ error. error ≡ ZoneError.Memory) }
        ensures zone { IfOk result (λ zone. zone ≡ opened_unrecorded W number blocks) }
        ensures valid { IfOk result (λ zone. IsValidZone zone) }
    {
        Self::open_sized(alloc, number, ZoneSize::of_blocks(blocks), None)
    }

    /// An empty zone of any size, whose journal keeps its records in so many places, or is unrecorded where that is none. The tables of
    /// the addresses take 4 bytes for each, whether or not it is ever mapped.
    ///
    /// Refused as Range unless each number of the size is in its range and there are 1 to 65,536 places, else as Memory where there isn't
    /// enough.
    pub fn open_sized(
        alloc: Global,
        number: ZoneNo,
        size: ZoneSize,
        places: Option<u32>,
    ) -> Result<BareZone<W>, ZoneError>
        requires words { W ≤ 65536 }
        ensures range { ¬ (IsAllowed size places) → result ≡ Err ZoneError.Range }
        ensures memory { IsAllowed size places → IfErr result (λ error. error ≡ ZoneError.Memory) }
        ensures zone { IfOk result (λ zone. zone ≡ opened_sized W number size (places_of places)) }
        ensures valid { IfOk result (λ zone. IsValidZone zone) }
    {
        if !is_allowed(size, places) {
            return Err(ZoneError::Range);
        }
        let tables = ZoneTables::open(alloc, number, size, places)?;
        let tables = boxed(alloc, tables)?;
        Ok(BareZone { tables })
    }

    /// What is known of the page that an address names: its frame and flags, or its serial while it is moving, and how many pins and
    /// addresses it has.
    ///
    /// Refused as Unmapped.
    pub fn look(&self, address: Address) -> Result<Look, ZoneError>
        ensures refused { result_err result ≡ (if is_some (look_of self.now address) then None else Some ZoneError.Unmapped) }
        ensures value { IfOk result (λ look. look_of self.now address ≡ Some look) }
    {
        self.tables.look(&address).ok_or(ZoneError::Unmapped)
    }

    /// Whether a pageblock is marked, or none where the zone has no such pageblock.
    pub fn marked(&self, block: BlockNo) -> Option<bool>
        ensures { result ≡ marked_of self.now block }
    {
        if !self.tables.has_pageblock(block) {
            return None;
        }
        Some(self.tables.is_marked(block))
    }

    /// Whether the latest round is still quiet. It is where no page was out when it began, no unmarked pageblock had a page
    /// that was pinned or unmovable or a frame that was handed out, and since then the only calls that left records were
    /// loads, stores, isolations and moves.
    pub fn quiet(&self) -> bool
        ensures value { result ≡ is_quiet self.now }
        // The records of a load, a store, an isolation and a move leave it quiet, and each other record ends that.
        ensures next { (entry : Record) → is_quiet (noted self.now entry) ≡ (result && keeps_quiet entry) }
        // While it is quiet, no frame of an unmarked pageblock holds a page below the migrate finger, and none is free from
        // the free finger on.
        ensures swept { result ≡ true → IsSwept self.now }
    {
        self.tables.quiet()
    }

    /// The number that the zone was opened with.
    pub fn number(&self) -> ZoneNo
        ensures { result ≡ self.now.number }
    {
        self.tables.number()
    }

    /// How many words each page of the zone has.
    pub fn page_words(&self) -> usize
        ensures value { result ≡ W }
        ensures size { self.now.page_size ≡ W }
    {
        self.tables.page_words()
    }

    /// How many pageblocks the zone has, 1 to 32,768.
    pub fn blocks(&self) -> u32
        ensures blocks { result ≡ self.now.blocks }
        ensures valid { IsValidZone self.now }
    {
        self.tables.blocks()
    }

    /// How large the zone is: its pageblocks, its address spaces and the virtual pages of each.
    pub fn size(&self) -> ZoneSize
        ensures { result ≡ size_of self.now }
    {
        self.tables.size()
    }

    /// The counts of the zone.
    pub fn info(&self) -> Info
        ensures counts { result ≡ info_of self.now }
        // Each frame is free, or of a page, or of a block that is handed out; a moving page has two frames.
        ensures sum { result.free + result.pages + result.moving + result.held ≡ frame_count self.now }
        // A packed zone has as many whole pageblocks, and as many free aligned runs of an order, as its free frames can make.
        ensures whole { IsPacked self.now → result.whole ≡ unmarked_free self.now / 512 + marked_whole self.now }
        ensures runs { IsPacked self.now → (order : ℕ) → order ≤ 9 → free_runs self.now (2 ^ order) ≡ unmarked_free self.now / 2 ^ order }
        // No other placement of its pages, where none is moving, has more of either.
        ensures most_whole { IsPacked self.now → result.moving ≡ 0 → (place : ℕ → Option ℕ) → IsPlacement self.now place
            → left_whole self.now place ≤ result.whole }
        ensures most_runs { IsPacked self.now → result.moving ≡ 0 → (place : ℕ → Option ℕ) → IsPlacement self.now place
            → (order : ℕ) → order ≤ 9 → left_runs self.now place (2 ^ order) ≤ free_runs self.now (2 ^ order) }
        ensures placement { result.moving ≡ 0 → IsPlacement self.now (places_now self.now) }
    {
        self.tables.info()
    }

    /// The journal of the zone. Whoever holds the zone finds it valid: each load in the journal gave the value that was stored last.
    pub fn journal(&self) -> &Journal
        ensures records { result.now.records ≡ self.now.records }
        ensures room { result.now.room ≡ self.now.room }
        ensures valid { IsValidZone self.now }
        // No page or address has a frame of a block that is handed out, and no two such blocks share a frame.
        ensures clear { BlocksAreClear self.now }
        ensures apart { BlocksAreApart self.now }
    {
        self.tables.journal()
    }
}

/// Whether a zone may be opened with this size, and with a journal of so many places or an unrecorded one.
pub(crate) fn is_allowed(size: ZoneSize, places: Option<u32>) -> bool
    ensures { IsTrue result ↔ IsAllowed size places }
{
    size.is_valid() && !places.is_some_and(|count| count < 1 || count > MOST_PLACES)
}

/// The tables in a place of their own in memory, so that a zone is small to move, or the error Memory where there is none.
fn boxed<const W: usize>(
    alloc: Global,
    tables: ZoneTables<W>,
) -> Result<Box<ZoneTables<W>>, ZoneError>
    ensures memory { IfErr result (λ error. error ≡ ZoneError.Memory) }
    ensures tables { IfOk result (λ place. place.value ≡ tables.entry) }
{
    Box::new(alloc, tables).or(Err(ZoneError::Memory))
}
