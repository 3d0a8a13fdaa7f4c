ghost use Rattle.std.specs.Prelude.{◌≡◌, ◌≤◌, ℕ, Option, Some, IfOk, IfErr, OnOk, OnErr};
ghost use Rattle.std.specs.Int.RustNames.{bit_and};
ghost use Rattle.zone_core.specs.Books.{AreFor};
ghost use Rattle.state_core.specs.Valid.{IsValidZone};
ghost use Rattle.zone_core.specs.ZoneIdentity.{HasIdentity};
ghost use Rattle.zone_core.specs.Seats.{fresh_scan_seat, fresh_end_seat};
ghost use Rattle.state_core.specs.Pairs.{HaveMet};
ghost use Rattle.state_core.specs.Opening.{IsAllowed, IsOpenable, IsSize, opened_sized, opened_unrecorded, opened_with, places_of};
ghost use Rattle.state_core.specs.declared.size.ZoneSize.{ZoneSize as Size};
ghost use Rattle.std.specs.Result.{result_err};
ghost use Rattle.state_core.specs.Mapping.{map_refusal, map_at_refusal, mapped};
ghost use Rattle.state_core.specs.Access.{access_refusal, value_at, loaded, stored};
ghost use Rattle.frame_core.specs.PageFlags.{is_unmovable};
ghost use Rattle.state_core.specs.ZoneState.{frame_for};

use crate::bare::BareZone;
use crate::opening::{
    EndSeatIn, IsolatedPages, MovedPages, Opening, PagesBack, ScanSeatIn, ZoneInOf,
};
use crate::seats::{Blanks, EndSeat, ScanSeat};
use frame_core::{Address, ClientNo, FrameNo, PageFlags, WordOf, ZoneNo};
use state_core::{ZoneError, ZoneSize};
use std::alloc::Global;
use std::marker::Model;
use std::ops::Deref;
use std::sync::ledger::{Book, Ledger};

/// A zone of 1 to 32,768 pageblocks, whose pages have `W` words: a bare zone with its ledgers. Its type parameters name its opening: the
/// ledgers of the pages that are isolated, moved and put back. After `open` no call takes memory.
///
/// Each call says what it may be refused as, in the order of the tests. A refused call leaves the zone as it was. JournalFull
/// means that the journal has no more places left than pages are moving, since the end of each move needs a place.
///
/// A zone's journal is of one of two kinds, and every clause is for both. A journal that is kept has each record, in 65,536 places at
/// most. One that is unrecorded keeps none of them: they exist in the proofs alone, and there is room for 2^53.
pub struct Zone<const W: usize, I: Ledger, M: Ledger, B: Ledger> {
    pub(crate) bare: BareZone<W>,
    pub(crate) isolated: Book<I>,
    pub(crate) moved: Book<M>,
    pub(crate) back: Book<B>,
}

// Written out, so that the crates above have nothing to prove of its parts.
impl<const W: usize, I: Ledger, M: Ledger, B: Ledger> Drop for Zone<W, I, M, B> {
    fn drop(self) {
        let Zone {
            bare: _bare,
            isolated: _isolated,
            moved: _moved,
            back: _back,
        } = self;
    }
}

impl<const W: usize, I: Ledger, M: Ledger, B: Ledger> Model for Zone<W, I, M, B> {
    ghost use Rattle.state_core.specs.Valid.{IsValidZone};
    ghost use Rattle.state_core.specs.ZoneState.{ZoneState};
    ghost use Rattle.zone_core.specs.Books.{AreBooks, AreCut};
    ghost use Rattle.state_core.specs.ZoneCode.{coded_zone};

    ghost Value = { ZoneState };

    ghost coded = { coded_zone };

    ghost view = { λ z. z.bare };

    ghost invariant = { λ z. AreBooks z.isolated.total z.moved.total z.back.total z.bare × AreCut I.parts M.parts B.parts × IsValidZone z.bare };
}

// What changes nothing is asked of the zone without its ledgers.
impl<const W: usize, I: Ledger, M: Ledger, B: Ledger> Deref for Zone<W, I, M, B> {
    type Target = BareZone<W>;

    ghost deref_gives = { λ zone bare. bare ≡ zone };

    fn deref(&self) -> &BareZone<W> {
        &self.bare
    }
}

impl<const W: usize, Z: Opening> ZoneInOf<W, Z> {
    /// An empty zone with this many pageblocks and this many places in its journal, and its two seats. The blanks
    /// have the names of `Z`. They are dropped where the call is refused.
    ///
    /// Refused as Range unless there are 1 to 8 pageblocks and 1 to 65,536 places, else as Memory where there isn't enough.
    pub fn open(
        alloc: Global,
        number: ZoneNo,
        blocks: u32,
        places: u32,
        blanks: Blanks,
    ) -> Result<(ZoneInOf<W, Z>, ScanSeatIn<Z>, EndSeatIn<Z>), ZoneError>
        requires blanks { AreFor blanks Z.isolated Z.rounds Z.moved Z.back }
        requires size { W ≤ 65536 }
        ensures range { ¬ (IsOpenable blocks places) → result ≡ Err ZoneError.Range }
        ensures memory { IsOpenable blocks places → IfErr result (λ error. error ≡ ZoneError.Memory) }
        ensures zone { IfOk result (λ opening. opening.0 ≡ opened_with W number blocks places) }
        ensures scan { IfOk result (λ opening. opening.1 ≡ fresh_scan_seat) }
        ensures ends { IfOk result (λ opening. opening.2 ≡ fresh_end_seat) }
        ensures valid { IfOk result (λ opening. IsValidZone opening.0) }
    {
        let bare = BareZone::open(alloc, number, blocks, places)?;
        Ok(Self::seated(bare, blanks))
    }

    /// An empty zone whose journal is unrecorded, as `open` gives one whose journal is kept. The records exist in the proofs alone, and
    /// there is room for 2^53.
    ///
    /// Refused as Range unless there are 1 to 32,768 pageblocks, else as Memory where there isn't enough.
    pub fn open_unrecorded(
        alloc: Global,
        number: ZoneNo,
        blocks: u32,
        blanks: Blanks,
    ) -> Result<(ZoneInOf<W, Z>, ScanSeatIn<Z>, EndSeatIn<Z>), ZoneError>
        requires blanks { AreFor blanks Z.isolated Z.rounds Z.moved Z.back }
        requires size { W ≤ 65536 }
        ensures range { ¬ (IsSize blocks) → result ≡ Err ZoneError.Range }
        ensures memory { IsSize blocks → IfErr result (λ error. error ≡ ZoneError.Memory) }
        ensures zone { IfOk result (λ opening. opening.0 ≡ opened_unrecorded W number blocks) }
        ensures scan { IfOk result (λ opening. opening.1 ≡ fresh_scan_seat) }
        ensures ends { IfOk result (λ opening. opening.2 ≡ fresh_end_seat) }
        ensures valid { IfOk result (λ opening. IsValidZone opening.0) }
    {
        let bare = BareZone::open_unrecorded(alloc, number, blocks)?;
        Ok(Self::seated(bare, blanks))
    }

    /// An empty zone of any size, and its two seats. Its journal keeps its records in so many places, or is unrecorded where that is none.
    ///
    /// Refused as `BareZone::open_sized` is.
    pub fn open_sized(
        alloc: Global,
        number: ZoneNo,
        size: ZoneSize,
        places: Option<u32>,
        blanks: Blanks,
    ) -> Result<(ZoneInOf<W, Z>, ScanSeatIn<Z>, EndSeatIn<Z>), ZoneError>
        requires blanks { AreFor blanks Z.isolated Z.rounds Z.moved Z.back }
        requires words { W ≤ 65536 }
        ensures range { ¬ (IsAllowed size places) → result ≡ Err ZoneError.Range }
        ensures memory { IsAllowed size places → IfErr result (λ error. error ≡ ZoneError.Memory) }
        ensures zone { IfOk result (λ opening. opening.0 ≡ opened_sized W number size (places_of places)) }
        ensures scan { IfOk result (λ opening. opening.1 ≡ fresh_scan_seat) }
        ensures ends { IfOk result (λ opening. opening.2 ≡ fresh_end_seat) }
        ensures valid { IfOk result (λ opening. IsValidZone opening.0) }
    {
        let bare = BareZone::open_sized(alloc, number, size, places)?;
        Ok(Self::seated(bare, blanks))
    }

    /// The zone with its ledgers and seats.
    fn seated(bare: BareZone<W>, blanks: Blanks) -> (ZoneInOf<W, Z>, ScanSeatIn<Z>, EndSeatIn<Z>)
        requires fresh { (number : ℕ) × (size : Size) × (places : ℕ) × (bare ≡ opened_sized W number size places) }
        requires valid { IsValidZone bare }
        requires blanks { AreFor blanks Z.isolated Z.rounds Z.moved Z.back }
        ensures zone { result.0 ≡ bare.entry }
        ensures valid { IsValidZone result.0 }
        ensures scan { result.1 ≡ fresh_scan_seat }
        ensures ends { result.2 ≡ fresh_end_seat }
    {
        let Blanks {
            isolated,
            rounds,
            moved,
            back,
        } = blanks;
        let (isolated, isolated_share) = isolated.open::<IsolatedPages<Z>>();
        let (moved, moved_share) = moved.open::<MovedPages<Z>>();
        let (back, back_share) = back.open::<PagesBack<Z>>();
        let zone = Zone {
            bare,
            isolated,
            moved,
            back,
        };
        let scan = ScanSeat::opened(isolated_share, rounds);
        let ends = EndSeat::opened(moved_share, back_share);
        (zone, scan, ends)
    }

    /// Makes an address name a fresh page in the lowest free frame, or in one by its pageblock where unmovable pages are mapped apart, and
    /// answers this frame. The page holds zeros, has no pin and isn't dirty. It is unmovable where the flags say so. The flags must not have
    /// DIRTY.
    ///
    /// Refused as Range where the zone has no such address, as JournalFull, Occupied or NoFrame.
    pub fn map(
        &mut self,
        client: ClientNo,
        address: Address,
        flags: PageFlags,
    ) -> Result<FrameNo, ZoneError>
        requires clean { bit_and flags.0 2 ≡ 0 }
        ensures refused { result_err result ≡ map_refusal self.old address }
        ensures err { OnErr result (self.new ≡ self.old) }
        ensures frame { IfOk result (λ frame. frame_for self.old (is_unmovable flags) ≡ Some frame) }
        ensures ok { IfOk result (λ frame. self.new ≡ mapped self.old client address (is_unmovable flags) frame) }
        ensures identity { HasIdentity self.old.number self.old.blocks self.new }
        ensures valid { IsValidZone self.new }
    {
        let unmovable = flags.is_unmovable();
        let (_page, frame) = self.bare.map(client, address, unmovable)?;
        Ok(frame)
    }

    /// Makes an address name a fresh page in a given frame, as `map` does in one of its own choice. The flags must not have DIRTY.
    ///
    /// Refused as Range where the zone has no such address or no such frame, as JournalFull, as Occupied, or as NoFrame where the frame isn't free.
    pub fn map_at(
        &mut self,
        client: ClientNo,
        address: Address,
        flags: PageFlags,
        frame: FrameNo,
    ) -> Result<(), ZoneError>
        requires clean { bit_and flags.0 2 ≡ 0 }
        ensures refused { result_err result ≡ map_at_refusal self.old address frame }
        ensures err { OnErr result (self.new ≡ self.old) }
        ensures ok { OnOk result (self.new ≡ mapped self.old client address (is_unmovable flags) frame) }
        ensures identity { HasIdentity self.old.number self.old.blocks self.new }
        ensures valid { IsValidZone self.new }
    {
        let unmovable = flags.is_unmovable();
        self.bare.map_at(client, address, unmovable, frame)?;
        Ok(())
    }

    /// Reads a word of the page that an address names: the value that was stored there last, or 0.
    ///
    /// Refused as JournalFull, Unmapped or Moving.
    pub fn load(
        &mut self,
        client: ClientNo,
        address: Address,
        word: WordOf<W>,
    ) -> Result<u64, ZoneError>
        ensures refused { result_err result ≡ access_refusal self.old address }
        ensures err { OnErr result (self.new ≡ self.old) }
        ensures value { IfOk result (λ value. value ≡ value_at self.old address word.entry) }
        ensures ok { OnOk result (self.new ≡ loaded self.old client address word.entry) }
        // A load doesn't make a pair.
        ensures met { OnOk result (HaveMet self.old → HaveMet self.new) }
        ensures identity { HasIdentity self.old.number self.old.blocks self.new }
        ensures valid { IsValidZone self.new }
    {
        self.bare.load(client, address, word)
    }

    /// Writes a word of the page that an address names.
    ///
    /// Refused as JournalFull, Unmapped or Moving.
    pub fn store(
        &mut self,
        client: ClientNo,
        address: Address,
        word: WordOf<W>,
        value: u64,
    ) -> Result<(), ZoneError>
        ensures refused { result_err result ≡ access_refusal self.old address }
        ensures err { OnErr result (self.new ≡ self.old) }
        ensures ok { OnOk result (self.new ≡ stored self.old client address word.entry value) }
        ensures met { OnOk result (HaveMet self.old → HaveMet self.new) }
        ensures identity { HasIdentity self.old.number self.old.blocks self.new }
        ensures valid { IsValidZone self.new }
    {
        self.bare.store(client, address, word, value)
    }
}
