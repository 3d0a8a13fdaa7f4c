//! A zone in memory of its caller: the words of its blocks and of pinned pages are lent as rows.

ghost use Rattle.std.specs.Prelude.{◌≡◌, ◌<◌, ◌≤◌, ◌*◌, ◌^◌, ◌↔◌, Some, true, is_none, length, replicate, IsTrue, IfErr, IfOk, IfSome, OnErr, OnOk};
ghost use Rattle.std.specs.FinSet as set;
ghost use Rattle.std.specs.Option.{option_map};
ghost use Rattle.std.specs.Result.{result_err};
ghost use Rattle.state_core.specs.Access.{is_page_lent};
ghost use Rattle.state_core.specs.Bulk.{values_at};
ghost use Rattle.state_core.specs.Contents.{contents_of};
ghost use Rattle.state_core.specs.Lending.{LendsNone, lend_refusal, return_refusal, block_place, block_lent, block_returned, page_place, lend_page_refusal, page_return_refusal, page_lent, page_returned};
ghost use Rattle.state_core.specs.Opening.{IsAllowed, opened_in, places_of};
ghost use Rattle.state_core.specs.Pairs.{HaveMet};
ghost use Rattle.state_core.specs.Valid.{IsValidZone};
ghost use Rattle.zone_core.specs.ZoneIdentity.{HasIdentity};

use crate::bare::{BareZone, is_allowed};
use frame_core::{Address, ClientNo, FrameNo, Order, ZoneNo};
use row_core::Row;
use state_core::{ZoneError, ZoneSize};
use std::alloc::Global;
use zone_tables::ZoneTables;

impl<const W: usize> BareZone<W> {
    /// An empty zone of any size in memory of its caller, which is `blank` if all its words are known to be 0: the words of frame 0
    /// come first. Its journal is that of `open_sized`. The rest of the zone takes memory of its own.
    ///
    /// Refused as Range unless each number of the size is in its range, there are 1 to 65,536 places, and the memory has exactly the
    /// words of all frames; else as Memory where there isn't enough for the rest. The caller's memory comes back then. After Memory no
    /// clause says what its words are.
    pub fn open_in(
        alloc: Global,
        number: ZoneNo,
        size: ZoneSize,
        places: Option<u32>,
        memory: Row,
        blank: bool,
    ) -> Result<BareZone<W>, (ZoneError, Row)>
        requires words { W ≤ 65536 }
        requires blank { IsTrue blank → memory.words ≡ replicate (length memory.words) 0 }
        ensures range { ¬ (IsAllowed size places × (length memory.words ≡ 512 * size.blocks * W)) → result ≡ Err (ZoneError.Range, memory) }
        ensures memory { IsAllowed size places → length memory.words ≡ 512 * size.blocks * W → IfErr result (λ back. back.0 ≡ ZoneError.Memory) }
        ensures back { IfErr result (λ back. (back.1.at ≡ memory.at) × (length back.1.words ≡ length memory.words)) }
        ensures zone { IfOk result (λ zone. zone ≡ opened_in memory.at W number size (places_of places)) }
        ensures valid { IfOk result (λ zone. IsValidZone zone) }
    {
        if !is_allowed(size, places) || memory.len() != 512 * size.blocks as usize * W {
            return Err((ZoneError::Range, memory));
        }
        match Self::made_in(alloc, number, size, places, memory, blank) {
            Ok(zone) => Ok(zone),
            Err(memory) => Err((ZoneError::Memory, memory)),
        }
    }

    /// The same where nothing is out of range.
    fn made_in(
        alloc: Global,
        number: ZoneNo,
        size: ZoneSize,
        places: Option<u32>,
        memory: Row,
        blank: bool,
    ) -> Result<BareZone<W>, Row>
        requires allowed { IsAllowed size places }
        requires words { W ≤ 65536 }
        requires count { length memory.words ≡ 512 * size.blocks * W }
        requires blank { IsTrue blank → memory.words ≡ replicate (length memory.words) 0 }
        ensures back { IfErr result (λ row. (row.at ≡ memory.at) × (length row.words ≡ length memory.words)) }
        ensures zone { IfOk result (λ zone. zone ≡ opened_in memory.at W number size (places_of places)) }
        ensures valid { IfOk result (λ zone. IsValidZone zone) }
    {
        let tables = ZoneTables::open_in(alloc, number, size, places, memory, blank)?;
        match Box::new(alloc, tables) {
            Ok(tables) => Ok(BareZone { tables }),
            Err(failed) => Err(failed.value.end().unwrap()),
        }
    }

    /// Whether no words are lent. It looks at each frame.
    pub fn lends_none(&self) -> bool
        ensures { IsTrue result ↔ LendsNone self.now }
    {
        self.tables.lends_none()
    }

    /// Whether the words of the zone lie in memory of its own. Then none can be lent.
    pub fn owns_memory(&self) -> bool
        ensures { result ≡ is_none self.now.memory }
    {
        self.tables.owns_memory()
    }

    /// Lends the words of a block that is handed out, as a row. Nothing is copied. Until they come back, no call reads or writes them,
    /// and the block can't be given back. Where the row is dropped, that stays so.
    ///
    /// Refused as NotHuge where no block of this order is handed out from this frame on, as Lent, or as OwnMemory.
    pub fn lend_block(&mut self, first: FrameNo, order: Order) -> Result<Row, ZoneError>
        ensures refused { result_err result ≡ lend_refusal self.old first order }
        ensures err { OnErr result (self.new ≡ self.old) }
        ensures words { IfOk result (λ row. row.words ≡ contents_of self.old first) }
        ensures count { IfOk result (λ row. length row.words ≡ 2 ^ order * self.old.page_size) }
        ensures size { self.old.page_size ≡ W }
        ensures place { IfOk result (λ row. Some row.at ≡ block_place self.old first) }
        ensures ok { OnOk result (self.new ≡ block_lent self.old first) }
        ensures met { OnOk result (HaveMet self.old → HaveMet self.new) }
        ensures identity { HasIdentity self.old.number self.old.blocks self.new }
        ensures valid { IsValidZone self.new }
    {
        let row = self.tables.lend_block(first, order)?;
        Ok(row)
    }

    /// Takes the words of a block back that were lent, by their row, which has to begin where the block does and to have as many words.
    /// The block has the words of the row then.
    ///
    /// Refused as NotHuge where no block of this order is handed out from this frame on. Then the row is answered as it was.
    pub fn take_block_back(
        &mut self,
        first: FrameNo,
        order: Order,
        row: Row,
    ) -> Result<(), (ZoneError, Row)>
        requires place { Some row.at ≡ block_place self.old first }
        requires count { length row.words ≡ 2 ^ order * self.old.page_size }
        ensures refused { option_map (λ back. back.0) (result_err result) ≡ return_refusal self.old first order }
        ensures row { IfErr result (λ back. back.1 ≡ row) }
        ensures err { OnErr result (self.new ≡ self.old) }
        ensures was_lent { OnOk result (0 < self.old.page_size → set.contains self.old.lent first ≡ true) }
        ensures ok { OnOk result (self.new ≡ block_returned self.old first row.words) }
        ensures met { OnOk result (HaveMet self.old → HaveMet self.new) }
        ensures identity { HasIdentity self.old.number self.old.blocks self.new }
        ensures valid { IsValidZone self.new }
    {
        self.tables.take_block_back(first, order, row)?;
        Ok(())
    }

    /// Lends the words of a page that is pinned, as a row. Nothing is copied. Until they come back, no call reads or writes them, and the
    /// page keeps a pin, so that it stays in its frame. Where the row is dropped, that stays so.
    ///
    /// Refused as Unmapped, Moving, NotPinned, Lent or OwnMemory.
    pub fn lend_page(&mut self, address: Address) -> Result<Row, ZoneError>
        ensures refused { result_err result ≡ lend_page_refusal self.old address }
        ensures err { OnErr result (self.new ≡ self.old) }
        ensures words { IfOk result (λ row. row.words ≡ values_at self.old address 0 self.old.page_size) }
        ensures count { IfOk result (λ row. length row.words ≡ self.old.page_size) }
        ensures size { self.old.page_size ≡ W }
        ensures place { IfOk result (λ row. Some row.at ≡ page_place self.old address) }
        ensures ok { OnOk result (self.new ≡ page_lent self.old address) }
        ensures met { OnOk result (HaveMet self.old → HaveMet self.new) }
        ensures identity { HasIdentity self.old.number self.old.blocks self.new }
        ensures valid { IsValidZone self.new }
    {
        let row = self.tables.lend_page(address)?;
        Ok(row)
    }

    /// Takes the words of a page back that were lent, by their row, which has to begin where the page does and to have as many words.
    /// The page has the words of the row then, which the history tells as a write of all its words by the client who gives them back.
    ///
    /// Refused as JournalFull where the journal has no place for a store of each word, or as Unmapped or Moving. Then the row is
    /// answered as it was.
    pub fn take_page_back(
        &mut self,
        client: ClientNo,
        address: Address,
        row: Row,
    ) -> Result<(), (ZoneError, Row)>
        requires place { Some row.at ≡ page_place self.old address }
        requires count { length row.words ≡ self.old.page_size }
        ensures refused { option_map (λ back. back.0) (result_err result) ≡ page_return_refusal self.old address }
        ensures row { IfErr result (λ back. back.1 ≡ row) }
        ensures err { OnErr result (self.new ≡ self.old) }
        ensures was_lent { OnOk result (0 < self.old.page_size → is_page_lent self.old address ≡ true) }
        ensures ok { OnOk result (self.new ≡ page_returned self.old client address row.words) }
        ensures met { OnOk result (HaveMet self.old → HaveMet self.new) }
        ensures identity { HasIdentity self.old.number self.old.blocks self.new }
        ensures valid { IsValidZone self.new }
    {
        self.tables.take_page_back(client, address, row)?;
        Ok(())
    }

    /// Ends the zone, no words of which may be lent. Memory that its caller gave comes back, and other memory is given back to the system.
    pub fn end(self) -> Option<Row>
        requires { LendsNone self }
        ensures at { option_map (λ row. row.at) result ≡ self.entry.memory }
        ensures count { IfSome result (λ row. length row.words ≡ 512 * self.entry.blocks * self.entry.page_size) }
        ensures size { (self.entry.page_size ≡ W) × (0 < self.entry.blocks) }
    {
        let BareZone { tables } = self;
        Box::into_inner(tables).end()
    }
}
