//! Lending the words of pages that are pinned, and taking them back.

ghost use Rattle.std.specs.Prelude.{◌≡◌, ◌<◌, ℕ, Some, true, false, length, is_none, IsSome, IsTrue, IfErr, IfOk, OnErr, OnOk};
ghost use Rattle.std.specs.FinMap as map;
ghost use Rattle.std.specs.FinSet as set;
ghost use Rattle.std.specs.Option.{option_map};
ghost use Rattle.std.specs.Result.{result_err};
ghost use Rattle.frame_core.specs.History.{page_at};
ghost use Rattle.state_core.specs.Access.{is_page_lent};
ghost use Rattle.state_core.specs.Bulk.{has_room_for, values_at};
ghost use Rattle.state_core.specs.Lending.{block_place, page_place, lend_page_refusal, page_return_refusal, page_lent, page_returned};
ghost use Rattle.state_core.specs.Pinning.{pins_at, rests_lent};
ghost use Rattle.state_core.specs.Valid.{IsValidZone};
ghost use Rattle.state_core.specs.ZoneState.{placement_at, takes_up};
ghost use Rattle.state_core.specs.declared.placement.Placement.TheVariants.{At};

use crate::zone::ZoneTables;
use frame_core::{Access, AccessKind, Address, ClientNo, FrameNo};
use row_core::Row;
use state_core::ZoneError;
use table_core::Entry;

impl<const W: usize> ZoneTables<W> {
    /// Whether the page that an address names rests in a frame, and its words are lent.
    pub fn rests_lent(&self, address: &Address) -> bool
        requires { IsSome (page_at self.now.records address.now) }
        ensures { result ≡ rests_lent self.now address.now }
    {
        match self.tables.entry(*address) {
            Entry::Present(frame) => self.is_lent_in(frame),
            _ => false,
        }
    }

    /// Lends the words of a page that is pinned, as a row. Nothing is copied. Until they come back, no call reads or writes
    /// them, and the page keeps a pin, so that it stays in its frame. Where the row is dropped, that stays so.
    ///
    /// Refused as Unmapped, Moving, NotPinned, Lent or OwnMemory.
    pub fn lend_page(&mut self, address: Address) -> Result<Row, ZoneError>
        ensures refused { result_err result ≡ lend_page_refusal self.old address }
        ensures err { OnErr result (self.new ≡ self.old) }
        ensures words { IfOk result (λ row. row.words ≡ values_at self.old address 0 self.old.page_size) }
        ensures count { IfOk result (λ row. length row.words ≡ self.old.page_size) }
        ensures size { self.old.page_size ≡ W }
        ensures place { IfOk result (λ row. Some row.at ≡ page_place self.old address) }
        ensures ok { OnOk result (self.new ≡ page_lent self.old address) }
        ensures valid { IsValidZone self.new }
    {
        let frame = self.may_lend_page(&address)?;
        Ok(self.words.lend_block(frame, 1))
    }

    /// Takes the words of a page back that were lent, by their row, which has to begin where the page does and to have as many words.
    /// The page has the words of the row then, which the history tells as a write of all its words by the client who gives them back.
    ///
    /// Refused as JournalFull where the journal has no place for a store of each word, or as Unmapped or Moving. Then the row is
    /// answered as it was.
    pub fn take_page_back(
        &mut self,
        client: ClientNo,
        address: Address,
        row: Row,
    ) -> Result<(), (ZoneError, Row)>
        requires place { Some row.at ≡ page_place self.old address }
        requires count { length row.words ≡ self.old.page_size }
        ensures refused { option_map (λ back. back.0) (result_err result) ≡ page_return_refusal self.old address }
        ensures row { IfErr result (λ back. back.1 ≡ row) }
        ensures err { OnErr result (self.new ≡ self.old) }
        ensures was_lent { OnOk result (0 < self.old.page_size → is_page_lent self.old address ≡ true) }
        ensures ok { OnOk result (self.new ≡ page_returned self.old client address row.words) }
        ensures valid { IsValidZone self.new }
    {
        if !self.has_room_for(self.words.page_words()) {
            return Err((ZoneError::JournalFull, row));
        }
        match self.frame_of(&address) {
            Ok(frame) => {
                self.put_page_back(client, address, frame, row);
                Ok(())
            }
            Err(error) => Err((error, row)),
        }
    }

    /// Whether the words of the page that takes a frame up are lent. In a zone with memory of its own none are, and it looks no further.
    pub(crate) fn is_lent_in(&self, frame: FrameNo) -> bool
        requires { (page : ℕ) × (takes_up (map.get self.now.placement page) frame ≡ true) }
        ensures { (page : ℕ) → takes_up (map.get self.now.placement page) frame ≡ true → result ≡ set.contains self.now.lent_pages page }
    {
        !self.owns_memory() && self.words.is_lent(frame)
    }

    // The frame of the page that an address names, where the words of the page can be lent.
    fn may_lend_page(&self, address: &Address) -> Result<FrameNo, ZoneError>
        ensures refused { result_err result ≡ lend_page_refusal self.now address.now }
        ensures frame { IfOk result (λ frame. placement_at self.now address.now ≡ Some (At frame)) }
        ensures pinned { OnOk result (0 < pins_at self.now address.now) }
        ensures here { OnOk result (is_page_lent self.now address.now ≡ false) }
        ensures given { OnOk result (is_none self.now.memory ≡ false) }
    {
        let frame = self.frame_of(address)?;
        if self.uses_at(address).pins == 0 {
            return Err(ZoneError::NotPinned);
        }
        if self.is_lent_in(frame) {
            return Err(ZoneError::Lent);
        }
        if self.owns_memory() {
            return Err(ZoneError::OwnMemory);
        }
        Ok(frame)
    }

    // Puts the words of a page back into its frame, and notes a store of each.
    fn put_page_back(&mut self, client: ClientNo, address: Address, frame: FrameNo, row: Row)
        requires room { IsTrue (has_room_for self.old self.old.page_size) }
        requires frame { placement_at self.old address ≡ Some (At frame) }
        requires place { Some row.at ≡ block_place self.old frame }
        requires count { length row.words ≡ self.old.page_size }
        ensures was_lent { 0 < self.old.page_size → is_page_lent self.old address ≡ true }
        ensures step { self.new ≡ page_returned self.old client address row.words }
        ensures valid { IsValidZone self.new }
    {
        let Some(page) = self.holder(frame) else {
            unreachable!();
        };
        self.words.take_block_back(frame, 1, row);
        let values = self.words.block(frame, 1);
        // A page that no word was stored to isn't dirty.
        if values.is_empty() {
            return;
        }
        let stores = Access {
            kind: AccessKind::Store,
            client,
            address,
        };
        self.history.note_each(&stores, 0, values);
        self.notes.store(page);
    }
}
