//! The calls of clients: each with its tests in their order, and its step. Its row in the tables of calls says what it answers and what
//! it does. One that names no address is the same whichever client makes it, so its contract says client 0.

ghost use Rattle.std.specs.Prelude.{◌≡◌, ◌^◌, Some, IsTrue, IfOk, OnOk};
ghost use Rattle.std.specs.Result.{result_err};
ghost use Rattle.state_core.specs.Access.{value_at};
ghost use Rattle.state_core.specs.Calls.{answer_of, is_access};
ghost use Rattle.state_core.specs.Clear.{IsClear};
ghost use Rattle.state_core.specs.HandingOut.{is_run, lowest_run};
ghost use Rattle.state_core.specs.Pairs.{HaveMet};
ghost use Rattle.state_core.specs.ZoneState.{frame_for, lowest_unused_page};
ghost use Rattle.state_core.specs.declared.call.ZoneCall.TheVariants as call;
ghost use Rattle.zone_core.specs.Made.{IsMade};

use crate::bare::BareZone;
use frame_core::{Address, BlockNo, ClientNo, FrameNo, Order, PageNo, WordOf};
use state_core::{ZoneAnswer, ZoneCallOf as Call, ZoneError};

impl<const W: usize> BareZone<W> {
    /// Makes a call of a client, and may refuse it. A call that names no address is the same whichever client makes it.
    #[inline(always)]
    pub fn make(&mut self, client: ClientNo, call: Call<W>) -> Result<ZoneAnswer, ZoneError>
        ensures made { IsMade call.entry client self.old self.new result }
        ensures answer { IfOk result (λ answer. answer ≡ answer_of call.entry self.old) }
        // A load or a store doesn't make a pair.
        ensures met { OnOk result (IsTrue (is_access call.entry) → HaveMet self.old → HaveMet self.new) }
    {
        match call {
            Call::Map { address, unmovable } => {
                let (page, frame) = self.map(client, address, unmovable)?;
                Ok(ZoneAnswer::Mapped { page, frame })
            }
            Call::MapAt {
                address,
                unmovable,
                frame,
            } => {
                let page = self.map_at(client, address, unmovable, frame)?;
                Ok(ZoneAnswer::Mapped { page, frame })
            }
            Call::Load { address, word } => self.load(client, address, word).map(ZoneAnswer::Value),
            Call::Store {
                address,
                word,
                value,
            } => done(self.store(client, address, word, value)),
            Call::Share { address, alias } => done(self.share(client, address, alias)),
            Call::Unmap { address } => done(self.unmap(client, address)),
            Call::Pin { address } => done(self.pin(client, address)),
            Call::Unpin { address } => done(self.unpin(client, address)),
            Call::TakeOrder { order } => self.take_order(order).map(ZoneAnswer::Frame),
            Call::GiveOrder { first, order } => done(self.give_order(first, order)),
            Call::Mark { block } => done(self.mark(block)),
            Call::Unmark { block } => done(self.unmark(block)),
        }
    }

    /// Makes an address name a fresh page in the lowest free frame, or in the one that `set_apart` says, and answers the number of the page
    /// and this frame. The page holds zeros and has no pin.
    ///
    /// Refused as Range where the zone has no such address, as JournalFull, Occupied or NoFrame.
    #[inline(always)]
    pub fn map(
        &mut self,
        client: ClientNo,
        address: Address,
        unmovable: bool,
    ) -> Result<(PageNo, FrameNo), ZoneError>
        ensures made { IsMade {W = W} (call.Map address unmovable) client self.old self.new result }
        ensures page { IfOk result (λ mapped. lowest_unused_page self.old ≡ Some mapped.0) }
        ensures frame { IfOk result (λ mapped. frame_for self.old unmovable ≡ Some mapped.1) }
    {
        if !self.tables.has_address(&address) {
            return Err(ZoneError::Range);
        }
        if !self.tables.has_room() {
            return Err(ZoneError::JournalFull);
        }
        if self.tables.names_page(&address) {
            return Err(ZoneError::Occupied);
        }
        let Some(frame) = self.tables.frame_for(unmovable) else {
            return Err(ZoneError::NoFrame);
        };
        let page = self.tables.place(client, address, unmovable, frame);
        Ok((page, frame))
    }

    /// Makes an address name a fresh page in a given frame, as `map` does in one of its own choice, and answers the number of the page.
    ///
    /// Refused as Range where the zone has no such address or no such frame, as JournalFull, as Occupied, or as NoFrame where the frame isn't free.
    #[inline(always)]
    pub fn map_at(
        &mut self,
        client: ClientNo,
        address: Address,
        unmovable: bool,
        frame: FrameNo,
    ) -> Result<PageNo, ZoneError>
        ensures made { IsMade {W = W} (call.MapAt address unmovable frame) client self.old self.new result }
        ensures page { IfOk result (λ page. lowest_unused_page self.old ≡ Some page) }
    {
        if !self.tables.has_address(&address) || !self.tables.has_frame(frame) {
            return Err(ZoneError::Range);
        }
        if !self.tables.has_room() {
            return Err(ZoneError::JournalFull);
        }
        if self.tables.names_page(&address) {
            return Err(ZoneError::Occupied);
        }
        if !self.tables.is_free(frame) {
            return Err(ZoneError::NoFrame);
        }
        Ok(self.tables.place(client, address, unmovable, frame))
    }

    /// Reads a word of the page that an address names: the value that was stored there last, or 0.
    ///
    /// Refused as JournalFull, Unmapped, Moving or Lent.
    #[inline(always)]
    pub fn load(
        &mut self,
        client: ClientNo,
        address: Address,
        word: WordOf<W>,
    ) -> Result<u64, ZoneError>
        ensures made { IsMade {W = W} (call.Load address word.entry) client self.old self.new result }
        ensures value { IfOk result (λ value. value ≡ value_at self.old address word.entry) }
        ensures met { OnOk result (HaveMet self.old → HaveMet self.new) }
    {
        if !self.tables.has_room() {
            return Err(ZoneError::JournalFull);
        }
        let read_from = self.tables.frame_here(&address)?;
        Ok(self.tables.read(client, address, read_from, word))
    }

    /// Writes a word of the page that an address names.
    ///
    /// Refused as JournalFull, Unmapped, Moving or Lent.
    #[inline(always)]
    pub fn store(
        &mut self,
        client: ClientNo,
        address: Address,
        word: WordOf<W>,
        value: u64,
    ) -> Result<(), ZoneError>
        ensures made { IsMade {W = W} (call.Store address word.entry value) client self.old self.new result }
        ensures met { OnOk result (HaveMet self.old → HaveMet self.new) }
    {
        if !self.tables.has_room() {
            return Err(ZoneError::JournalFull);
        }
        let frame = self.tables.frame_here(&address)?;
        self.tables.write(client, address, frame, word, value);
        Ok(())
    }

    /// Makes an alias name the page of an address too. A page has at most 4 addresses.
    ///
    /// Refused as Range where the zone has no such alias, as JournalFull, as Unmapped or Moving for the address, as Occupied for the alias, or as
    /// ShareFull.
    #[inline(always)]
    pub fn share(
        &mut self,
        client: ClientNo,
        address: Address,
        alias: Address,
    ) -> Result<(), ZoneError>
        ensures made { IsMade {W = W} (call.Share address alias) client self.old self.new result }
    {
        if !self.tables.has_address(&alias) {
            return Err(ZoneError::Range);
        }
        if !self.tables.has_room() {
            return Err(ZoneError::JournalFull);
        }
        let frame = self.tables.frame_of(&address)?;
        if self.tables.names_page(&alias) {
            return Err(ZoneError::Occupied);
        }
        let uses = self.tables.uses_at(&address);
        if uses.maps >= 4 {
            return Err(ZoneError::ShareFull);
        }
        self.tables.share(client, address, alias, uses.page, frame);
        Ok(())
    }

    /// Makes an address name no page any more. A page that has no address left isn't in use.
    ///
    /// Refused as JournalFull, Unmapped or Moving, or as Pinned where it is the last address of a page with a pin.
    #[inline(always)]
    pub fn unmap(&mut self, client: ClientNo, address: Address) -> Result<(), ZoneError>
        ensures made { IsMade {W = W} (call.Unmap address) client self.old self.new result }
    {
        if !self.tables.has_room() {
            return Err(ZoneError::JournalFull);
        }
        let frame = self.tables.frame_of(&address)?;
        let uses = self.tables.uses_at(&address);
        if uses.maps == 1 && uses.pins != 0 {
            return Err(ZoneError::Pinned);
        }
        self.tables.unmap(client, address, uses.page, frame);
        Ok(())
    }

    /// Pins the page that an address names, also while the page is moving. It stays where it is until each of its pins is taken off. A
    /// page has at most 255 pins.
    ///
    /// Refused as JournalFull, Unmapped or PinFull.
    #[inline(always)]
    pub fn pin(&mut self, client: ClientNo, address: Address) -> Result<(), ZoneError>
        ensures made { IsMade {W = W} (call.Pin address) client self.old self.new result }
    {
        if !self.tables.has_room() {
            return Err(ZoneError::JournalFull);
        }
        if !self.tables.names_page(&address) {
            return Err(ZoneError::Unmapped);
        }
        let uses = self.tables.uses_at(&address);
        if uses.pins == 255 {
            return Err(ZoneError::PinFull);
        }
        self.tables.pin(client, address, uses.page);
        Ok(())
    }

    /// Takes a pin off the page that an address names, also while the page is moving.
    ///
    /// Refused as JournalFull, Unmapped or NotPinned, or as Lent where it is the only pin of a page that rests in a frame and whose words are
    /// lent.
    #[inline(always)]
    pub fn unpin(&mut self, client: ClientNo, address: Address) -> Result<(), ZoneError>
        ensures made { IsMade {W = W} (call.Unpin address) client self.old self.new result }
    {
        if !self.tables.has_room() {
            return Err(ZoneError::JournalFull);
        }
        if !self.tables.names_page(&address) {
            return Err(ZoneError::Unmapped);
        }
        let uses = self.tables.uses_at(&address);
        if uses.pins == 0 {
            return Err(ZoneError::NotPinned);
        }
        if uses.pins == 1 && self.tables.rests_lent(&address) {
            return Err(ZoneError::Lent);
        }
        self.tables.unpin(client, address, uses.page);
        Ok(())
    }

    /// Hands out the lowest free block of an order, 3 to 9, and answers its first frame. The block has 2^order frames, of which no page
    /// has one.
    ///
    /// Refused as JournalFull, or as NoBlock where no such block is free.
    #[inline(always)]
    pub fn take_order(&mut self, order: Order) -> Result<FrameNo, ZoneError>
        ensures made { IsMade {W = W} (call.TakeOrder order) 0 self.old self.new result }
        ensures first { IfOk result (λ first. lowest_run self.old order ≡ Some first) }
        ensures run { IfOk result (λ first. IsTrue (is_run self.old order first)) }
        ensures clear { IfOk result (λ first. IsClear self.new first (2 ^ order)) }
    {
        if !self.tables.has_room() {
            return Err(ZoneError::JournalFull);
        }
        let Some(first) = self.tables.find_run(order) else {
            return Err(ZoneError::NoBlock);
        };
        self.tables.hand_out(first, order);
        Ok(first)
    }

    /// Takes back a block that was handed out, by its first frame and its order.
    ///
    /// Refused as Range where the zone has no such block, as JournalFull, as NotHuge where the block isn't handed out, or as Lent.
    #[inline(always)]
    pub fn give_order(&mut self, first: FrameNo, order: Order) -> Result<(), ZoneError>
        ensures made { IsMade {W = W} (call.GiveOrder first order) 0 self.old self.new result }
        ensures run { OnOk result (IsTrue (is_run self.new order first)) }
    {
        if !self.tables.has_block(first, order) {
            return Err(ZoneError::Range);
        }
        if !self.tables.has_room() {
            return Err(ZoneError::JournalFull);
        }
        if !self.tables.is_handed_out(first, order) {
            return Err(ZoneError::NotHuge);
        }
        if self.tables.is_lent(first) {
            return Err(ZoneError::Lent);
        }
        self.tables.take_back(first, order);
        Ok(())
    }

    /// Marks a pageblock: the scanners take no frame of it, neither as a source nor as a target.
    ///
    /// Refused as Range where the zone has no such pageblock, as JournalFull, or as Marked.
    #[inline(always)]
    pub fn mark(&mut self, block: BlockNo) -> Result<(), ZoneError>
        ensures made { IsMade {W = W} (call.Mark block) 0 self.old self.new result }
    {
        if !self.tables.has_pageblock(block) {
            return Err(ZoneError::Range);
        }
        if !self.tables.has_room() {
            return Err(ZoneError::JournalFull);
        }
        if self.tables.is_marked(block) {
            return Err(ZoneError::Marked);
        }
        self.tables.mark(block);
        Ok(())
    }

    /// Takes the mark of a pageblock off.
    ///
    /// Refused as Range where the zone has no such pageblock, as JournalFull, or as NotMarked.
    #[inline(always)]
    pub fn unmark(&mut self, block: BlockNo) -> Result<(), ZoneError>
        ensures made { IsMade {W = W} (call.Unmark block) 0 self.old self.new result }
    {
        if !self.tables.has_pageblock(block) {
            return Err(ZoneError::Range);
        }
        if !self.tables.has_room() {
            return Err(ZoneError::JournalFull);
        }
        if !self.tables.is_marked(block) {
            return Err(ZoneError::NotMarked);
        }
        self.tables.unmark(block);
        Ok(())
    }
}

/// What a call answers that has nothing to tell.
fn done(made: Result<(), ZoneError>) -> Result<ZoneAnswer, ZoneError>
    ensures refused { result_err result ≡ result_err made }
    ensures answer { IfOk result (λ answer. answer ≡ ZoneAnswer.Done) }
{
    made.map(|()| ZoneAnswer::Done)
}
