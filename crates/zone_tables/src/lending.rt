//! Lending the words of blocks that are handed out, and taking them back.

ghost use Rattle.std.specs.Prelude.{◌≡◌, ◌<◌, ◌*◌, ◌^◌, ◌↔◌, Some, true, false, length, is_none, IsSome, IsTrue, IfErr, IfOk, OnErr, OnOk};
ghost use Rattle.std.specs.FinMap as map;
ghost use Rattle.std.specs.FinSet as set;
ghost use Rattle.std.specs.Option.{option_map};
ghost use Rattle.std.specs.Result.{result_err};
ghost use Rattle.state_core.specs.Contents.{contents_of};
ghost use Rattle.state_core.specs.HandingOut.{is_order};
ghost use Rattle.state_core.specs.Lending.{LendsNone, lend_refusal, return_refusal, block_place, block_lent, block_returned};
ghost use Rattle.state_core.specs.Valid.{IsValidZone};

use crate::zone::ZoneTables;
use frame_core::{FrameNo, Order};
use row_core::Row;
use state_core::ZoneError;

impl<const W: usize> ZoneTables<W> {
    /// Whether the words of the block that is handed out from this first frame on are lent.
    pub fn is_lent(&self, first: FrameNo) -> bool
        requires { IsSome (map.get self.now.handed_out first) }
        ensures { result ≡ set.contains self.now.lent first }
    {
        self.words.is_lent(first)
    }

    /// Whether no words are lent. It looks at each frame.
    pub fn lends_none(&self) -> bool
        ensures { IsTrue result ↔ LendsNone self.now }
    {
        self.words.lends_none()
    }

    /// Lends the words of a block that is handed out, as a row. Nothing is copied. Until they come back, no call
    /// reads or writes them, and the block can't be given back. Where the row is dropped, that stays so.
    ///
    /// Refused as NotHuge where no block of this order is handed out from this frame on, as Lent, or as OwnMemory.
    pub fn lend_block(&mut self, first: FrameNo, order: Order) -> Result<Row, ZoneError>
        ensures refused { result_err result ≡ lend_refusal self.old first order }
        ensures err { OnErr result (self.new ≡ self.old) }
        ensures words { IfOk result (λ row. row.words ≡ contents_of self.old first) }
        ensures count { IfOk result (λ row. length row.words ≡ 2 ^ order * self.old.page_size) }
        ensures size { self.old.page_size ≡ W }
        ensures place { IfOk result (λ row. Some row.at ≡ block_place self.old first) }
        ensures ok { OnOk result (self.new ≡ block_lent self.old first) }
        ensures valid { IsValidZone self.new }
    {
        self.may_lend(first, order)?;
        self.cleared.clear(&mut self.words, first, order);
        Ok(self.words.lend_block(first, order.frames()))
    }

    /// Takes the words of a block back that were lent, by their row, which has to begin where the block does and to have as many words.
    /// The block has the words of the row then.
    ///
    /// Refused as NotHuge where no block of this order is handed out from this frame on. Then the row is answered as it was.
    pub fn take_block_back(
        &mut self,
        first: FrameNo,
        order: Order,
        row: Row,
    ) -> Result<(), (ZoneError, Row)>
        requires place { Some row.at ≡ block_place self.old first }
        requires count { length row.words ≡ 2 ^ order * self.old.page_size }
        ensures refused { option_map (λ back. back.0) (result_err result) ≡ return_refusal self.old first order }
        ensures row { IfErr result (λ back. back.1 ≡ row) }
        ensures err { OnErr result (self.new ≡ self.old) }
        ensures was_lent { OnOk result (0 < self.old.page_size → set.contains self.old.lent first ≡ true) }
        ensures ok { OnOk result (self.new ≡ block_returned self.old first row.words) }
        ensures valid { IsValidZone self.new }
    {
        if !self.is_handed_out(first, order) {
            return Err((ZoneError::NotHuge, row));
        }
        self.words.take_block_back(first, order.frames(), row);
        Ok(())
    }

    /// Whether the words of the zone lie in memory of its own. Then none can be lent.
    pub fn owns_memory(&self) -> bool
        ensures { result ≡ is_none self.now.memory }
    {
        !self.words.is_given()
    }

    // Whether the words of a block can be lent.
    fn may_lend(&self, first: FrameNo, order: Order) -> Result<(), ZoneError>
        ensures refused { result_err result ≡ lend_refusal self.now first order }
        ensures held { OnOk result (IsTrue (is_order (map.get self.now.handed_out first) order)) }
        ensures here { OnOk result (set.contains self.now.lent first ≡ false) }
        ensures given { OnOk result (is_none self.now.memory ≡ false) }
    {
        if !self.is_handed_out(first, order) {
            return Err(ZoneError::NotHuge);
        }
        if self.is_lent(first) {
            return Err(ZoneError::Lent);
        }
        if self.owns_memory() {
            return Err(ZoneError::OwnMemory);
        }
        Ok(())
    }
}
