//! Reading and writing several words of a page in one call.

ghost use Rattle.std.specs.Prelude.{◌≡◌, ◌+◌, ◌≤◌, length, false, Some, IsTrue, IfOk, OnOk};
ghost use Rattle.std.specs.Result.{result_err};
ghost use Rattle.state_core.specs.Access.{is_page_lent};
ghost use Rattle.state_core.specs.Bulk.{bulk_refusal, has_room_for, values_at, loaded_all, stored_all};
ghost use Rattle.state_core.specs.Valid.{IsValidZone};
ghost use Rattle.state_core.specs.ZoneState.{placement_at};
ghost use Rattle.state_core.specs.declared.placement.Placement.TheVariants.{At};

use crate::zone::ZoneTables;
use frame_core::{Access, AccessKind, Address, ClientNo, FrameNo, WordOf};
use state_core::ZoneError;

impl<const W: usize> ZoneTables<W> {
    /// The frame of the page that an address names, where this many words, from one on, can be read or written: they are in
    /// the page, the journal has a place for each, the page isn't moving, and its words aren't lent.
    pub fn bulk_frame(
        &self,
        address: &Address,
        from: WordOf<W>,
        count: usize,
    ) -> Result<FrameNo, ZoneError>
        ensures refused { result_err result ≡ bulk_refusal self.now address.now from.entry count }
        ensures within { OnOk result (from.entry + count ≤ W) }
        ensures room { OnOk result (IsTrue (has_room_for self.now count)) }
        ensures frame { IfOk result (λ frame. placement_at self.now address.now ≡ Some (At frame)) }
        ensures here { OnOk result (is_page_lent self.now address.now ≡ false) }
    {
        if count > self.words.page_words() - from.get() as usize {
            return Err(ZoneError::Range);
        }
        if !self.has_room_for(count) {
            return Err(ZoneError::JournalFull);
        }
        self.frame_here(address)
    }

    /// Reads words of the page that an address names, from one on, as many as there is room for.
    pub fn read_words(
        &mut self,
        client: ClientNo,
        address: Address,
        frame: FrameNo,
        from: WordOf<W>,
        values: &mut [u64],
    )
        requires within { from + length values.old ≤ W }
        requires room { IsTrue (has_room_for self.old (length values.old)) }
        requires frame { placement_at self.old address ≡ Some (At frame) }
        requires here { is_page_lent self.old address ≡ false }
        ensures values { values.new ≡ values_at self.old address from.entry (length values.old) }
        ensures step { self.new ≡ loaded_all self.old client address from.entry (length values.old) }
        ensures valid { IsValidZone self.new }
    {
        self.words.load_words(frame, from.get() as usize, values);
        let loads = Access {
            kind: AccessKind::Load,
            client,
            address,
        };
        self.history.note_each(&loads, from.noted(), values);
    }

    /// Writes words of the page that an address names, from one on.
    pub fn write_words(
        &mut self,
        client: ClientNo,
        address: Address,
        frame: FrameNo,
        from: WordOf<W>,
        values: &[u64],
    )
        requires within { from + length values.now ≤ W }
        requires room { IsTrue (has_room_for self.old (length values.now)) }
        requires frame { placement_at self.old address ≡ Some (At frame) }
        requires here { is_page_lent self.old address ≡ false }
        ensures step { self.new ≡ stored_all self.old client address from.entry values.now }
        ensures valid { IsValidZone self.new }
    {
        let Some(page) = self.holder(frame) else {
            unreachable!();
        };
        // A page that no word was stored to isn't dirty.
        if values.is_empty() {
            return;
        }
        self.words.store_words(frame, from.get() as usize, values);
        self.notes.store(page);
        let stores = Access {
            kind: AccessKind::Store,
            client,
            address,
        };
        self.history.note_each(&stores, from.noted(), values);
    }
}
