//! Reading and writing the words of pages.

ghost use Rattle.std.specs.Prelude.{◌≡◌, Some, false, IsSome, IsTrue, IfOk, OnOk};
ghost use Rattle.frame_core.specs.History.{page_at};
ghost use Rattle.state_core.specs.Valid.{IsValidZone};
ghost use Rattle.state_core.specs.Access.{is_page_lent, placement_refusal, words_refusal, value_at, loaded, stored};
ghost use Rattle.state_core.specs.Bulk.{has_room_for};
ghost use Rattle.state_core.specs.Isolating.{has_room_for_two};
ghost use Rattle.std.specs.Result.{result_err};
ghost use Rattle.state_core.specs.ZoneState.{has_room, placement_at};
ghost use Rattle.state_core.specs.declared.placement.Placement.TheVariants.{At};

use crate::zone::ZoneTables;
use frame_core::{Address, ClientNo, FrameNo, Record, WordOf};
use state_core::ZoneError;
use table_core::Entry;

impl<const W: usize> ZoneTables<W> {
    /// Whether the journal has room for a call.
    pub fn has_room(&self) -> bool
        ensures { result ≡ has_room self.now }
    {
        self.moves.out() < self.history.room()
    }

    /// Whether the journal has room for so many calls.
    pub fn has_room_for(&self, count: usize) -> bool
        ensures { result ≡ has_room_for self.now count }
    {
        count as u64 <= self.history.room() - self.moves.out()
    }

    /// Whether the journal has room for an isolation and for its end.
    pub fn has_room_for_two(&self) -> bool
        ensures { result ≡ has_room_for_two self.now }
    {
        self.moves.out() + 1 < self.history.room()
    }

    /// The frame of the page that an address names. An address that names no page is refused as Unmapped, and one whose
    /// page is moving as Moving.
    pub fn frame_of(&self, address: &Address) -> Result<FrameNo, ZoneError>
        ensures refused { result_err result ≡ placement_refusal (placement_at self.now address.now) }
        ensures frame { IfOk result (λ frame. placement_at self.now address.now ≡ Some (At frame)) }
        ensures named { IfOk result (λ frame. IsSome (page_at self.now.records address.now)) }
    {
        match self.tables.entry(*address) {
            Entry::Absent => Err(ZoneError::Unmapped),
            Entry::Present(frame) => Ok(frame),
            Entry::Migration(_) => Err(ZoneError::Moving),
        }
    }

    /// The frame of the page that an address names, where its words can be read and written. It is refused as `frame_of` refuses it, or as
    /// Lent.
    pub fn frame_here(&self, address: &Address) -> Result<FrameNo, ZoneError>
        ensures refused { result_err result ≡ words_refusal self.now address.now }
        ensures frame { IfOk result (λ frame. placement_at self.now address.now ≡ Some (At frame)) }
        ensures here { OnOk result (is_page_lent self.now address.now ≡ false) }
    {
        let frame = self.frame_of(address)?;
        if self.is_lent_in(frame) {
            return Err(ZoneError::Lent);
        }
        Ok(frame)
    }

    /// Reads a word of the page that an address names.
    pub fn read(
        &mut self,
        client: ClientNo,
        address: Address,
        frame: FrameNo,
        word: WordOf<W>,
    ) -> u64
        requires room { IsTrue (has_room self.old) }
        requires frame { placement_at self.old address ≡ Some (At frame) }
        requires here { is_page_lent self.old address ≡ false }
        ensures value { result ≡ value_at self.old address word.entry }
        ensures step { self.new ≡ loaded self.old client address word.entry }
        ensures valid { IsValidZone self.new }
    {
        let value = self.words.load(frame, word);
        self.history.note(Record::Load {
            client,
            address,
            word: word.noted(),
            value,
        });
        value
    }

    /// Writes a word of the page that an address names.
    pub fn write(
        &mut self,
        client: ClientNo,
        address: Address,
        frame: FrameNo,
        word: WordOf<W>,
        value: u64,
    )
        requires room { IsTrue (has_room self.old) }
        requires frame { placement_at self.old address ≡ Some (At frame) }
        requires here { is_page_lent self.old address ≡ false }
        ensures step { self.new ≡ stored self.old client address word.entry value }
        ensures valid { IsValidZone self.new }
    {
        let Some(page) = self.holder(frame) else {
            unreachable!();
        };
        self.words.store(frame, word, value);
        self.notes.store(page);
        self.history.note(Record::Store {
            client,
            address,
            word: word.noted(),
            value,
        });
    }
}
