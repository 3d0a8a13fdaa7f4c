//! Reading and writing several words of a page in one call.

ghost use Rattle.std.specs.Prelude.{◌≡◌, ◌+◌, ◌≤◌, length, OnOk, OnErr};
ghost use Rattle.std.specs.Result.{result_err};
ghost use Rattle.state_core.specs.Bulk.{bulk_refusal, values_at, loaded_all, stored_all};
ghost use Rattle.state_core.specs.Valid.{IsValidZone};
ghost use Rattle.state_core.specs.Pairs.{HaveMet};
ghost use Rattle.zone_core.specs.ZoneIdentity.{HasIdentity};

use crate::opening::{Opening, ZoneInOf};
use frame_core::{Address, ClientNo, WordOf};
use state_core::ZoneError;

impl<const W: usize, Z: Opening> ZoneInOf<W, Z> {
    /// Reads words of the page that an address names, from one on, into `values`: as loads of these words do, one after the
    /// other.
    ///
    /// Refused as Range where the words go past the page, as JournalFull where the journal has no place for each of them,
    /// or as Unmapped or Moving.
    pub fn read(
        &mut self,
        client: ClientNo,
        address: Address,
        from: WordOf<W>,
        values: &mut [u64],
    ) -> Result<(), ZoneError>
        ensures refused { result_err result ≡ bulk_refusal self.old address from.entry (length values.old) }
        ensures err { OnErr result ((self.new ≡ self.old) × (values.new ≡ values.old)) }
        ensures within { OnOk result (from.entry + length values.old ≤ W) }
        ensures values { OnOk result (values.new ≡ values_at self.old address from.entry (length values.old)) }
        ensures ok { OnOk result (self.new ≡ loaded_all self.old client address from.entry (length values.old)) }
        ensures met { OnOk result (HaveMet self.old → HaveMet self.new) }
        ensures identity { HasIdentity self.old.number self.old.blocks self.new }
        ensures valid { IsValidZone self.new }
    {
        self.bare.read(client, address, from, values)
    }

    /// Writes words of the page that an address names, from one on: as stores of these values do, one after the other.
    ///
    /// Refused as Range where the words go past the page, as JournalFull where the journal has no place for each of them,
    /// or as Unmapped or Moving.
    pub fn write(
        &mut self,
        client: ClientNo,
        address: Address,
        from: WordOf<W>,
        values: &[u64],
    ) -> Result<(), ZoneError>
        ensures refused { result_err result ≡ bulk_refusal self.old address from.entry (length values.now) }
        ensures err { OnErr result (self.new ≡ self.old) }
        ensures within { OnOk result (from.entry + length values.now ≤ W) }
        ensures ok { OnOk result (self.new ≡ stored_all self.old client address from.entry values.now) }
        ensures met { OnOk result (HaveMet self.old → HaveMet self.new) }
        ensures identity { HasIdentity self.old.number self.old.blocks self.new }
        ensures valid { IsValidZone self.new }
    {
        self.bare.write(client, address, from, values)
    }
}
