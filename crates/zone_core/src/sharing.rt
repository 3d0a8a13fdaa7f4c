//! The addresses and the pins of pages.

ghost use Rattle.std.specs.Prelude.{◌≡◌, OnOk, OnErr};
ghost use Rattle.std.specs.Result.{result_err};
ghost use Rattle.state_core.specs.Valid.{IsValidZone};
ghost use Rattle.state_core.specs.Sharing.{share_refusal, shared};
ghost use Rattle.state_core.specs.Unmapping.{unmap_refusal, unmapped};
ghost use Rattle.state_core.specs.Pinning.{pin_refusal, pinned, unpin_refusal, unpinned};
ghost use Rattle.zone_core.specs.ZoneIdentity.{HasIdentity};

use crate::opening::{Opening, ZoneInOf};
use frame_core::{Address, ClientNo};
use state_core::ZoneError;

impl<const W: usize, Z: Opening> ZoneInOf<W, Z> {
    /// Makes an alias name the page of an address too. A page has at most 4 addresses.
    ///
    /// Refused as Range where the zone has no such alias, as JournalFull, as Unmapped or Moving for the address, as Occupied for the alias, or as
    /// ShareFull.
    pub fn share(
        &mut self,
        client: ClientNo,
        address: Address,
        alias: Address,
    ) -> Result<(), ZoneError>
        ensures refused { result_err result ≡ share_refusal self.old address alias }
        ensures err { OnErr result (self.new ≡ self.old) }
        ensures ok { OnOk result (self.new ≡ shared self.old client address alias) }
        ensures identity { HasIdentity self.old.number self.old.blocks self.new }
        ensures valid { IsValidZone self.new }
    {
        self.bare.share(client, address, alias)
    }

    /// Makes an address name no page any more. A page that has no address left isn't in use: its number and its frame may be
    /// used again. The last address of a page with a pin can't be unmapped.
    ///
    /// Refused as JournalFull, Unmapped, Moving or Pinned.
    pub fn unmap(&mut self, client: ClientNo, address: Address) -> Result<(), ZoneError>
        ensures refused { result_err result ≡ unmap_refusal self.old address }
        ensures err { OnErr result (self.new ≡ self.old) }
        ensures ok { OnOk result (self.new ≡ unmapped self.old client address) }
        ensures identity { HasIdentity self.old.number self.old.blocks self.new }
        ensures valid { IsValidZone self.new }
    {
        self.bare.unmap(client, address)
    }

    /// Pins the page that an address names, also while the page is moving. It isn't isolated or moved until each of its
    /// pins is taken off. A page has at most 255 pins.
    ///
    /// Refused as JournalFull, Unmapped or PinFull.
    pub fn pin(&mut self, client: ClientNo, address: Address) -> Result<(), ZoneError>
        ensures refused { result_err result ≡ pin_refusal self.old address }
        ensures err { OnErr result (self.new ≡ self.old) }
        ensures ok { OnOk result (self.new ≡ pinned self.old client address) }
        ensures identity { HasIdentity self.old.number self.old.blocks self.new }
        ensures valid { IsValidZone self.new }
    {
        self.bare.pin(client, address)
    }

    /// Takes a pin off the page that an address names, also while the page is moving.
    ///
    /// Refused as JournalFull, Unmapped or NotPinned.
    pub fn unpin(&mut self, client: ClientNo, address: Address) -> Result<(), ZoneError>
        ensures refused { result_err result ≡ unpin_refusal self.old address }
        ensures err { OnErr result (self.new ≡ self.old) }
        ensures ok { OnOk result (self.new ≡ unpinned self.old client address) }
        ensures identity { HasIdentity self.old.number self.old.blocks self.new }
        ensures valid { IsValidZone self.new }
    {
        self.bare.unpin(client, address)
    }
}
