//! A second address for a page.

ghost use Rattle.std.specs.Prelude.{◌≡◌, ◌<◌, None, Some, IsTrue};
ghost use Rattle.frame_core.specs.History.{page_at};
ghost use Rattle.state_core.specs.Valid.{IsValidZone};
ghost use Rattle.state_core.specs.Sharing.{maps_at, shared};
ghost use Rattle.state_core.specs.ZoneState.{has_address, has_room, placement_at};
ghost use Rattle.state_core.specs.declared.placement.Placement.TheVariants.{At};

use crate::zone::ZoneTables;
use frame_core::{Address, ClientNo, FrameNo, PageNo, Record};

impl<const W: usize> ZoneTables<W> {
    /// Makes an alias name the page of an address too.
    pub fn share(
        &mut self,
        client: ClientNo,
        address: Address,
        alias: Address,
        page: PageNo,
        frame: FrameNo,
    )
        requires room { IsTrue (has_room self.old) }
        requires known { IsTrue (has_address self.old alias) }
        requires named { page_at self.old.records address ≡ Some page }
        requires frame { placement_at self.old address ≡ Some (At frame) }
        requires vacant { page_at self.old.records alias ≡ None }
        requires few { maps_at self.old address < 4 }
        ensures step { self.new ≡ shared self.old client address alias }
        ensures valid { IsValidZone self.new }
    {
        let second = alias;
        self.tables.set(second, frame);
        self.notes.share(page);
        self.history.note(Record::Share {
            client,
            address,
            alias,
        });
    }
}
