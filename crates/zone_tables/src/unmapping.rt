//! Taking an address from a page. With its last address the page goes out of use.

ghost use Rattle.std.specs.Prelude.{◌≡◌, ◌≢◌, ℕ, Some, None, IsTrue};
ghost use Rattle.std.specs.FinMap as map;
ghost use Rattle.frame_core.specs.History.{page_at, maps, pins};
ghost use Rattle.frame_core.specs.declared.record.Record.TheVariants.{Unmap};
ghost use Rattle.state_core.specs.Valid.{IsValidZone};
ghost use Rattle.state_core.specs.Unmapping.{last_refusal, unmapped, without_page};
ghost use Rattle.state_core.specs.ZoneState.{has_room, placement_at, noted};
ghost use Rattle.state_core.specs.declared.placement.Placement.TheVariants.{At};

use crate::zone::ZoneTables;
use frame_core::{Address, ClientNo, FrameNo, PageNo, Record};

impl<const W: usize> ZoneTables<W> {
    /// Makes an address name no page any more. A page that has no address left isn't in use.
    #[inline(always)]
    pub fn unmap(&mut self, client: ClientNo, address: Address, page: PageNo, frame: FrameNo)
        requires room { IsTrue (has_room self.old) }
        requires named { page_at self.old.records address ≡ Some page }
        requires frame { placement_at self.old address ≡ Some (At frame) }
        requires unpinned { last_refusal self.old address ≡ None }
        ensures step { self.new ≡ unmapped self.old client address }
        ensures valid { IsValidZone self.new }
    {
        if self.notes.get(page).maps == 1 {
            self.unmap_last(client, address, page, frame);
        } else {
            self.unmap_one(client, address, page);
        }
    }

    /// Takes one of its addresses from a page that has others.
    fn unmap_one(&mut self, client: ClientNo, address: Address, page: PageNo)
        requires room { IsTrue (has_room self.old) }
        requires named { page_at self.old.records address ≡ Some page }
        requires here { (frame : ℕ) × (map.get self.old.placement page ≡ Some (At frame)) }
        requires more { maps self.old.records page ≢ 1 }
        ensures step { self.new ≡ noted self.old (Unmap client address) }
        ensures valid { IsValidZone self.new }
    {
        let named = address;
        self.tables.clear(named);
        self.notes.unshare(page);
        self.history.note(Record::Unmap { client, address });
    }

    /// Takes its last address from a page: its frame is free, and its number isn't in use.
    #[inline(always)]
    fn unmap_last(&mut self, client: ClientNo, address: Address, page: PageNo, frame: FrameNo)
        requires room { IsTrue (has_room self.old) }
        requires named { page_at self.old.records address ≡ Some page }
        requires here { map.get self.old.placement page ≡ Some (At frame) }
        requires last { maps self.old.records page ≡ 1 }
        requires unpinned { pins self.old.records page ≡ 0 }
        ensures step { self.new ≡ without_page (noted self.old (Unmap client address)) page }
        ensures valid { IsValidZone self.new }
    {
        let named = address;
        self.tables.clear(named);
        let unmovable = self.notes.get(page).unmovable;
        self.frames.empty(frame, unmovable);
        self.notes.remove(page);
        self.history.note(Record::Unmap { client, address });
    }
}
