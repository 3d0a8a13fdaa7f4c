//! Pinning pages, moving ones too.

ghost use Rattle.std.specs.Prelude.{◌≡◌, ◌<◌, ℕ, true, Some, IsTrue};
ghost use Rattle.scan_core.specs.Frames.{holds_at};
ghost use Rattle.frame_core.specs.History.{page_at};
ghost use Rattle.state_core.specs.Valid.{IsValidZone};
ghost use Rattle.state_core.specs.Pinning.{pins_at, pinned, rests_lent, unpinned};
ghost use Rattle.state_core.specs.ZoneState.{has_room};
ghost use Rattle.state_core.specs.declared.placement.Placement.TheVariants.{At};
ghost use Rattle.zone_tables.specs.Notes.{movable_at};

use crate::note::PageNote;
use crate::zone::ZoneTables;
use frame_core::{Address, ClientNo, PageNo, Record};
use scan_core::Frames;
use state_core::Placement;

impl<const W: usize> ZoneTables<W> {
    /// Pins the page that an address names.
    pub fn pin(&mut self, client: ClientNo, address: Address, page: PageNo)
        requires room { IsTrue (has_room self.old) }
        requires named { page_at self.old.records address ≡ Some page }
        requires few { pins_at self.old address < 255 }
        ensures step { self.new ≡ pinned self.old client address }
        ensures valid { IsValidZone self.new }
    {
        self.notes.pin(page);
        say_movable(&mut self.frames, &self.notes.get(page), false);
        self.history.note(Record::Pin { client, address });
    }

    /// Takes a pin off the page that an address names.
    pub fn unpin(&mut self, client: ClientNo, address: Address, page: PageNo)
        requires room { IsTrue (has_room self.old) }
        requires named { page_at self.old.records address ≡ Some page }
        requires some { 0 < pins_at self.old address }
        requires keeps { rests_lent self.old address ≡ true → 1 < pins_at self.old address }
        ensures step { self.new ≡ unpinned self.old client address }
        ensures valid { IsValidZone self.new }
    {
        self.notes.unpin(page);
        let current = self.notes.get(page);
        say_movable(&mut self.frames, &current, current.can_move());
        self.history.note(Record::Unpin { client, address });
    }
}

/// Notes in the frame of a page whether the page may be taken from it. A moving page has no such note.
#[inline(always)]
fn say_movable(frames: &mut Frames, note: &PageNote, can_move: bool)
    requires { (frame : ℕ) → note.now.placement ≡ Some (At frame) → holds_at frames.old.states frame ≡ true }
    ensures { frames.new ≡ record frames.old { movable = movable_at frames.old.movable note.now.placement can_move } }
{
    if let Some(Placement::At(frame)) = note.placement {
        frames.set_movable(frame, can_move);
    }
}
