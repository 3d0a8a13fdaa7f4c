//! Making an address name a fresh page.

ghost use Rattle.std.specs.Prelude.{◌≡◌, ◌<◌, nat_lt, Some, None, IsTrue, IsSome, IfSome, is_none, is_some};
ghost use Rattle.frame_core.specs.History.{page_at};
ghost use Rattle.state_core.specs.Valid.{IsValidZone};
ghost use Rattle.state_core.specs.Mapping.{mapped};
ghost use Rattle.state_core.specs.ZoneState.{frame_count, has_address, has_room, is_free, frame_for, lowest_free_frame, lowest_unused_page};
ghost use Rattle.state_core.specs.Claiming.{with_apart};

use crate::note::PageNote;
use crate::zone::ZoneTables;
use frame_core::{Address, ClientNo, FrameNo, PageNo, Record};
use table_core::Entry;

impl<const W: usize> ZoneTables<W> {
    /// Whether an address names a page.
    pub fn names_page(&self, address: &Address) -> bool
        ensures { result ≡ is_some (page_at self.now.records address.now) }
    {
        match self.tables.entry(*address) {
            Entry::Absent => false,
            _ => true,
        }
    }

    /// Whether the zone has an address.
    #[inline(always)]
    pub fn has_address(&self, address: &Address) -> bool
        ensures { result ≡ has_address self.now address.now }
    {
        self.size.has_address(address)
    }

    /// Whether the zone has a frame.
    pub fn has_frame(&self, frame: FrameNo) -> bool
        ensures { result ≡ nat_lt frame (frame_count self.now) }
    {
        frame.get() < 512 * self.size.blocks
    }

    /// Whether a frame of the zone is free.
    pub fn is_free(&self, frame: FrameNo) -> bool
        requires { frame < frame_count self.now }
        ensures { result ≡ is_free self.now frame }
    {
        self.frames.is_free(frame)
    }

    /// The frame that a page is mapped to, if one is free: the lowest one, or one by its pageblock where unmovable pages are mapped apart.
    pub fn frame_for(&self, unmovable: bool) -> Option<FrameNo>
        ensures frame { result ≡ frame_for self.now unmovable }
        ensures none { is_none result ≡ is_none (lowest_free_frame self.now) }
        ensures free { IfSome result (λ frame. IsTrue (is_free self.now frame)) }
        ensures within { IfSome result (λ frame. frame < frame_count self.now) }
    {
        if self.apart {
            return self.frames.frame_apart(unmovable);
        }
        self.frames.lowest_free()
    }

    /// Maps unmovable pages apart from the others from now on, or not.
    pub fn set_apart(&mut self, apart: bool)
        ensures step { self.new ≡ with_apart self.old apart }
        ensures valid { IsValidZone self.new }
    {
        self.apart = apart;
    }

    /// The lowest page number that isn't in use. There is one wherever a frame is free.
    fn unused_page(&self) -> PageNo
        requires { IsSome (lowest_free_frame self.now) }
        ensures { lowest_unused_page self.now ≡ Some result }
    {
        let Some(page) = self.notes.lowest_unused() else {
            unreachable!();
        };
        page
    }

    /// Makes an address name a fresh page in a free frame, and answers its number.
    #[inline(always)]
    pub fn place(
        &mut self,
        client: ClientNo,
        address: Address,
        unmovable: bool,
        frame: FrameNo,
    ) -> PageNo
        requires room { IsTrue (has_room self.old) }
        requires known { IsTrue (has_address self.old address) }
        requires vacant { page_at self.old.records address ≡ None }
        requires free { IsTrue (is_free self.old frame) }
        requires within { frame < frame_count self.old }
        ensures page { lowest_unused_page self.old ≡ Some result }
        ensures step { self.new ≡ mapped self.old client address unmovable frame }
        ensures valid { IsValidZone self.new }
    {
        let named = address;
        let page = self.unused_page();
        self.frames.fill(frame, page, !unmovable, unmovable);
        self.tables.set(named, frame);
        self.words.blank(frame);
        self.notes.add(page, PageNote::fresh(frame, unmovable));
        self.history.note(Record::Map {
            client,
            address,
            page,
        });
        page
    }
}
