ghost use Rattle.std.specs.Prelude.{◌≡◌, ◌≢◌, ◌↔◌, ℕ, ◌*◌, ◌^◌, ◌<◌, ◌≤◌, true, false, length, IfOk, IsTrue};
ghost use Rattle.frame_core.specs.Address.{InRange, InTable};
ghost use Rattle.frame_core.specs.declared.place.Address.{Address as Named};
ghost use Rattle.table_core.specs.Names.{IsIn, IsRising, AreJust};
ghost use Rattle.table_core.specs.Tables.{entry_at, is_listed, count_listed, IsBlank, ChangesOnly, Replaces};

use crate::entries::Entries;
use crate::entry::Entry;
use crate::names::{Names, none_named};
use crate::size::Size;
use arrayvec::ArrayVec;
use frame_core::{Address, FixedVec, FrameNo};
use std::alloc::{AllocError, Global};
use std::marker::Model;

/// The entry of each address of a zone, and for each frame the addresses that are listed under it.
#[derive(Drop)]
pub struct Tables {
    pub(crate) entries: Entries,
    lists: FixedVec<Names>,
}

impl Model for Tables {
    ghost use Rattle.std.specs.Prelude.{◌≡◌, length};
    ghost use Rattle.table_core.specs.Listed.{AreListed};
    ghost use Rattle.table_core.specs.Tables.{Tables as Kept};

    ghost Value = { Kept };

    ghost view = { λ t. t.entries };

    ghost invariant = { λ t. AreListed t.entries.entries t.lists.items × (t.entries.frames ≡ length t.lists.items) };
}

impl Tables {
    /// Tables for this many pageblocks, and for this many address spaces with so many virtual pages each, in which each
    /// address is absent, or an error where there is no memory for them. No other call takes memory.
    pub fn open(alloc: Global, blocks: u32, spaces: u32, pages: u32) -> Result<Tables, AllocError>
        requires blocks { blocks ≤ 32768 }
        requires spaces { spaces ≤ 256 }
        requires pages { pages ≤ 2 ^ 24 }
        requires addresses { spaces * pages ≤ 2 ^ 26 }
        ensures blank { IfOk result (λ tables. IsBlank tables.entries) }
        ensures frames { IfOk result (λ tables. tables.frames ≡ 512 * blocks) }
        ensures size { IfOk result (λ tables. tables.entries.size ≡ record { spaces = spaces; pages = pages }) }
    {
        let frames = 512 * blocks as usize;
        Ok(Tables {
            entries: Entries::open(alloc, Size { spaces, pages }, frames)?,
            lists: none_named(alloc, frames)?,
        })
    }

    /// What an address names: nothing, if it is outside of the table.
    #[inline(always)]
    pub fn entry(&self, address: Address) -> Entry
        ensures value { result ≡ entry_at self.now.entries address }
        ensures range { InRange address }
    {
        let size = self.entries.size();
        if address.vpage.get() >= size.pages {
            return Entry::Absent;
        }
        let place = size.place_of(&address);
        if place < self.entries.len() {
            self.entries.get(place)
        } else {
            Entry::Absent
        }
    }

    /// Whether a further address may name a frame: fewer than 4 are listed under it.
    pub fn has_room(&self, frame: FrameNo) -> bool
        requires { frame < self.now.frames }
        ensures { IsTrue result ↔ (count_listed self.now.entries frame < 4) }
    {
        self.lists[frame.get() as usize].as_slice().len() < 4
    }

    /// Makes an absent address of the table name the page in a frame. `has_room` has to be true of the frame, and no address
    /// may name a page that left it.
    #[inline(always)]
    pub fn set(&mut self, address: Address, frame: FrameNo)
        requires inside { InTable self.old.entries.size.spaces self.old.entries.size.pages address }
        requires absent { entry_at self.old.entries address ≡ Entry.Absent }
        requires within { frame < self.old.frames }
        requires room { count_listed self.old.entries frame < 4 }
        requires resting { (a : Named) → InRange a → entry_at self.old.entries a ≢ Entry.Migration frame }
        ensures set { ChangesOnly self.old.entries self.new.entries address (Entry.Present frame) }
        ensures range { InRange address }
        ensures frames { self.new.frames ≡ self.old.frames }
        ensures size { self.new.entries.size ≡ self.old.entries.size }
    {
        let place = self.entries.size().place_of(&address);
        self.entries.set(place, frame);
        self.lists[frame.get() as usize].insert(address);
    }

    /// Makes an address that names a frame name nothing.
    #[inline(always)]
    pub fn clear(&mut self, address: Address)
        requires { (frame : ℕ) × (entry_at self.old.entries address ≡ Entry.Present frame) }
        ensures cleared { ChangesOnly self.old.entries self.new.entries address Entry.Absent }
        ensures range { InRange address }
        ensures frames { self.new.frames ≡ self.old.frames }
        ensures size { self.new.entries.size ≡ self.old.entries.size }
    {
        let place = self.entries.size().place_of(&address);
        if let Entry::Present(frame) = self.entries.get(place) {
            self.entries.clear(place);
            self.lists[frame.get() as usize].remove(&address);
        }
    }

    /// Turns each address that names the page in a frame into a migration entry. Before it no address may name a page that
    /// left this frame.
    pub fn to_migration(&mut self, frame: FrameNo)
        requires within { frame < self.old.frames }
        requires resting { (a : Named) → InRange a → entry_at self.old.entries a ≢ Entry.Migration frame }
        ensures replaced { Replaces self.old.entries self.new.entries (Entry.Present frame) (Entry.Migration frame) }
        ensures frames { self.new.frames ≡ self.old.frames }
        ensures size { self.new.entries.size ≡ self.old.entries.size }
    {
        self.entries.to_migration(frame);
    }

    /// Ends a migration: each address that named it names the frame now. `source` is the frame that the page left. Each
    /// address that is listed under it has to name this migration, and none may be listed under another frame to which the
    /// page goes.
    pub fn to_present(&mut self, source: FrameNo, frame: FrameNo)
        requires source_within { source < self.old.frames }
        requires within { frame < self.old.frames }
        requires left { (a : Named) → InRange a → is_listed (entry_at self.old.entries a) source ≡ true → entry_at self.old.entries a ≡ Entry.Migration source }
        requires unnamed { frame ≢ source → (a : Named) → InRange a → is_listed (entry_at self.old.entries a) frame ≡ false }
        ensures replaced { Replaces self.old.entries self.new.entries (Entry.Migration source) (Entry.Present frame) }
        ensures frames { self.new.frames ≡ self.old.frames }
        ensures size { self.new.entries.size ≡ self.old.entries.size }
    {
        let names = self.lists[source.get() as usize].as_slice();
        self.entries.to_present(names, source, frame);
        self.lists.swap(source.get() as usize, frame.get() as usize);
    }

    /// The addresses that name the page in a frame, in rising order.
    pub fn mappings(&self, frame: FrameNo) -> ArrayVec<Address, 4>
        requires { frame < self.now.frames }
        ensures { AreJust result.items (λ a. entry_at self.now.entries a ≡ Entry.Present frame) }
    {
        let names = self.lists[frame.get() as usize].as_slice();
        those_with(&self.entries, names, &Entry::Present(frame))
    }

    /// The addresses that name the moving page that left a frame, in rising order.
    pub fn mappings_moving(&self, source: FrameNo) -> ArrayVec<Address, 4>
        requires { source < self.now.frames }
        ensures { AreJust result.items (λ a. entry_at self.now.entries a ≡ Entry.Migration source) }
    {
        let names = self.lists[source.get() as usize].as_slice();
        those_with(&self.entries, names, &Entry::Migration(source))
    }
}

/// The addresses of the list, four at most, that have this entry.
fn those_with(entries: &Entries, names: &[Address], entry: &Entry) -> ArrayVec<Address, 4>
    requires inside { (a : Named) → IsIn names.now a → InTable entries.now.entries.size.spaces entries.now.entries.size.pages a }
    requires few { length names.now ≤ 4 }
    requires rising { IsRising names.now }
    ensures rising { IsRising result.items }
    ensures each { (a : Named) → IsIn result.items a ↔ (IsIn names.now a × (entry_at entries.now.entries a ≡ entry.now)) }
{
    let size = entries.size();
    let mut found = ArrayVec::new();
    for name in names {
        if entries.get(size.place_of(name)) == *entry {
            found.push(*name);
        }
    }
    found
}
