//! What each address names. The entries are kept so that one write turns all addresses of a page into migration entries.

ghost use Rattle.std.specs.Prelude.{◌≡◌, ◌≢◌, ◌↔◌, ℕ, ◌*◌, ◌<◌, true, false, length, slice_get, IfOk, Some};
ghost use Rattle.frame_core.specs.declared.place.Address.{Address as Named};
ghost use Rattle.frame_core.specs.Address.{InTable};
ghost use Rattle.table_core.specs.Names.{IsIn};
ghost use Rattle.table_core.specs.Tables.{place_of, entry_at, with_entry, is_listed, IsBlank, Replaces};

use crate::entry::Entry;
use crate::listed_under::ListedUnder;
use crate::size::Size;
use frame_core::{Address, FixedVec, FrameNo};
use std::alloc::{AllocError, Global};
use std::marker::Model;

/// The entry of each address, kept in two lists: for each address the frame under which it is listed, and for each frame
/// whether its page left it and is moving.
#[derive(Drop)]
pub struct Entries {
    size: Size,
    frames: FixedVec<ListedUnder>,
    left: FixedVec<bool>,
}

impl Model for Entries {
    ghost use Rattle.std.specs.Prelude.{length};
    ghost use Rattle.table_core.specs.EntriesInside.{entries_of, AreKept};
    ghost use Rattle.table_core.specs.Tables.{Tables as Kept};

    ghost Value = { Kept };

    ghost view = { λ e. record { entries = record { list = entries_of e.left.items e.frames.items; size = e.size }; frames = length e.left.items } };

    ghost invariant = { λ e. AreKept e.size e.left.items e.frames.items };
}

impl Entries {
    /// Entries of this size in which each address is absent, for a zone with this many frames, or an error where there is
    /// no memory for them. No other call takes memory.
    pub fn open(alloc: Global, size: Size, frames: usize) -> Result<Entries, AllocError>
        ensures blank { IfOk result (λ entries. IsBlank entries.entries) }
        ensures frames { IfOk result (λ entries. entries.frames ≡ frames) }
        ensures size { IfOk result (λ entries. entries.entries.size ≡ size) }
    {
        Ok(Entries {
            size,
            frames: FixedVec::filled(alloc, ListedUnder::none(), size.addresses())?,
            left: FixedVec::filled(alloc, false, frames)?,
        })
    }

    /// How many spaces and pages there are entries for.
    #[inline]
    pub fn size(&self) -> Size
        ensures value { result ≡ self.now.entries.size }
        ensures count { length self.now.entries.list ≡ result.spaces * result.pages }
    {
        self.size
    }

    /// How many addresses there are.
    #[inline]
    pub fn len(&self) -> usize
        ensures { result ≡ length self.now.entries.list }
    {
        self.frames.len()
    }

    /// What the address at a place of the list names.
    pub fn get(&self, place: usize) -> Entry
        requires { place < length self.now.entries.list }
        ensures { slice_get self.now.entries.list place ≡ Some result }
    {
        let Some(frame) = self.frames[place].get() else {
            return Entry::Absent;
        };
        if self.left[frame.get() as usize] {
            Entry::Migration(frame)
        } else {
            Entry::Present(frame)
        }
    }

    /// Makes the address at a place name the page in a frame. No address may name a page that left this frame.
    pub fn set(&mut self, place: usize, frame: FrameNo)
        requires place { place < length self.old.entries.list }
        requires within { frame < self.old.frames }
        requires resting { (a : Named) → entry_at self.old.entries a ≢ Entry.Migration frame }
        ensures { self.new ≡ record self.old { entries = with_entry self.old.entries place (Entry.Present frame) } }
    {
        self.frames[place] = ListedUnder::some(frame);
        self.left[frame.get() as usize] = false;
    }

    /// Makes the address at a place name nothing.
    pub fn clear(&mut self, place: usize)
        requires { place < length self.old.entries.list }
        ensures { self.new ≡ record self.old { entries = with_entry self.old.entries place Entry.Absent } }
    {
        self.frames[place] = ListedUnder::none();
    }

    /// Turns each address that names the page in a frame into a migration entry. No address may name another page that left
    /// this frame.
    pub fn to_migration(&mut self, frame: FrameNo)
        requires within { frame < self.old.frames }
        requires resting { (a : Named) → entry_at self.old.entries a ≢ Entry.Migration frame }
        ensures replaced { Replaces self.old.entries self.new.entries (Entry.Present frame) (Entry.Migration frame) }
        ensures frames { self.new.frames ≡ self.old.frames }
        ensures size { self.new.entries.size ≡ self.old.entries.size }
    {
        self.left[frame.get() as usize] = true;
    }

    /// Ends a migration: the addresses that named it, which are exactly those of the list, name the frame now. No other address
    /// may be listed under the frame that the page left, or under the one to which it goes.
    pub fn to_present(&mut self, names: &[Address], source: FrameNo, frame: FrameNo)
        requires source_within { source < self.old.frames }
        requires within { frame < self.old.frames }
        requires named { (a : Named) → IsIn names.now a ↔ (entry_at self.old.entries a ≡ Entry.Migration source) }
        requires left { (a : Named) → is_listed (entry_at self.old.entries a) source ≡ true → entry_at self.old.entries a ≡ Entry.Migration source }
        requires unnamed { frame ≢ source → (a : Named) → is_listed (entry_at self.old.entries a) frame ≡ false }
        ensures replaced { Replaces self.old.entries self.new.entries (Entry.Migration source) (Entry.Present frame) }
        ensures frames { self.new.frames ≡ self.old.frames }
        ensures size { self.new.entries.size ≡ self.old.entries.size }
    {
        self.left[source.get() as usize] = false;
        self.left[frame.get() as usize] = false;
        list_under(&mut self.frames, self.size, names, frame);
    }
}

/// Lists the addresses under a frame.
fn list_under(frames: &mut [ListedUnder], size: Size, names: &[Address], frame: FrameNo)
    requires count { length frames.old ≡ size.spaces * size.pages }
    requires inside { (a : Named) → IsIn names.now a → InTable size.spaces size.pages a }
    ensures named { (a : Named) → IsIn names.now a → slice_get frames.new (place_of size.pages a) ≡ Some (Some frame) }
    ensures other { (place : ℕ) → ((a : Named) → IsIn names.now a → place_of size.pages a ≢ place) → slice_get frames.new place ≡ slice_get frames.old place }
    ensures count { length frames.new ≡ length frames.old }
{
    for name in names {
        frames[size.place_of(name)] = ListedUnder::some(frame);
    }
}
