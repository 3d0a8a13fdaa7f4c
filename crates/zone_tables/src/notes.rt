//! What a zone notes of its pages.

ghost use Rattle.std.specs.Prelude.{◌≡◌, ◌+◌, ◌-◌, ℕ, ◌<◌, ◌≤◌, true, false, length, replicate, slice_get, slice_set, is_none, Some, IsSome, IfOk};
ghost use Rattle.frame_core.specs.Below.{count_below, lowest};
ghost use Rattle.zone_tables.specs.Notes.{placement_of, is_in_use, unused_note};
ghost use Rattle.zone_tables.specs.declared.note.PageNote.{PageNote as Noted};

use crate::kept_note::KeptNote;
use crate::note::PageNote;
use frame_core::{FixedVec, PageNo};
use number_set::NumberSet;
use state_core::Placement;
use std::alloc::{AllocError, Global};
use std::marker::Model;

/// The notes of a zone, by page number.
#[derive(Drop)]
pub struct Notes {
    notes: FixedVec<KeptNote>,
    /// How many page numbers are in use.
    in_use: u32,
    /// The page numbers that aren't in use.
    unused: NumberSet,
}

impl Model for Notes {
    ghost use Rattle.std.specs.Prelude.{List};
    ghost use Rattle.zone_tables.specs.declared.note.PageNote.{PageNote as Noted};

    ghost Value = { List Noted };

    ghost view = { λ z. z.notes.items };

    ghost use Rattle.zone_tables.specs.NotesInside.{IsCounted};

    ghost invariant = { IsCounted };
}

impl Notes {
    /// The notes of this many numbers, none of which is in use, or an error where there is no memory for them. No other call takes memory.
    pub fn open(alloc: Global, count: u32) -> Result<Self, AllocError>
        requires { count ≤ 16777216 }
        ensures { IfOk result (λ notes. notes ≡ replicate count unused_note) }
    {
        let mut notes = FixedVec::with_room(alloc, count as usize)?;
        for _ in 0..count {
            notes.push(KeptNote::of(PageNote::unused()));
        }
        let unused = NumberSet::filled(alloc, count)?;
        Ok(Notes {
            notes,
            in_use: 0,
            unused,
        })
    }

    /// The note of a page number.
    #[inline(always)]
    pub fn get(&self, page: PageNo) -> PageNote
        requires { page < length self.now }
        ensures { slice_get self.now page ≡ Some result }
    {
        self.notes[page.get() as usize].note()
    }

    /// Where a page is, if its number is one of the zone's and is in use.
    pub fn placement(&self, page: PageNo) -> Option<Placement>
        ensures { result ≡ placement_of self.now page }
    {
        self.notes.get(page.get() as usize)?.placement()
    }

    /// How many page numbers are in use.
    pub fn in_use(&self) -> u32
        ensures { result ≡ count_below (is_in_use self.now) (length self.now) }
    {
        self.in_use
    }

    /// Notes a page under a number that isn't in use, which is in use then.
    pub fn add(&mut self, page: PageNo, note: PageNote)
        requires within { page < length self.old }
        requires unused { is_in_use self.old page ≡ false }
        requires placed { IsSome note.placement }
        requires few { note.maps ≤ 15 }
        ensures { self.new ≡ slice_set self.old page note }
    {
        self.notes[page.get() as usize] = KeptNote::of(note);
        self.unused.remove(page.get());
        self.in_use += 1;
    }

    /// Takes a page number out of use.
    pub fn remove(&mut self, page: PageNo)
        requires used { is_in_use self.old page ≡ true }
        ensures { self.new ≡ slice_set self.old page unused_note }
    {
        self.notes[page.get() as usize] = KeptNote::of(PageNote::unused());
        self.unused.insert(page.get());
        self.in_use -= 1;
    }

    /// Gives a page in use another place.
    pub fn place(&mut self, page: PageNo, placement: Placement)
        requires { is_in_use self.old page ≡ true }
        ensures { (note : Noted) → slice_get self.old page ≡ Some note → self.new ≡ slice_set self.old page (record note { placement = Some placement }) }
    {
        self.notes[page.get() as usize].place(placement);
    }

    /// Notes that a word of a page in use was stored.
    pub fn store(&mut self, page: PageNo)
        requires { is_in_use self.old page ≡ true }
        ensures { (note : Noted) → slice_get self.old page ≡ Some note → self.new ≡ slice_set self.old page (record note { dirty = true }) }
    {
        self.notes[page.get() as usize].store();
    }

    /// Notes one pin more on a page in use.
    pub fn pin(&mut self, page: PageNo)
        requires used { is_in_use self.old page ≡ true }
        requires few { (note : Noted) → slice_get self.old page ≡ Some note → note.pins < 255 }
        ensures { (note : Noted) → slice_get self.old page ≡ Some note → self.new ≡ slice_set self.old page (record note { pins = note.pins + 1 }) }
    {
        self.notes[page.get() as usize].pin();
    }

    /// Notes one pin fewer on a page in use.
    pub fn unpin(&mut self, page: PageNo)
        requires used { is_in_use self.old page ≡ true }
        requires some { (note : Noted) → slice_get self.old page ≡ Some note → 0 < note.pins }
        ensures { (note : Noted) → slice_get self.old page ≡ Some note → self.new ≡ slice_set self.old page (record note { pins = note.pins - 1 }) }
    {
        self.notes[page.get() as usize].unpin();
    }

    /// Notes one address more for a page in use.
    pub fn share(&mut self, page: PageNo)
        requires used { is_in_use self.old page ≡ true }
        requires few { (note : Noted) → slice_get self.old page ≡ Some note → note.maps < 15 }
        ensures { (note : Noted) → slice_get self.old page ≡ Some note → self.new ≡ slice_set self.old page (record note { maps = note.maps + 1 }) }
    {
        self.notes[page.get() as usize].share();
    }

    /// Notes one address fewer for a page in use.
    pub fn unshare(&mut self, page: PageNo)
        requires used { is_in_use self.old page ≡ true }
        requires some { (note : Noted) → slice_get self.old page ≡ Some note → 0 < note.maps }
        ensures { (note : Noted) → slice_get self.old page ≡ Some note → self.new ≡ slice_set self.old page (record note { maps = note.maps - 1 }) }
    {
        self.notes[page.get() as usize].unshare();
    }

    /// The lowest page number that isn't in use, if there is one.
    pub fn lowest_unused(&self) -> Option<PageNo>
        ensures { result ≡ lowest (λ page. is_none (placement_of self.now page)) (length self.now) }
    {
        PageNo::in_any_zone(self.unused.first()?)
    }
}
