ghost use Rattle.std.specs.Prelude.{◌≡◌, ◌+◌, ◌-◌, ◌/◌, ◌%◌, ◌<◌, ◌≤◌, true, Some, nat_eq};

use crate::note::PageNote;
use frame_core::{FrameNo, Serial, Tagged};
use state_core::Placement;
use std::marker::Model;

/// The part of the marks that says that a page is unmovable. The number of its addresses is below it.
const UNMOVABLE: u8 = 16;

/// The part that says that it is dirty.
const DIRTY: u8 = 32;

/// The part that says that it is in a frame.
const AT: u8 = 64;

/// The part that says that it is moving.
const MOVING: u8 = 128;

/// A page's note in sixteen bytes. The numbers of its frames take three bytes each, so a byte is free beside each of them.
#[derive(Drop)]
pub struct KeptNote {
    /// The serial of a moving page.
    serial: Serial,
    /// The frame of the page, from which it moves if it is moving. Beside it stand its marks.
    frame: Tagged,
    /// The target of a moving page. Beside it stand the pins.
    target: Tagged,
}

impl Model for KeptNote {
    ghost use Rattle.zone_tables.specs.declared.note.PageNote.{PageNote as Noted};
    ghost use Rattle.zone_tables.specs.KeptNote.{note_kept};

    ghost Value = { Noted };

    ghost view = { λ z. note_kept z.serial z.frame z.target };
}

impl KeptNote {
    /// The note as it is kept. There is room for 15 addresses. A page has 4 at most.
    #[inline(always)]
    pub fn of(note: PageNote) -> Self
        requires { note.maps ≤ 15 }
        ensures { result ≡ note }
    {
        let mut kept = KeptNote {
            serial: 0,
            frame: Tagged::new(0, marks(note.maps, note.unmovable, note.dirty)),
            target: Tagged::new(0, note.pins),
        };
        if let Some(placement) = note.placement {
            kept.place(placement);
        }
        kept
    }

    /// The note.
    #[inline(always)]
    pub fn note(&self) -> PageNote
        ensures { result ≡ self.now }
    {
        let marks = self.frame.tag();
        PageNote {
            placement: self.placement(),
            unmovable: marks / UNMOVABLE % 2 == 1,
            dirty: marks / DIRTY % 2 == 1,
            pins: self.target.tag(),
            maps: marks % UNMOVABLE,
        }
    }

    /// Where the page is.
    #[inline(always)]
    pub fn placement(&self) -> Option<Placement>
        ensures { result ≡ self.now.placement }
    {
        let frame = FrameNo::in_any_zone(self.frame.number())?;
        match self.frame.tag() / AT {
            0 => None,
            1 => Some(Placement::At(frame)),
            _ => Some(Placement::Moving {
                serial: self.serial,
                source: frame,
                target: FrameNo::in_any_zone(self.target.number())?,
            }),
        }
    }

    /// Gives the page another place.
    #[inline(always)]
    pub fn place(&mut self, placement: Placement)
        ensures { self.new ≡ record self.old { placement = Some placement } }
    {
        let marks = self.frame.tag() % AT;
        match placement {
            Placement::At(frame) => self.frame = Tagged::new(frame.get(), AT + marks),
            Placement::Moving {
                serial,
                source,
                target,
            } => {
                self.serial = serial;
                self.frame = Tagged::new(source.get(), MOVING + marks);
                self.target = Tagged::new(target.get(), self.target.tag());
            }
        }
    }

    /// Notes that a word of the page was stored, where the note doesn't say so already.
    #[inline(always)]
    pub fn store(&mut self)
        ensures { self.new ≡ record self.old { dirty = true } }
    {
        let marks = self.frame.tag();
        if marks / DIRTY % 2 == 0 {
            self.frame = Tagged::new(self.frame.number(), marks + DIRTY);
        }
    }

    /// Notes one pin more.
    #[inline(always)]
    pub fn pin(&mut self)
        requires { self.old.pins < 255 }
        ensures { self.new ≡ record self.old { pins = self.old.pins + 1 } }
    {
        self.target = Tagged::new(self.target.number(), self.target.tag() + 1);
    }

    /// Notes one pin fewer.
    #[inline(always)]
    pub fn unpin(&mut self)
        requires { 0 < self.old.pins }
        ensures { self.new ≡ record self.old { pins = self.old.pins - 1 } }
    {
        self.target = Tagged::new(self.target.number(), self.target.tag() - 1);
    }

    /// Notes one address more. There is room for 15.
    #[inline(always)]
    pub fn share(&mut self)
        requires { self.old.maps < 15 }
        ensures { self.new ≡ record self.old { maps = self.old.maps + 1 } }
    {
        self.frame = Tagged::new(self.frame.number(), self.frame.tag() + 1);
    }

    /// Notes one address fewer.
    #[inline(always)]
    pub fn unshare(&mut self)
        requires { 0 < self.old.maps }
        ensures { self.new ≡ record self.old { maps = self.old.maps - 1 } }
    {
        self.frame = Tagged::new(self.frame.number(), self.frame.tag() - 1);
    }
}

/// The marks of a page that is nowhere yet, with room for 15 addresses.
#[inline(always)]
fn marks(maps: u8, unmovable: bool, dirty: bool) -> u8
    requires { maps ≤ 15 }
    ensures maps { result % 16 ≡ maps }
    ensures unmovable { nat_eq (result / 16 % 2) 1 ≡ unmovable }
    ensures dirty { nat_eq (result / 32 % 2) 1 ≡ dirty }
    ensures nowhere { result / 64 ≡ 0 }
{
    let unmovable = if unmovable { UNMOVABLE } else { 0 };
    let dirty = if dirty { DIRTY } else { 0 };
    maps + unmovable + dirty
}
