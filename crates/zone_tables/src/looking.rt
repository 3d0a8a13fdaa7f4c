//! What is known of the page that an address names.

ghost use Rattle.std.specs.Prelude.{◌≡◌, Some, IsSome, IfSome};
ghost use Rattle.std.specs.FinMap as map;
ghost use Rattle.frame_core.specs.History.{page_at, pins, maps};
ghost use Rattle.state_core.specs.Looking.{look_by, look_of};
ghost use Rattle.state_core.specs.Pinning.{pins_at};
ghost use Rattle.state_core.specs.Sharing.{maps_at};

use crate::zone::ZoneTables;
use frame_core::{Address, PageNo};
use state_core::{Look, Placement};
use table_core::Entry;

/// A page in use, and how it is used: its pins and its addresses.
#[derive(Clone, Copy, Debug, PartialEq, Eq)]
pub struct Uses {
    pub page: PageNo,
    pub pins: u8,
    /// How many addresses name the page.
    pub maps: u8,
}

impl<const W: usize> ZoneTables<W> {
    /// The page that an address names, if it names one. The page may be moving.
    #[inline(always)]
    pub fn page_named(&self, address: &Address) -> Option<PageNo>
        ensures page { result ≡ page_at self.now.records address.now }
        ensures in_use { IfSome result (λ page. IsSome (map.get self.now.placement page)) }
    {
        match self.tables.entry(*address) {
            Entry::Absent => None,
            Entry::Present(frame) => self.holder(frame),
            Entry::Migration(source) => self.page_from(source),
        }
    }

    /// The page of an address that is known to name one, and how it is used.
    #[inline(always)]
    pub fn uses_at(&self, address: &Address) -> Uses
        requires { IsSome (page_at self.now.records address.now) }
        ensures named { page_at self.now.records address.now ≡ Some result.page }
        ensures pins { result.pins ≡ pins_at self.now address.now }
        ensures maps { result.maps ≡ maps_at self.now address.now }
    {
        let Some(page) = self.page_named(address) else {
            unreachable!();
        };
        self.uses_of(page)
    }

    /// What is known of the page that an address names, if it names one.
    pub fn look(&self, address: &Address) -> Option<Look>
        ensures { result ≡ look_of self.now address.now }
    {
        let page = self.page_named(address)?;
        self.look_at(page)
    }

    /// What is known of a page in use.
    fn look_at(&self, page: PageNo) -> Option<Look>
        requires { IsSome (map.get self.now.placement page) }
        ensures { result ≡ look_by self.now page (map.get self.now.placement page) }
    {
        let Uses { pins, maps, .. } = self.uses_of(page);
        match self.notes.placement(page)? {
            Placement::At(frame) => Some(Look::At {
                frame,
                flags: self.flags_of(page),
                pins,
                maps,
            }),
            Placement::Moving { serial, .. } => Some(Look::Moving { serial, pins, maps }),
        }
    }

    /// How a page in use is used.
    fn uses_of(&self, page: PageNo) -> Uses
        requires { IsSome (map.get self.now.placement page) }
        ensures page { result.page ≡ page }
        ensures pins { result.pins ≡ pins self.now.records page }
        ensures maps { result.maps ≡ maps self.now.records page }
    {
        let note = self.notes.get(page);
        Uses {
            page,
            pins: note.pins,
            maps: note.maps,
        }
    }
}
