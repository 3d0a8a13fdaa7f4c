ghost use Rattle.std.specs.Prelude.{◌≡◌};

use crate::copied::Copied;
use crate::numbers::PageNo;
use crate::page::Page;
use crate::state::Serial;
use std::marker::Model;

/// A page that was taken from its frame, under the serial that its zone gave it.
#[derive(Drop, Debug)]
pub struct Isolated<const W: usize> {
    page: Page<W>,
    serial: Serial,
}

impl<const W: usize> Model for Isolated<W> {
    ghost use Rattle.frame_core.specs.Page.{IsolatedPage};

    ghost Value = { IsolatedPage };

    ghost view = { λ p. record { serial = p.serial; page = p.page } };
}

/// A blank page, under the serial 0. It fills the empty places of a list whose capacity is fixed.
impl<const W: usize> Default for Isolated<W> {
    ghost use Rattle.frame_core.specs.Page.{blank_on_its_way};

    ghost is_default = { λ p. p ≡ blank_on_its_way W };

    fn default() -> Self {
        Isolated::new(0, Page::default())
    }
}

impl<const W: usize> Isolated<W> {
    /// A page under a serial. A zone takes it only where it has isolated the page with this number under this serial. Else
    /// it hands the page back as a `Stranger`.
    pub fn new(serial: Serial, page: Page<W>) -> Self
        ensures serial { result.serial ≡ serial }
        ensures page { result.page ≡ page.entry }
    {
        Isolated { serial, page }
    }

    /// The serial that its zone gave it.
    pub fn serial(&self) -> Serial
        ensures { result ≡ self.now.serial }
    {
        self.serial
    }

    /// The number of the page in its zone.
    pub fn page_no(&self) -> PageNo
        ensures { result ≡ self.now.page.number }
    {
        self.page.number()
    }

    /// The page, with its words.
    pub fn page(&self) -> &Page<W>
        ensures { result.now ≡ self.now.page }
    {
        &self.page
    }

    /// Copies the flags and each word into a new page, under the same serial.
    pub fn copy_into_new(self) -> Copied<W>
        ensures { result ≡ self.entry }
    {
        Copied {
            serial: self.serial,
            page: self.page.copy_into_new(),
        }
    }

    /// The page, without its serial.
    pub fn into_page(self) -> Page<W>
        ensures { result ≡ self.entry.page }
    {
        self.page
    }
}
