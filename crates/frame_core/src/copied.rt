ghost use Rattle.std.specs.Prelude.{◌≡◌};

use crate::isolated::Isolated;
use crate::numbers::PageNo;
use crate::page::Page;
use crate::state::Serial;
use std::marker::Model;

/// An isolated page that was copied and is ready for its new frame.
#[derive(Drop, Debug)]
pub struct Copied<const W: usize> {
    pub(crate) page: Page<W>,
    pub(crate) serial: Serial,
}

impl<const W: usize> Model for Copied<W> {
    ghost use Rattle.frame_core.specs.Page.{IsolatedPage};

    ghost Value = { IsolatedPage };

    ghost view = { λ p. record { serial = p.serial; page = p.page } };
}

/// A copy of a blank page, under the serial 0. It fills the empty places of a list whose capacity is fixed.
impl<const W: usize> Default for Copied<W> {
    ghost use Rattle.frame_core.specs.Page.{blank_on_its_way};

    ghost is_default = { λ p. p ≡ blank_on_its_way W };

    fn default() -> Self {
        Isolated::default().copy_into_new()
    }
}

impl<const W: usize> Copied<W> {
    /// The serial that its zone gave it.
    pub fn serial(&self) -> Serial
        ensures { result ≡ self.now.serial }
    {
        self.serial
    }

    /// The number of the page in its zone.
    pub fn page_no(&self) -> PageNo
        ensures { result ≡ self.now.page.number }
    {
        self.page.number()
    }

    /// The page, with its words.
    pub fn page(&self) -> &Page<W>
        ensures { result.now ≡ self.now.page }
    {
        &self.page
    }

    /// The page, without its serial.
    pub fn into_page(self) -> Page<W>
        ensures { result ≡ self.entry.page }
    {
        self.page
    }
}
