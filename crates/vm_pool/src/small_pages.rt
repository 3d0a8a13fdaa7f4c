//! The small pages of a host, which lie between its blocks.

ghost use Rattle.std.specs.Prelude.{◌<◌, IfOk};

use crate::host::Host;
use anyhow::{Context, Result};
use rand_core::Rng;
use rand_pcg::Pcg32;
use zone_core::Address;

/// One of so many pages is unmovable.
const UNMOVABLE: u32 = 100;

/// A small page that is mapped.
#[derive(Clone, Copy)]
pub struct SmallPage {
    address: Address,
    /// What was stored in it. No two pages have the same.
    stored: u64,
}

impl Host {
    /// Maps small pages until only so many frames are free.
    pub fn map_until_free(&mut self, frames: u32) -> Result<()> {
        for _page in frames..self.zone.info().free {
            self.map()?;
        }
        Ok(())
    }

    /// Unmaps small pages until so many are left.
    pub fn unmap_down_to(&mut self, pages: usize) -> Result<()> {
        for _page in pages..self.small_pages.len() {
            self.unmap()?;
        }
        Ok(())
    }

    /// Maps a small page at an address that is drawn, and stores a number in it.
    fn map(&mut self) -> Result<()> {
        let place = draw_place(&mut self.page_draws, self.unused.len())?;
        let address = self.unused.swap_remove(place);
        let unmovable = self.page_draws.next_u32() % UNMOVABLE == 0;
        self.stored = self.stored.saturating_add(1);
        let stored = self.stored;
        self.zone.map(self.client, address, unmovable)?;
        self.zone.store(self.client, address, self.word, stored)?;
        Ok(self.small_pages.push(SmallPage { address, stored })?)
    }

    /// Unmaps a small page that is drawn, and sees whether it holds what was stored in it.
    fn unmap(&mut self) -> Result<()> {
        let place = draw_place(&mut self.page_draws, self.small_pages.len())?;
        let page = self.small_pages.swap_remove(place);
        let found = self.zone.load(self.client, page.address, self.word)?;
        let is_right = found == page.stored;
        self.tally.page_words.add(u64::from(is_right), 1);
        self.zone.unmap(self.client, page.address)?;
        Ok(self.unused.push(page.address)?)
    }
}

/// Draws a place in a list of this length.
fn draw_place(draws: &mut Pcg32, length: usize) -> Result<usize>
    ensures { IfOk result (λ place. place < length) }
{
    let draw = draws.next_u32() as usize;
    draw.checked_rem(length).context("the list is empty")
}
