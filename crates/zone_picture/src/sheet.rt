//! The room that a picture takes, and what stands where.

ghost use Rattle.std.specs.Prelude.{◌<◌, ◌≤◌};

use crate::album::Panel;

/// The width of a panel, and what is left of the first and above it.
const PANEL: u32 = 440;

pub const MARGIN: u32 = 20;

/// The heights of the heading, of a line of the legend, of a caption, of a pageblock and of the counts, each with the gap below it.
const HEADING: u32 = 46;

const ENTRY: u32 = 24;

pub const CAPTION: u32 = 36;

pub const BLOCK: u32 = 50;

const COUNTS: u32 = 44;

/// What is left free below the legend.
const GAP: u32 = 12;

/// The width of a sign of the legend with its meaning.
const ENTRY_WIDTH: u32 = 176;

/// How many panels a picture has, how many signs its legend has, and how many captions and pageblocks the largest of its panels.
#[derive(Clone, Copy)]
pub struct Sheet {
    pub panels: u8,
    pub signs: u8,
    pub captions: u8,
    pub blocks: u8,
}

impl Sheet {
    /// Room for these panels, and for so many signs.
    pub fn of(panels: &[Panel], signs: usize) -> Self {
        let captions = panels.iter().map(|panel| panel.captions.len()).max();
        let blocks = panels.iter().map(|panel| panel.view.blocks.len()).max();
        Sheet {
            panels: panels.len().min(32) as u8,
            signs: signs.min(8) as u8,
            captions: captions.unwrap_or(0).min(16) as u8,
            blocks: blocks.unwrap_or(0).min(8) as u8,
        }
    }

    /// How many panels stand side by side.
    fn columns(&self) -> u8 {
        self.panels.min(2)
    }

    pub fn width(&self) -> u32 {
        MARGIN + u32::from(self.columns()) * PANEL
    }

    pub fn height(&self) -> u32 {
        self.top() + self.rows(self.panels.div_ceil(2))
    }

    /// Where the panels begin, below the legend.
    fn top(&self) -> u32
        ensures { result ≤ 10000 }
    {
        HEADING + u32::from(self.signs.div_ceil(self.entries())) * ENTRY + GAP
    }

    /// How many signs stand in a line of the legend.
    fn entries(&self) -> u8
        ensures { 0 < result }
    {
        if self.columns() < 2 { 2 } else { 5 }
    }

    /// The height of so many rows of panels.
    fn rows(&self, count: u8) -> u32
        ensures { result ≤ 10000000 }
    {
        u32::from(count) * self.panel_height()
    }

    fn panel_height(&self) -> u32
        ensures { result ≤ 30000 }
    {
        self.zone_top() + u32::from(self.blocks) * BLOCK + COUNTS
    }

    /// Where the zone stands in a panel, below the captions.
    pub fn zone_top(&self) -> u32
        ensures { result ≤ 10000 }
    {
        u32::from(self.captions) * CAPTION + 4
    }

    /// Where a panel stands.
    pub fn panel(&self, index: u8) -> (u32, u32) {
        let x = MARGIN + u32::from(index % 2) * PANEL;
        let y = self.top() + self.rows(index / 2);
        (x, y)
    }

    /// Where a sign of the legend stands.
    pub fn sign(&self, index: u8) -> (u32, u32) {
        let entries = self.entries();
        let x = MARGIN + u32::from(index % entries) * ENTRY_WIDTH;
        let y = HEADING + u32::from(index / entries) * ENTRY;
        (x, y)
    }
}
