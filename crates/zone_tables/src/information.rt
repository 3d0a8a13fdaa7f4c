//! The counts of a zone, its journal, its tables, its frames and their words.

ghost use Rattle.std.specs.Prelude.{◌≡◌, ◌+◌, length};
ghost use Rattle.state_core.specs.Valid.{IsValidZone};
ghost use Rattle.state_core.specs.Looking.{info_of};
ghost use Rattle.state_core.specs.Opening.{size_of};
ghost use Rattle.state_core.specs.ZoneState.{frame_count};
ghost use Rattle.zone_tables.specs.Fits.{EntriesFit, FramesFit, LentFit, MovableFit, WordsFit};

use crate::zone::ZoneTables;
use frame_core::{Journal, WordsOf, ZoneNo};
use scan_core::Frames;
use state_core::{Info, ZoneSize};
use table_core::Tables;

impl<const W: usize> ZoneTables<W> {
    /// The counts of the zone.
    pub fn info(&self) -> Info
        ensures counts { result ≡ info_of self.now }
        ensures sum { result.free + result.pages + result.moving + result.held ≡ frame_count self.now }
    {
        let free = self.frames.free();
        let pages = self.notes.in_use();
        let moving = self.moves.out() as u32;
        Info {
            free,
            pages,
            moving,
            huge: self.handed_out.blocks(),
            whole: self.frames.whole_blocks(),
            held: self.frames.len() - free - pages - moving,
        }
    }

    /// The number of the zone.
    pub fn number(&self) -> ZoneNo
        ensures { result ≡ self.now.number }
    {
        self.number
    }

    /// How many words each page of the zone has.
    pub fn page_words(&self) -> usize
        ensures value { result ≡ W }
        ensures size { self.now.page_size ≡ W }
    {
        self.words.page_words()
    }

    /// How many pageblocks the zone has.
    pub fn blocks(&self) -> u32
        ensures { result ≡ self.now.blocks }
    {
        self.size.blocks
    }

    /// How large the zone is.
    pub fn size(&self) -> ZoneSize
        ensures { result ≡ size_of self.now }
    {
        self.size
    }

    /// The journal of the zone.
    pub fn journal(&self) -> &Journal
        ensures records { result.now.records ≡ self.now.records }
        ensures room { result.now.room ≡ self.now.room }
        ensures valid { IsValidZone self.now }
    {
        self.history.journal()
    }

    /// The entry of each address, and the addresses that are listed under each frame.
    pub fn tables(&self) -> &Tables
        ensures entries { EntriesFit result.now.entries self.now }
        ensures frames { result.now.frames ≡ frame_count self.now }
    {
        &self.tables
    }

    /// The state of each frame, and whether the page that it holds may be taken from it.
    pub fn frames(&self) -> &Frames
        ensures states { FramesFit result.now.states self.now }
        ensures movable { MovableFit result.now.movable self.now }
    {
        &self.frames
    }

    /// The words of each frame. The frame in which a page stands has the words of this page; while a page is moving, the one
    /// that it left has them.
    pub fn words(&self) -> &WordsOf<W>
        ensures words { WordsFit result.now.rows self.now }
        ensures lent { LentFit result.now.lent self.now.handed_out self.now.lent self.now.placement self.now.lent_pages }
        ensures frames { length result.now.rows ≡ frame_count self.now }
    {
        &self.words
    }
}
