//! A zone in memory of its caller. About half of its frames have a page, drawn at random.

use anyhow::{Context, Result, bail};
use frame_core::{Address, ClientNo, FrameNo, SpaceNo, VPage, WordOf, ZoneNo};
use row_core::{Ground, Row};
use std::alloc::Global;
use zone_core::{BareZone, ZoneSize};

/// The memory of so many pageblocks.
pub fn memory_of(alloc: Global, blocks: u32) -> Result<Row> {
    let words = (blocks as usize).saturating_mul(512 * 512);
    let ground = Ground::open(alloc, words).ok().context("out of memory");
    Ok(ground?.lend(0, words))
}

/// Opens a zone of so many pageblocks in its memory. Its pages are mapped and written.
pub fn opened(alloc: Global, memory: Row, blocks: u32) -> Result<BareZone<512>> {
    let size = ZoneSize {
        blocks,
        spaces: 1,
        vpages: blocks.saturating_mul(512),
    };
    let number = ZoneNo::new(0).context("there is no such zone")?;
    let mut zone = match BareZone::open_in(alloc, number, size, None, memory, false) {
        Ok(zone) => zone,
        Err((error, _memory)) => bail!("{error}"),
    };
    fill(&mut zone).context("a page isn't mapped")?;
    Ok(zone)
}

/// Maps a page to the frame of its number where there is one, and writes its words.
fn fill(zone: &mut BareZone<512>) -> Option<()> {
    let client = ClientNo::new(0)?;
    let word = WordOf::new(0)?;
    for page in 0..zone.blocks().saturating_mul(512) {
        if is_there(page) {
            let frame = FrameNo::in_any_zone(page)?;
            zone.map_at(client, address(page)?, false, frame).ok()?;
            let values = [written(page); 512];
            zone.write(client, address(page)?, word, &values).ok()?;
        }
    }
    Some(())
}

/// Takes the memory of a zone back.
pub fn taken_back(zone: BareZone<512>) -> Result<Row> {
    if !zone.lends_none() {
        bail!("words are lent");
    }
    zone.end().context("the memory doesn't come back")
}

/// How many pages have the words that were written.
pub fn kept(zone: &mut BareZone<512>) -> u32 {
    let mut kept = 0u32;
    for page in 0..zone.blocks().saturating_mul(512) {
        let has_words = has_words(zone, page) == Some(true);
        kept = kept.saturating_add(u32::from(has_words));
    }
    kept
}

/// Whether there is a page of this number, drawn at random: for about half of them.
fn is_there(page: u32) -> bool {
    (page.wrapping_mul(2_654_435_761) >> 16) % 2 == 0
}

/// What each word of a page is.
fn written(page: u32) -> u64 {
    u64::from(page).wrapping_mul(0x9e37_79b9_7f4a_7c15)
}

fn address(page: u32) -> Option<Address> {
    let space = SpaceNo::new(0)?;
    let vpage = VPage::in_any_zone(page)?;
    Some(Address { space, vpage })
}

fn has_words(zone: &mut BareZone<512>, page: u32) -> Option<bool> {
    let mut words = [0; 512];
    let client = ClientNo::new(0)?;
    let word = WordOf::new(0)?;
    zone.read(client, address(page)?, word, &mut words).ok()?;
    Some(words == [written(page); 512])
}
