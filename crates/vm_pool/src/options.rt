//! The command line: how large the zone of a run is.

use std::env::Args;
use std::io;
use zone_core::ZoneSize;

/// What is told of words that are wrong.
pub const WANTED: &str =
    "it has no arguments but --frames N, a multiple of 512 from 8192 to 16777216";

/// The pageblocks of the smallest zone, which there is where no word asks for more: 32 MiB.
const FEWEST: u32 = 16;

const FRAMES_OF_A_PAGEBLOCK: u32 = 512;

/// The size of the zone that the words ask for, the first of which is the program's name. None where they are wrong.
pub fn size_asked(words: io::Result<Args>) -> Option<ZoneSize> {
    let mut words = words.ok()?.skip(1);
    let Some(option) = words.next() else {
        return size_of(FEWEST * FRAMES_OF_A_PAGEBLOCK);
    };
    let number = words.next()?;
    if option.as_str() != "--frames" || words.next().is_some() {
        return None;
    }
    size_of(number.as_str().parse::<u32>().ok()?)
}

/// The size of a zone with so many frames, whose one space has an address for each of them.
fn size_of(frames: u32) -> Option<ZoneSize> {
    let size = ZoneSize {
        blocks: frames / FRAMES_OF_A_PAGEBLOCK,
        spaces: 1,
        vpages: frames,
    };
    let is_whole = frames % FRAMES_OF_A_PAGEBLOCK == 0;
    (is_whole && size.blocks >= FEWEST && size.is_valid()).then_some(size)
}
