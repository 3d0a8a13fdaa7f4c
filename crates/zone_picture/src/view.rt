ghost use Rattle.std.specs.Prelude.{◌≡◌, ◌<◌, IfOk};
ghost use Rattle.zone_picture.specs.Cells.{cell_at, cells_of};

use crate::cell::Cell;
use frame_core::{BlockNo, FrameNo};
use scan_core::Frames;
use std::alloc::{AllocError, Global};
use zone_core::{Info, Opening, ZoneIn};

/// A pageblock as it is drawn: its number, what each of its 512 frames is used for, and whether it is marked.
#[derive(Drop, PartialEq)]
pub struct Pageblock {
    pub number: u16,
    pub cells: Vec<Cell>,
    pub marked: bool,
}

/// A zone as it is drawn: its pageblocks and its counts.
#[derive(Drop, PartialEq)]
pub struct View {
    pub blocks: Vec<Pageblock>,
    pub info: Info,
}

impl View {
    /// A zone as it is now.
    pub fn of<Z: Opening>(alloc: Global, zone: &ZoneIn<Z>) -> Result<Self, AllocError> {
        let frames = zone.frames();
        let mut blocks = Vec::new(alloc);
        for number in 0..frames.blocks() {
            blocks.push(Pageblock {
                number: number as u16,
                cells: cells_of(alloc, frames, number)?,
                marked: is_marked(zone, number),
            })?;
        }
        Ok(View {
            blocks,
            info: zone.info(),
        })
    }
}

impl Pageblock {
    /// Whether all of its frames are used for this.
    pub fn is_all(&self, use_of_all: Cell) -> bool {
        self.cells.iter().all(|cell| *cell == use_of_all)
    }

    /// How many pages stand in it.
    pub fn pages(&self) -> usize {
        self.cells
            .iter()
            .filter(|cell| matches!(**cell, Cell::Page | Cell::Fixed | Cell::Source))
            .count()
    }
}

/// What each frame of a pageblock is used for.
fn cells_of(alloc: Global, frames: &Frames, block: u32) -> Result<Vec<Cell>, AllocError>
    requires { block < 32768 }
    ensures { IfOk result (λ cells. cells.items ≡ cells_of frames.now block) }
{
    let first = 512 * block;
    (first..first + 512)
        .map(|number| cell_at(frames, number))
        .collect(alloc)
}

/// What a frame is used for.
fn cell_at(frames: &Frames, number: u32) -> Cell
    ensures { result ≡ cell_at frames.now number }
{
    let count = frames.len();
    match FrameNo::in_any_zone(number) {
        Some(frame) if number < count => { Cell::of(frames.state(frame), frames.movable(frame)) }
        _ => Cell::Free,
    }
}

/// Whether a pageblock is marked.
fn is_marked<Z: Opening>(zone: &ZoneIn<Z>, block: u32) -> bool {
    BlockNo::in_any_zone(block)
        .and_then(|block| zone.marked(block))
        .unwrap_or(false)
}
