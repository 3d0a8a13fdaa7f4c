//! The counts and sets of a zone, beside what walks over its frames and its journal find.

ghost use Rattle.std.specs.Prelude.{◌<◌, length};

use super::lists::Listed;
use super::{frame, order};
use frame_core::{FrameNo, FrameState, Journal, PageNo, Record, Serial};
use scan_core::Frames;
use std::process::Abort;
use table_core::Entry;
use zone_core::{Info, Look, Opening, ZoneInOf};

/// The counts that a zone tells, the sets of its frames, and the newest page's number are what walks find.
pub fn assert_counts(
    rt: &(impl Abort + AllocGlobal),
    frames: &Frames,
    journal: &Journal,
    told: Info,
) {
    let states = assert_frames(rt, frames, told);
    let records = journal.kept().expect(rt, "a kept journal");
    assert!(rt; told.huge as usize == blocks_out(records));
    assert_newest(rt, records, &states);
}

/// The counts of frames that a zone tells, and the sets of its frames, are what walks find. The answer is what each frame is used for.
pub fn assert_frames(
    rt: &(impl Abort + AllocGlobal),
    frames: &Frames,
    told: Info,
) -> Vec<FrameState<PageNo>> {
    let states = states(rt, frames);
    assert_told(rt, told, &states);
    assert!(rt; (frames.free(), frames.whole_blocks()) == (told.free, told.whole));
    assert_free(rt, frames, &states);
    assert_runs(rt, frames, &states);
    states
}

/// What each frame is used for.
fn states(rt: &(impl Abort + AllocGlobal), frames: &Frames) -> Vec<FrameState<PageNo>> {
    let mut states = Vec::new(rt.alloc());
    for number in 0..frames.len() {
        let state = frames.state(frame(rt, number));
        states.push(state).expect(rt, "memory");
    }
    states
}

/// How many frames are used for each purpose.
#[derive(Drop)]
struct Uses {
    free: u32,
    pages: u32,
    sources: u32,
    targets: u32,
    held: u32,
}

fn uses_of(states: &[FrameState<PageNo>]) -> Uses {
    let mut uses = Uses {
        free: 0,
        pages: 0,
        sources: 0,
        targets: 0,
        held: 0,
    };
    for state in states {
        match state {
            FrameState::Free => uses.free = uses.free.saturating_add(1),
            FrameState::Holds(_) => uses.pages = uses.pages.saturating_add(1),
            FrameState::Source(_) => uses.sources = uses.sources.saturating_add(1),
            FrameState::Target(_) => uses.targets = uses.targets.saturating_add(1),
            FrameState::Huge => uses.held = uses.held.saturating_add(1),
        }
    }
    uses
}

/// A page that is moving has two frames.
fn assert_told(rt: &impl Abort, told: Info, states: &[FrameState<PageNo>]) {
    let uses = uses_of(states);
    assert!(rt; (told.free, told.held) == (uses.free, uses.held));
    assert!(rt; told.pages == uses.pages.saturating_add(uses.sources));
    assert!(rt; (told.moving, told.moving) == (uses.sources, uses.targets));
    assert!(rt; told.whole == whole_blocks(states));
}

fn is_free(state: &FrameState<PageNo>) -> bool {
    *state == FrameState::Free
}

fn are_free(run: &[FrameState<PageNo>]) -> bool {
    run.iter().all(is_free)
}

fn whole_blocks(states: &[FrameState<PageNo>]) -> u32 {
    let mut count = 0_u32;
    for block in states.chunks(512) {
        if are_free(block) {
            count = count.saturating_add(1);
        }
    }
    count
}

/// How many blocks are handed out, as the records of a journal tell.
fn blocks_out(records: &[Record]) -> usize {
    let mut count = 0_usize;
    for entry in records {
        match entry {
            Record::TakeHuge { .. } => count = count.saturating_add(1),
            Record::GiveHuge { .. } => count = count.saturating_sub(1),
            _ => {}
        }
    }
    count
}

fn place_of(frame: Option<FrameNo>) -> Option<usize> {
    Some(frame?.get() as usize)
}

/// The set of frames that are free has just those, and knows the lowest.
fn assert_free(rt: &impl Abort, frames: &Frames, states: &[FrameState<PageNo>]) {
    for number in 0..frames.len() {
        let state = states.get(number as usize).expect(rt, "a frame");
        assert!(rt; frames.is_free(frame(rt, number)) == is_free(state));
    }
    assert!(rt; place_of(frames.lowest_free()) == states.iter().position(is_free));
}

/// The first run of each order is the lowest aligned one whose frames are all free.
fn assert_runs(rt: &impl Abort, frames: &Frames, states: &[FrameState<PageNo>]) {
    for number in 3..10 {
        let order = order(rt, number);
        let first = place_of(frames.first_run(order));
        assert!(rt; first == first_run(states, order.frames() as usize));
    }
}

fn first_run(states: &[FrameState<PageNo>], size: usize) -> Option<usize>
    requires { 0 < size }
{
    states.chunks(size).position(are_free)?.checked_mul(size)
}

/// The number of a page that was just mapped is the lowest that no other page has.
fn assert_newest(rt: &impl Abort, records: &[Record], states: &[FrameState<PageNo>]) {
    let Some(Record::Map { page, .. }) = records.last() else {
        return;
    };
    assert!(rt; pages_below(states, *page) == page.get());
}

/// How many pages have a lower number.
fn pages_below(states: &[FrameState<PageNo>], number: PageNo) -> u32 {
    let mut count = 0_u32;
    for state in states {
        match page_in(state) {
            Some(page) if page < number => count = count.saturating_add(1),
            _ => {}
        }
    }
    count
}

/// The page that a frame holds, or that left it.
fn page_in(state: &FrameState<PageNo>) -> Option<PageNo> {
    match *state {
        FrameState::Holds(page) | FrameState::Source(page) => Some(page),
        _ => None,
    }
}

fn isolated_page(records: &[Record], under: Serial) -> Option<PageNo> {
    for entry in records {
        if let Record::Isolate { serial, page } = entry {
            if *serial == under {
                return Some(*page);
            }
        }
    }
    None
}

/// What is told of the page that a frame holds, or that left it, is what its entries and its frame say.
pub fn assert_pages<const W: usize, Z: Opening>(
    rt: &impl Abort,
    zone: &ZoneInOf<W, Z>,
    lists: &[Listed],
) {
    let frames = zone.frames();
    let records = zone.journal().kept().expect(rt, "a kept journal");
    for number in 0..frames.len() {
        let list = lists.get(number as usize).expect(rt, "a list");
        let frame = frame(rt, number);
        match list.addresses.first() {
            Some(address) => {
                let told = zone.look(*address).ok().expect(rt, "a page");
                assert_page(rt, frames, records, frame, list, told);
            }
            None => {
                let state = frames.state(frame);
                assert!(rt; !matches!(state, FrameState::Holds(_) | FrameState::Source(_)));
            }
        }
    }
}

/// The state of the frame, and the entry that names it, are of a page as it is told, with as many addresses as name it.
fn assert_page(
    rt: &impl Abort,
    frames: &Frames,
    records: &[Record],
    frame: FrameNo,
    list: &Listed,
    told: Look,
)
    requires { frame < length frames.now.states }
{
    let state = frames.state(frame);
    let addresses = list.addresses.len();
    match told {
        Look::At {
            frame: at,
            flags,
            pins,
            maps,
        } => {
            assert!(rt; matches!(state, FrameState::Holds(_)));
            assert!(rt; (list.entry, at) == (Entry::Present(frame), frame));
            assert!(rt; frames.movable(frame) == (pins == 0 && !flags.is_unmovable()));
            assert!(rt; maps as usize == addresses);
        }
        Look::Moving { serial, maps, .. } => {
            let page = isolated_page(records, serial).expect(rt, "an isolated page");
            assert!(rt; state == FrameState::Source(page));
            assert!(rt; list.entry == Entry::Migration(frame));
            assert!(rt; maps as usize == addresses);
        }
    }
}
