//! The addresses that are listed under each frame, beside what walks over all entries find.

ghost use Rattle.std.specs.Prelude.{◌≡◌, length};

use super::{address, frame};
use arrayvec::ArrayVec;
use frame_core::{Address, FrameNo, FrameState};
use scan_core::Frames;
use std::process::Abort;
use table_core::{Entry, Tables};

/// The entry that names a frame, or the page that left it, and the addresses that have this entry.
#[derive(Drop)]
pub struct Listed {
    pub entry: Entry,
    pub addresses: ArrayVec<Address, 4>,
}

impl Listed {
    /// Each address that is listed under one frame has the same entry.
    fn add(&mut self, rt: &impl Abort, entry: Entry, address: Address) {
        assert!(rt; self.addresses.is_empty() || self.entry == entry);
        self.entry = entry;
        assert!(rt;
            self.addresses.try_push(address).is_ok(),
            "a page has five addresses"
        );
    }
}

/// What one walk over all entries lists under each of so many frames.
pub fn walked(rt: &(impl Abort + AllocGlobal), tables: &Tables, frames: u32) -> Vec<Listed> {
    let mut lists = Vec::new(rt.alloc());
    for _ in 0..frames {
        let (entry, addresses) = (Entry::Absent, ArrayVec::new());
        lists.push(Listed { entry, addresses }).expect(rt, "memory");
    }
    for space in 0..8 {
        list_space(rt, tables, space, &mut lists);
    }
    lists
}

fn list_space(rt: &impl Abort, tables: &Tables, space: u32, lists: &mut Vec<Listed>) {
    for vpage in 0..4096 {
        let entry = tables.entry(address(rt, (space, vpage)));
        if let Some(frame) = frame_of(&entry) {
            let Some(list) = lists.get_mut(frame.get() as usize) else {
                panic!(rt; "no frame of the zone");
            };
            list.add(rt, entry, address(rt, (space, vpage)));
        }
    }
}

/// The frame under which an address with this entry is listed.
fn frame_of(entry: &Entry) -> Option<FrameNo> {
    match *entry {
        Entry::Absent => None,
        Entry::Present(frame) | Entry::Migration(frame) => Some(frame),
    }
}

/// The list that is kept for each frame is the one that the walk found.
pub fn assert_lists(rt: &impl Abort, tables: &Tables, frames: &Frames, lists: &[Listed])
    requires { length frames.now.states ≡ tables.now.frames }
{
    for number in 0..frames.len() {
        let frame = frame(rt, number);
        let list = lists.get(number as usize).expect(rt, "a list");
        let addresses = list.addresses.as_slice();
        if let Entry::Migration(_) = list.entry {
            assert!(rt; &*tables.mappings_moving(frame) == addresses);
            assert!(rt; tables.mappings(frame).is_empty());
        } else {
            assert!(rt; &*tables.mappings(frame) == addresses);
        }
    }
}

/// The list of each frame in use is what a walk for this frame finds.
pub fn assert_each_walk(rt: &impl Abort, tables: &Tables, frames: &Frames)
    requires { length frames.now.states ≡ tables.now.frames }
{
    for number in 0..frames.len() {
        let frame = frame(rt, number);
        let kept = tables.mappings(frame);
        match frames.state(frame) {
            FrameState::Holds(_) => assert!(rt; *kept == *tables.walk_mappings(frame)),
            FrameState::Source(_) => {
                let moving = tables.mappings_moving(frame);
                assert!(rt; *moving == *tables.walk_moving(frame));
            }
            _ => assert!(rt; kept.is_empty()),
        }
    }
}
