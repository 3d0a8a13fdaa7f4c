//! The marks of pageblocks. The scanners pass over a marked pageblock.

ghost use Rattle.std.specs.Prelude.{◌≡◌, ◌<◌, nat_lt, IsTrue};
ghost use Rattle.std.specs.FinSet as set;
ghost use Rattle.state_core.specs.Valid.{IsValidZone};
ghost use Rattle.state_core.specs.Marking.{block_marked, block_unmarked};
ghost use Rattle.state_core.specs.ZoneState.{has_room};

use crate::zone::ZoneTables;
use frame_core::{BlockNo, Record};

impl<const W: usize> ZoneTables<W> {
    /// Whether the zone has a pageblock.
    pub fn has_pageblock(&self, block: BlockNo) -> bool
        ensures { result ≡ nat_lt block self.now.blocks }
    {
        block.get() < self.size.blocks
    }

    /// Whether a pageblock is marked.
    pub fn is_marked(&self, block: BlockNo) -> bool
        requires { block < self.now.blocks }
        ensures { result ≡ set.contains self.now.marked block }
    {
        self.marks.is_marked(block.get())
    }

    /// Marks a pageblock.
    pub fn mark(&mut self, block: BlockNo)
        requires within { block < self.old.blocks }
        requires room { IsTrue (has_room self.old) }
        ensures step { self.new ≡ block_marked self.old block }
        ensures valid { IsValidZone self.new }
    {
        self.marks.set(block.get(), true);
        self.history.note(Record::Mark { block });
    }

    /// Takes the mark of a pageblock off.
    pub fn unmark(&mut self, block: BlockNo)
        requires within { block < self.old.blocks }
        requires room { IsTrue (has_room self.old) }
        ensures step { self.new ≡ block_unmarked self.old block }
        ensures valid { IsValidZone self.new }
    {
        self.marks.set(block.get(), false);
        self.history.note(Record::Unmark { block });
    }
}
