//! Moving pages outside of a round: what an evacuation asks of frames and of the journal, and the move of one page.

ghost use Rattle.std.specs.Prelude.{◌≡◌, ◌/◌, ◌^◌, ◌≤◌, None, IfSome, IsTrue, is_some};
ghost use Rattle.fewest_core.specs.Evacuation.{has_room_for_moves, moved_away};
ghost use Rattle.fewest_core.specs.FewestMoves.{IsMove, cost, is_open, run_count};
ghost use Rattle.fewest_core.specs.Reservation.{has_room_to_reserve};
ghost use Rattle.frame_core.specs.Below.{count_from, highest};
ghost use Rattle.scan_core.specs.FreeRuns.{free_in_run, IsNextWith};
ghost use Rattle.state_core.specs.HandingOut.{has_block};
ghost use Rattle.state_core.specs.Isolating.{isolate_refusal};
ghost use Rattle.state_core.specs.Packed.{unmarked_free};
ghost use Rattle.state_core.specs.Pairs.{is_free_unmarked};
ghost use Rattle.state_core.specs.Valid.{IsValidZone};
ghost use Rattle.state_core.specs.ZoneState.{frame_count, is_free};

use crate::zone::ZoneTables;
use frame_core::{FrameNo, Order, PageNo, Record, block_of};
use state_core::Placement;

impl<const W: usize> ZoneTables<W> {
    /// How many pages a run has, or none where a frame of it is shut: in a marked pageblock, handed out, or of a page that has to stay.
    pub fn pages_of(&self, first: FrameNo, order: Order) -> Option<u32>
        requires { IsTrue (has_block self.now order first) }
        ensures open { is_some result ≡ is_open self.now (2 ^ order) (first / 2 ^ order) }
        ensures pages { IfSome result (λ pages. pages ≡ cost self.now (2 ^ order) (first / 2 ^ order)) }
    {
        if self.is_marked(block_of(first)) {
            return None;
        }
        self.frames.pages_of_run(first, order)
    }

    /// How many frames of a run are free. Of a pageblock there is a count.
    #[inline(always)]
    pub fn free_in_run(&self, first: FrameNo, order: Order) -> u32
        requires { IsTrue (has_block self.now order first) }
        ensures { result ≡ count_from (is_free self.now) first (2 ^ order) }
    {
        self.frames.free_in_run(first, order)
    }

    /// The lowest run of an order from one on that has at least so many free frames, by its number among all runs of the order, if there is
    /// one. Where it needs all frames of a run, it looks at two words of each level of a set at most, and else at the count of each run up
    /// to that one.
    pub fn next_run_with(&self, order: Order, from: u32, least: u32) -> Option<u32>
        ensures { IsNextWith (free_in_run (is_free self.now) order) (run_count self.now (2 ^ order)) from least result }
    {
        self.frames.next_run_with(order, from, least)
    }

    /// The highest free frame of an unmarked pageblock below `end`, if there is one.
    pub fn last_vacant(&self, end: u32) -> Option<FrameNo>
        requires { end ≤ frame_count self.now }
        ensures { result ≡ highest (is_free_unmarked self.now) end }
    {
        self.frames.last_vacant(&self.marks, end)
    }

    /// How many frames of unmarked pageblocks are free. It looks at a count of each pageblock.
    pub fn vacant(&self) -> u32
        ensures { result ≡ unmarked_free self.now }
    {
        self.frames.vacant(&self.marks)
    }

    /// Whether the journal has room for so many isolations and their ends.
    pub fn has_room_for_moves(&self, count: u32) -> bool
        ensures { result ≡ has_room_for_moves self.now count }
    {
        self.moves.out() + 2 * u64::from(count) <= self.history.room()
    }

    /// Whether the journal has room for so many isolations and their ends and for handing out so many blocks.
    pub fn has_room_to_reserve(&self, pages: u32, blocks: u32) -> bool
        ensures { result ≡ has_room_to_reserve self.now pages blocks }
    {
        self.moves.out() + 2 * u64::from(pages) + u64::from(blocks) <= self.history.room()
    }

    /// Moves a page that rests in a frame to a free one at once: it is isolated under the next serial, its words are copied, and
    /// its move ends. The latest round isn't quiet any more, since frames change on both sides of its fingers; it may go on.
    pub fn move_page(&mut self, page: PageNo, source: FrameNo, target: FrameNo)
        requires may_move { IsMove self.old (record { page = page; source = source; target = target }) }
        requires accepted { isolate_refusal self.old ≡ None }
        ensures step { self.new ≡ moved_away self.old (record { page = page; source = source; target = target }) }
        ensures valid { IsValidZone self.new }
    {
        let serial = self.moves.isolate();
        self.moves.arrive();
        self.frames.empty(source, false);
        self.frames.fill(target, page, true, false);
        self.tables.to_migration(source);
        self.tables.to_present(source, target);
        self.words.copy(source, target);
        self.notes.place(page, Placement::At(target));
        self.history.note(Record::Isolate { serial, page });
        self.history.note(Record::Moved { serial });
        self.history.forget_round();
    }
}
