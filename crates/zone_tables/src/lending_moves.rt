//! Moving pages whose words are lent: the page of the next pair, or one that is sent to a free frame outside of a round, is isolated and the
//! words of its two frames are lent, and its move ends when they come back.

ghost use Rattle.std.specs.Prelude.{◌≡◌, ◌≤◌, length, IsSome, None, Some, false};
ghost use Rattle.std.specs.FinMap as map;
ghost use Rattle.std.specs.FinSet as set;
ghost use Rattle.fewest_core.specs.FewestMoves.{IsMove};
ghost use Rattle.fewest_core.specs.Sending.{sent};
ghost use Rattle.frame_core.specs.History.{pins};
ghost use Rattle.frame_core.specs.Moves.{isolated};
ghost use Rattle.state_core.specs.Ending.{HasCause, IsSettled, moved_to_target, put_back_to_source};
ghost use Rattle.state_core.specs.Isolating.{isolate_refusal};
ghost use Rattle.state_core.specs.LentMoves.{IsCopiedMove, IsLentMove, is_lent_move, move_lent, move_returned};
ghost use Rattle.state_core.specs.Pairs.{IsPair};
ghost use Rattle.state_core.specs.Valid.{IsValidZone};
ghost use Rattle.state_core.specs.declared.placement.Placement.TheVariants.{Moving};

use crate::ending::{Carried, Move, take_rows_back};
use crate::lent_move::{CopiedMove, LentMove};
use crate::zone::ZoneTables;
use frame_core::{Cause, FrameNo, PageNo};
use state_core::{Pair, Placement};

impl<const W: usize> ZoneTables<W> {
    /// Isolates the page of the next pair under the next serial, and lends the words of its frame and of the one that it goes to.
    pub fn lend_move(&mut self, pair: Pair) -> LentMove
        requires pair { IsPair self.old pair.page pair.source pair.target }
        requires accepted { isolate_refusal self.old ≡ None }
        requires given { IsSome self.old.memory }
        ensures lent { IsLentMove self.new result }
        ensures count { (length result.from.words ≡ W) × (length result.to.words ≡ W) }
        ensures page { (result.page ≡ pair.page) × (result.serial ≡ isolated self.old.records) }
        ensures frames { (result.source ≡ pair.source) × (result.target ≡ pair.target) }
        ensures step { self.new ≡ move_lent self.old pair }
        ensures valid { IsValidZone self.new }
    {
        let way = self.begin_move(pair);
        self.lend_rows(way)
    }

    /// Isolates a page that rests in a frame under the next serial, on its way to a free one, and lends the words of both. The latest round
    /// is forgotten, since frames change on both sides of its fingers.
    pub fn send(&mut self, page: PageNo, source: FrameNo, target: FrameNo) -> LentMove
        requires may_move { IsMove self.old (record { page = page; source = source; target = target }) }
        requires accepted { isolate_refusal self.old ≡ None }
        requires given { IsSome self.old.memory }
        ensures lent { IsLentMove self.new result }
        ensures count { (length result.from.words ≡ W) × (length result.to.words ≡ W) }
        ensures page { (result.page ≡ page) × (result.serial ≡ isolated self.old.records) }
        ensures frames { (result.source ≡ source) × (result.target ≡ target) }
        ensures step { self.new ≡ sent self.old (record { page = page; source = source; target = target }) }
        ensures valid { IsValidZone self.new }
    {
        self.forget_round();
        let fingers = self.fingers;
        let way = self.start_move(page, source, target, fingers);
        self.lend_rows(way)
    }

    /// Lends the words of the two frames of a moving page.
    fn lend_rows(&mut self, way: Move) -> LentMove
        requires placed { map.get self.old.placement way.page ≡ Some (Moving way.serial way.source way.target) }
        requires here { set.contains self.old.lent_pages way.page ≡ false }
        requires given { IsSome self.old.memory }
        ensures lent { IsLentMove self.new result }
        ensures count { (length result.from.words ≡ W) × (length result.to.words ≡ W) }
        ensures page { (result.page ≡ way.page) × (result.serial ≡ way.serial) }
        ensures frames { (result.source ≡ way.source) × (result.target ≡ way.target) }
        ensures step { self.new ≡ record self.old { lent_pages = set.insert self.old.lent_pages way.page } }
        ensures valid { IsValidZone self.new }
    {
        let from = self.words.lend_block(way.source, 1);
        let to = self.words.lend_block(way.target, 1);
        LentMove::of(way, from, to)
    }

    /// Whether this move is one of the zone's, and its words are lent. It doesn't look at the rows.
    pub fn has_lent(&self, lent: &LentMove) -> bool
        ensures { result ≡ is_lent_move self.now lent.now }
    {
        let way = lent.way();
        let Some(placement) = self.notes.placement(way.page) else {
            return false;
        };
        let Placement::Moving {
            serial,
            source,
            target,
        } = placement
        else {
            return false;
        };
        if serial != way.serial || source != way.source || target != way.target {
            return false;
        }
        self.is_lent_in(source)
    }

    /// Ends a move whose words were lent, and copied: they come back, and the page is in its target.
    pub fn arrive_lent(&mut self, copied: CopiedMove)
        requires copied { IsCopiedMove self.old copied }
        requires unpinned { pins self.old.records copied.page ≡ 0 }
        ensures step { self.new ≡ move_returned (moved_to_target self.old copied.serial copied.page) copied.page }
        ensures valid { IsValidZone self.new }
        ensures settled { IsSettled self.old self.new copied.page copied.target copied.source }
    {
        let (way, from, to) = copied.into_lent().into_parts();
        self.arrive_with(&way, Carried::Rows(from, to));
    }

    /// Ends a move whose words were lent: they come back, and the page is in its source again.
    pub fn go_back_lent(&mut self, lent: LentMove, cause: Cause)
        requires lent { IsLentMove self.old lent }
        requires cause { HasCause cause (pins self.old.records lent.page) }
        ensures step { self.new ≡ move_returned (put_back_to_source self.old lent.serial lent.page cause) lent.page }
        ensures valid { IsValidZone self.new }
        ensures settled { IsSettled self.old self.new lent.page lent.source lent.target }
    {
        let (way, from, to) = lent.into_parts();
        take_rows_back(&mut self.words, &way, from, to);
        self.go_back(&way, cause);
    }
}
