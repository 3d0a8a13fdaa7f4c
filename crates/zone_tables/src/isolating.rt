//! Rounds, and the page that a round isolates next.

ghost use Rattle.std.specs.Prelude.{◌≡◌, ◌+◌, ◌<◌, ◌≤◌, ℕ, length, IsSome, IfSome, IfNone, None, Some, true, false};
ghost use Rattle.std.specs.FinMap as map;
ghost use Rattle.std.specs.FinSet as set;
ghost use Rattle.fewest_core.specs.FewestMoves.{IsMove, under_way};
ghost use Rattle.frame_core.specs.Moves.{isolated, out};
ghost use Rattle.state_core.specs.Valid.{IsValidZone};
ghost use Rattle.state_core.specs.Rounds.{round_begun};
ghost use Rattle.state_core.specs.Carrying.{flags_of, page_now};
ghost use Rattle.state_core.specs.Isolating.{isolate_refusal, isolated_next};
ghost use Rattle.state_core.specs.Pairs.{IsPair, is_calm, holder, next_pair};
ghost use Rattle.state_core.specs.Swept.{IsSwept, SweptIfQuiet};
ghost use Rattle.state_core.specs.ZoneState.{frame_count};
ghost use Rattle.state_core.specs.declared.placement.Placement.TheVariants.{At};

use crate::ending::Move;
use crate::zone::ZoneTables;
use frame_core::{FrameNo, IsolatedOf, PageFlags, PageNo, Record};
use scan_core::{Fingers, Step};
use state_core::{Pair, Placement};

impl<const W: usize> ZoneTables<W> {
    /// The page that a frame holds, if it holds one that isn't moving.
    pub fn holder(&self, frame: FrameNo) -> Option<PageNo>
        requires { frame < frame_count self.now }
        ensures holder { result ≡ holder self.now frame }
        ensures here { IfSome result (λ page. map.get self.now.placement page ≡ Some (At frame)) }
    {
        self.frames.held_page(frame)
    }

    /// The page that the round isolates next, with its frame and the one that it goes to, if there is such a pair.
    #[inline(always)]
    pub fn next_pair(&self) -> Option<Pair>
        ensures pair { result ≡ next_pair self.now }
        ensures is_pair { IfSome result (λ pair. IsPair self.now pair.page pair.source pair.target) }
        ensures none { IfNone result ((page source target : ℕ) → IsPair self.now page source target → ⊥) }
    {
        let mut fingers = self.fingers;
        let Step::Pair { source, target } = self.frames.next_pair(&self.marks, &mut fingers) else {
            return None;
        };
        let page = self.holder(source)?;
        Some(Pair {
            page,
            source,
            target,
        })
    }

    /// The flags of a page in use.
    pub fn flags_of(&self, page: PageNo) -> PageFlags
        requires { IsSome (map.get self.now.placement page) }
        ensures { result ≡ flags_of self.now page }
    {
        let note = self.notes.get(page);
        PageFlags::of(note.unmovable, note.dirty)
    }

    /// Isolates the page of the next pair under the next serial, and answers it with its flags and words.
    #[inline(always)]
    pub fn isolate(&mut self, pair: Pair) -> IsolatedOf<W>
        requires pair { IsPair self.old pair.page pair.source pair.target }
        requires accepted { isolate_refusal self.old ≡ None }
        ensures page { result ≡ record { serial = isolated self.old.records; page = page_now self.old pair.page } }
        ensures step { self.new ≡ isolated_next self.old pair }
        ensures valid { IsValidZone self.new }
    {
        let flags = self.flags_of(pair.page);
        let way = self.begin_move(pair);
        let carried = self
            .words
            .read_out(way.source, self.number, way.page, flags);
        IsolatedOf::new(way.serial, carried)
    }

    /// Isolates the page of the next pair under the next serial. Its words stay in its frame until its move ends.
    #[inline(always)]
    pub fn begin_move(&mut self, pair: Pair) -> Move
        requires pair { IsPair self.old pair.page pair.source pair.target }
        requires accepted { isolate_refusal self.old ≡ None }
        ensures way { result ≡ record { page = pair.page; serial = isolated self.old.records; source = pair.source; target = pair.target } }
        ensures here { set.contains self.new.lent_pages pair.page ≡ false }
        ensures step { self.new ≡ isolated_next self.old pair }
        ensures valid { IsValidZone self.new }
    {
        let Pair {
            page,
            source,
            target,
        } = pair;
        let mut fingers = self.fingers;
        fingers.migrate = source.get() + 1;
        fingers.free = target.get();
        self.start_move(page, source, target, fingers)
    }

    /// Isolates a page under the next serial, on its way from its frame to a free one, and sets the fingers. Its words stay in its frame
    /// until its move ends.
    #[inline(always)]
    pub(crate) fn start_move(
        &mut self,
        page: PageNo,
        source: FrameNo,
        target: FrameNo,
        fingers: Fingers,
    ) -> Move
        requires may_move { IsMove self.old (record { page = page; source = source; target = target }) }
        requires accepted { isolate_refusal self.old ≡ None }
        requires ordered { (fingers.migrate ≤ fingers.free) × (fingers.free ≤ frame_count self.old) }
        requires swept { SweptIfQuiet (record (under_way self.old (record { page = page; source = source; target = target })) { migrate = fingers.migrate; free = fingers.free }) }
        ensures way { result ≡ record { page = page; serial = isolated self.old.records; source = source; target = target } }
        ensures here { set.contains self.new.lent_pages page ≡ false }
        ensures step { self.new ≡ record (under_way self.old (record { page = page; source = source; target = target })) { migrate = fingers.migrate; free = fingers.free } }
        ensures valid { IsValidZone self.new }
    {
        let serial = self.moves.isolate();
        self.frames.to_source(source, page);
        self.frames.to_target(target, page);
        self.tables.to_migration(source);
        let way = Placement::Moving {
            serial,
            source,
            target,
        };
        self.notes.place(page, way);
        self.fingers = fingers;
        self.history.note(Record::Isolate { serial, page });
        Move {
            page,
            serial,
            source,
            target,
        }
    }

    /// Whether a round that begins now is calm.
    fn is_calm(&self) -> bool
        ensures { result ≡ is_calm self.now }
    {
        self.moves.out() == 0 && !self.frames.is_any_stuck(&self.marks)
    }

    /// The fingers with which a round begins: the migrate finger at the bottom of the zone, and the free finger above its top.
    #[tactic(auto, using(crate::proofs::Rounds::swept_at_ends))]
    fn fingers_at_ends(&self) -> Fingers
        ensures ends { result ≡ record { migrate = 0; free = frame_count self.now } }
        // With these fingers a calm zone is swept.
        ensures swept { is_calm self.now ≡ true → IsSwept (record self.now { migrate = result.migrate; free = result.free }) }
    {
        Fingers::at_ends(512 * self.size.blocks)
    }

    /// Begins a round: sets the fingers to the ends of the zone, and notes the number of records and whether the round is calm.
    pub fn begin_round(&mut self)
        ensures step { self.new ≡ round_begun self.old }
        ensures valid { IsValidZone self.new }
    {
        let calm = self.is_calm();
        self.fingers = self.fingers_at_ends();
        self.history.begin_round(calm);
    }
}
