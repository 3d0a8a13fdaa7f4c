//! How the move of a page ends.

ghost use Rattle.std.specs.Prelude.{◌≡◌, ◌≢◌, ◌<◌, ◌≤◌, ◌+◌, ◌↔◌, length, nat_lt, nat_eq, not, true, false, IsTrue, IsSome, IfSome, Some, IfOk};
ghost use Rattle.std.specs.FinMap as map;
ghost use Rattle.std.specs.FinSet as set;
ghost use Rattle.frame_core.specs.History.{pins};
ghost use Rattle.frame_core.specs.Moves.{out, isolated, moved, put_back};
ghost use Rattle.frame_core.specs.LentWords.{IsHere};
ghost use Rattle.frame_core.specs.Words.{words_of, with_words};
ghost use Rattle.state_core.specs.Valid.{IsValidZone};
ghost use Rattle.state_core.specs.Ending.{HasCause, IsSettled, is_own, moved_to_target, put_back_to_source};
ghost use Rattle.state_core.specs.Carrying.{words_now};
ghost use Rattle.state_core.specs.LentMoves.{IsCopiedMove, move_returned};
ghost use Rattle.state_core.specs.ZoneState.{is_quiet};
ghost use Rattle.state_core.specs.declared.placement.Placement.TheVariants.{Moving};
ghost use Rattle.zone_tables.specs.Carried.{AreRowsOf, IfCopy, IfRows, has_rows};
ghost use Rattle.zone_tables.specs.LentPages.{IsLentNow};

use crate::zone::ZoneTables;
use frame_core::{Cause, FrameNo, PageNo, PageOf, Record, Serial, WordsOf};
use row_core::Row;
use state_core::{Audit, Placement};

/// A moving page, with its serial and its two frames.
#[derive(Clone, Copy, PartialEq, Eq)]
pub struct Move {
    pub page: PageNo,
    pub serial: Serial,
    pub source: FrameNo,
    pub target: FrameNo,
}

/// What the target of a moving page gets its words from.
#[derive(Drop)]
pub(crate) enum Carried<S> {
    /// The words of a copy of the page.
    Copy(S),
    /// The frame that it leaves.
    Source,
    /// The rows of both frames, which were lent: the second one has the words already.
    Rows(Row, Row),
}

impl<const W: usize> ZoneTables<W> {
    /// The move of a page, if the page is of this zone and is moving under this serial, and its words aren't lent.
    #[inline(always)]
    pub fn find_move(&self, serial: Serial, page: &PageOf<W>) -> Option<Move>
        ensures own { IsSome result ↔ IsTrue (is_own self.now (record { serial = serial; page = page.now })) }
        ensures named { IfSome result (λ way. (way.page ≡ page.now.number) × (way.serial ≡ serial)) }
        ensures placed { IfSome result (λ way. map.get self.now.placement way.page ≡ Some (Moving way.serial way.source way.target)) }
        ensures here { IfSome result (λ way. set.contains self.now.lent_pages way.page ≡ false) }
    {
        if page.zone() != self.number {
            return None;
        }
        let Placement::Moving {
            serial: under,
            source,
            target,
        } = self.notes.placement(page.number())?
        else {
            return None;
        };
        if under != serial {
            return None;
        }
        if self.is_lent_in(source) {
            return None;
        }
        Some(Move {
            page: page.number(),
            serial,
            source,
            target,
        })
    }

    /// Whether a moving page has the words of this one.
    pub fn has_words(&self, way: &Move, page: &PageOf<W>) -> bool
        requires placed { map.get self.now.placement way.now.page ≡ Some (Moving way.now.serial way.now.source way.now.target) }
        requires here { set.contains self.now.lent_pages way.now.page ≡ false }
        ensures { IsTrue result ↔ (page.now.words ≡ words_now self.now way.now.page) }
    {
        self.words.same(way.source, page)
    }

    /// Whether a page in use has a pin.
    pub fn has_pin(&self, page: PageNo) -> bool
        requires { IsSome (map.get self.now.placement page) }
        ensures { result ≡ not (nat_eq (pins self.now.records page) 0) }
    {
        self.notes.get(page).pins != 0
    }

    /// Ends a move: the page is in its target, with the words of its copy.
    #[inline(always)]
    pub fn arrive(&mut self, way: &Move, copy: &PageOf<W>)
        requires placed { map.get self.old.placement way.now.page ≡ Some (Moving way.now.serial way.now.source way.now.target) }
        requires here { set.contains self.old.lent_pages way.now.page ≡ false }
        requires unpinned { pins self.old.records way.now.page ≡ 0 }
        requires words { copy.now.words ≡ words_now self.old way.now.page }
        ensures step { self.new ≡ moved_to_target self.old way.now.serial way.now.page }
        ensures valid { IsValidZone self.new }
        ensures settled { IsSettled self.old self.new way.now.page way.now.target way.now.source }
    {
        self.arrive_with(way, Carried::Copy(copy.words()));
    }

    /// Ends a move of which nobody has a copy: the page is in its target, with the words of its source.
    #[inline(always)]
    pub fn carry(&mut self, way: &Move)
        requires placed { map.get self.old.placement way.now.page ≡ Some (Moving way.now.serial way.now.source way.now.target) }
        requires here { set.contains self.old.lent_pages way.now.page ≡ false }
        requires unpinned { pins self.old.records way.now.page ≡ 0 }
        ensures step { self.new ≡ moved_to_target self.old way.now.serial way.now.page }
        ensures valid { IsValidZone self.new }
        ensures settled { IsSettled self.old self.new way.now.page way.now.target way.now.source }
    {
        self.arrive_with(way, Carried::Source);
    }

    /// Ends a move: the page is in its target, with the words that are carried there. Where they were lent, they aren't any more.
    #[inline(always)]
    pub(crate) fn arrive_with(&mut self, way: &Move, carried: Carried<&[u64]>)
        requires placed { map.get self.old.placement way.now.page ≡ Some (Moving way.now.serial way.now.source way.now.target) }
        requires unpinned { pins self.old.records way.now.page ≡ 0 }
        requires lent { set.contains self.old.lent_pages way.now.page ≡ has_rows carried }
        requires copy { IfCopy carried (λ words. words.now ≡ words_now self.old way.now.page) }
        requires rows { IfRows carried (λ from to. IsCopiedMove self.old (record { page = way.now.page; serial = way.now.serial; source = way.now.source; target = way.now.target; from = from; to = to })) }
        ensures step { self.new ≡ move_returned (moved_to_target self.old way.now.serial way.now.page) way.now.page }
        ensures valid { IsValidZone self.new }
        ensures settled { IsSettled self.old self.new way.now.page way.now.target way.now.source }
    {
        let Move {
            page,
            serial,
            source,
            target,
        } = *way;
        let note = self.notes.get(page);
        self.frames.leave(source);
        self.frames.settle(target, page, note.can_move());
        fill_target(&mut self.words, way, carried);
        self.tables.to_present(source, target);
        self.moves.arrive();
        self.notes.place(page, Placement::At(target));
        self.history.note(Record::Moved { serial });
    }

    /// Ends a move: the page is in its source again.
    #[inline(always)]
    pub fn go_back(&mut self, way: &Move, cause: Cause)
        requires placed { map.get self.old.placement way.now.page ≡ Some (Moving way.now.serial way.now.source way.now.target) }
        requires here { set.contains self.old.lent_pages way.now.page ≡ false }
        requires cause { HasCause cause (pins self.old.records way.now.page) }
        ensures step { self.new ≡ put_back_to_source self.old way.now.serial way.now.page cause }
        ensures valid { IsValidZone self.new }
        ensures settled { IsSettled self.old self.new way.now.page way.now.source way.now.target }
    {
        let Move {
            page,
            serial,
            source,
            target,
        } = *way;
        let note = self.notes.get(page);
        self.frames.leave(target);
        self.frames.settle(source, page, note.can_move());
        self.tables.to_present(source, source);
        self.moves.go_back();
        self.notes.place(page, Placement::At(source));
        self.history.note(Record::Back { serial, cause });
    }

    /// Whether the latest round is still quiet.
    pub fn quiet(&self) -> bool
        ensures { result ≡ is_quiet self.now }
    {
        self.history.quiet()
    }

    /// How many moves have ended: those of pages that were moved, and those of pages that were put back.
    pub fn ended(&self) -> u64
        ensures { result ≡ moved self.now.records + put_back self.now.records }
    {
        self.moves.ended()
    }

    /// The counts of pages isolated, moved and put back, where no page is moving.
    pub fn counted(&self) -> Option<Audit>
        ensures some { IsSome result ↔ (length (out self.now.records) ≡ 0) }
        ensures isolated { IfSome result (λ audit. audit.isolated ≡ isolated self.now.records) }
        ensures moved { IfSome result (λ audit. audit.moved ≡ moved self.now.records) }
        ensures back { IfSome result (λ audit. audit.back ≡ put_back self.now.records) }
        ensures sum { IfSome result (λ audit. audit.moved + audit.back ≡ audit.isolated) }
    {
        if self.moves.out() != 0 {
            return None;
        }
        Some(self.moves.counts())
    }
}

/// Gives the target of a moving page the words that are carried there.
#[inline(always)]
fn fill_target<const W: usize>(words: &mut WordsOf<W>, way: &Move, carried: Carried<&[u64]>)
    requires apart { way.now.source ≢ way.now.target }
    requires source { way.now.source < length words.old.rows }
    requires target { way.now.target < length words.old.rows }
    requires here { has_rows carried ≡ false → IsHere words.old way.now.source 1 × IsHere words.old way.now.target 1 }
    requires sizes { (length (words_of words.old.rows way.now.source) ≡ W) × (length (words_of words.old.rows way.now.target) ≡ W) }
    requires copy { IfCopy carried (λ copy. copy.now ≡ words_of words.old.rows way.now.source) }
    requires rows { IfRows carried (λ from to. AreRowsOf W words.old way.now.source way.now.target from to × (to.words ≡ from.words)) }
    ensures rows { words.new.rows ≡ with_words words.old.rows way.now.target (words_of words.old.rows way.now.source) }
    ensures lent { IsLentNow words.old.lent words.new.lent (Moving way.now.serial way.now.source way.now.target) false }
    ensures at { (words.new.at ≡ words.old.at) × (words.new.given ≡ words.old.given) }
{
    match carried {
        Carried::Copy(copy) => words.store_words(way.target, 0, copy),
        Carried::Source => words.copy(way.source, way.target),
        Carried::Rows(from, to) => take_rows_back(words, way, from, to),
    }
}

/// Takes the rows of both frames of a moving page back.
pub(crate) fn take_rows_back<const W: usize>(words: &mut WordsOf<W>, way: &Move, from: Row, to: Row)
    requires source { way.now.source < length words.old.rows }
    requires target { way.now.target < length words.old.rows }
    requires are { AreRowsOf W words.old way.now.source way.now.target from to }
    ensures rows { words.new.rows ≡ with_words words.old.rows way.now.target to.words }
    ensures lent { IsLentNow words.old.lent words.new.lent (Moving way.now.serial way.now.source way.now.target) false }
    ensures at { (words.new.at ≡ words.old.at) × (words.new.given ≡ words.old.given) }
{
    words.take_block_back(way.source, 1, from);
    words.take_block_back(way.target, 1, to);
}
