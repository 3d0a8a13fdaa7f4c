//! The four hands of a world.

ghost use Rattle.std.specs.Prelude.{◌≡◌, ◌-◌, ◌<◌, ◌≤◌, [], ◌∷◌, slice_set, IfNone, OnSome};
ghost use Rattle.std.specs.List.{list_all};
ghost use Rattle.machine_core.specs.Hands.{held_at, page_held, copy_held, is_nothing};
ghost use Rattle.machine_core.specs.declared.hands.Held.TheVariants.{Nothing};

use frame_core::{CopiedOf, HandNo, IsolatedOf};
use std::mem;

/// What a hand holds: nothing, a page, or its copy. Of a world, contracts see the serial of each.
#[derive(Drop)]
pub enum Held<P, C> {
    Nothing,
    Page(P),
    Copy(C),
}

/// The four hands, numbered from 1 to 4.
#[derive(Drop)]
pub struct Hands<const W: usize> {
    pub(crate) held: [Held<IsolatedOf<W>, CopiedOf<W>>; 4],
    // A page has at most 65,536 words.
    ghost size: { W ≤ 65536 },
}

impl<const W: usize> Hands<W> {
    /// Four hands that hold nothing.
    pub(crate) fn new() -> Self
        requires { W ≤ 65536 }
        ensures { result.held ≡ Nothing ∷ Nothing ∷ Nothing ∷ Nothing ∷ [] }
    {
        Hands {
            held: [Held::Nothing, Held::Nothing, Held::Nothing, Held::Nothing],
        }
    }

    /// Whether a hand holds nothing.
    pub(crate) fn is_empty(&self, hand: HandNo) -> bool
        ensures nothing { result ≡ is_nothing (held_at self.now.held hand) }
        ensures number { (0 < hand) × (hand ≤ 4) }
    {
        match &self.held[hand.get() as usize - 1] {
            Held::Nothing => true,
            _ => false,
        }
    }

    /// Whether each hand holds nothing.
    pub(crate) fn are_empty(&self) -> bool
        ensures { result ≡ list_all is_nothing self.now.held }
    {
        match &self.held {
            [Held::Nothing, Held::Nothing, Held::Nothing, Held::Nothing] => true,
            _ => false,
        }
    }

    /// Takes the page out of a hand.
    pub(crate) fn page_from(&mut self, hand: HandNo) -> Option<IsolatedOf<W>>
        ensures page { result ≡ page_held (held_at self.old.held hand) }
        ensures some { OnSome result (self.new.held ≡ slice_set self.old.held (hand - 1) Nothing) }
        ensures none { IfNone result (self.new ≡ self.old) }
        ensures number { (0 < hand) × (hand ≤ 4) }
    {
        let held = &mut self.held[hand.get() as usize - 1];
        match mem::replace(held, Held::Nothing) {
            Held::Page(page) => Some(page),
            other => {
                *held = other;
                None
            }
        }
    }

    /// Takes the copy out of a hand.
    pub(crate) fn copy_from(&mut self, hand: HandNo) -> Option<CopiedOf<W>>
        ensures copy { result ≡ copy_held (held_at self.old.held hand) }
        ensures some { OnSome result (self.new.held ≡ slice_set self.old.held (hand - 1) Nothing) }
        ensures none { IfNone result (self.new ≡ self.old) }
        ensures number { (0 < hand) × (hand ≤ 4) }
    {
        let held = &mut self.held[hand.get() as usize - 1];
        match mem::replace(held, Held::Nothing) {
            Held::Copy(copy) => Some(copy),
            other => {
                *held = other;
                None
            }
        }
    }

    /// Puts something in a hand.
    pub(crate) fn put(&mut self, hand: HandNo, held: Held<IsolatedOf<W>, CopiedOf<W>>)
        ensures { self.new.held ≡ slice_set self.old.held (hand - 1) held.entry }
    {
        self.held[hand.get() as usize - 1] = held;
    }
}
