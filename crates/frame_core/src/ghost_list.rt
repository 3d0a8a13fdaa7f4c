use crate::seen::Seen;
use std::marker::Model;

/// How a list came to be. A value of it lives only until it is seen.
#[derive(Drop)]
enum Past<T> {
    Nothing,
    After(Seen<T>, Seen<Past<T>>),
    Same(Seen<Seen<Past<T>>>),
}

/// A list of items, the newest first, that exists in the proofs alone. It has no bytes.
///
/// Which items it has rests on the clauses of the functions below alone: no memory fixes it. A proof by hand of a function that
/// handles one could give it any items, so there may be none in a crate that uses this one. And since nothing is kept, no program
/// can compare the list with anything: only a proof can.
#[derive(Drop)]
pub struct GhostList<T> {
    past: Seen<Past<T>>,
}

impl<T> Model for GhostList<T> {
    ghost use Rattle.std.specs.Prelude.{List};
    ghost use Rattle.frame_core.specs.GhostList.{items_of};

    ghost Value = { List T };

    ghost view = { λ list. items_of list.past.value };
}

impl<T> GhostList<T> {
    ghost use Rattle.std.specs.Prelude.{◌≡◌, [], ◌∷◌};

    /// A list with no items.
    pub fn new() -> GhostList<T>
        ensures { result ≡ [] }
    {
        GhostList {
            past: Seen::of(&Past::Nothing),
        }
    }

    /// Puts an item at the front. Nothing of it is kept.
    pub fn push(&mut self, item: &T)
        ensures { self.new ≡ item.now ∷ self.old }
    {
        let GhostList { past } = self.again();
        self.past = Seen::of(&Past::After(Seen::of(item), past));
    }

    /// The same list once more.
    pub fn again(&self) -> GhostList<T>
        ensures { result ≡ self.now }
    {
        GhostList {
            past: Seen::of(&Past::Same(Seen::of(&self.past))),
        }
    }
}
