//! The move of a page whose words are lent.

ghost use Rattle.std.specs.Prelude.{◌≡◌, length};

use crate::ending::Move;
use row_core::Row;
use std::marker::Model;

/// The move of a page whose words are lent: those of the frame that it leaves, and those of the one that it goes to. Nobody writes the
/// first ones. Where it is dropped, the words stay lent, and the page stays on its way.
#[derive(Drop)]
pub struct LentMove {
    way: Move,
    from: Row,
    to: Row,
}

impl Model for LentMove {
    ghost use Rattle.std.specs.Prelude.{◌≡◌, length};
    ghost use Rattle.state_core.specs.LentMoves.{LentMove as Seen, lent_move_code};

    ghost Value = { Seen };

    ghost coded = { lent_move_code };

    ghost view = { λ m. record { page = m.way.page; serial = m.way.serial; source = m.way.source; target = m.way.target; from = m.from; to = m.to } };

    ghost invariant = { λ m. length m.from.words ≡ length m.to.words };
}

impl LentMove {
    /// The move of these rows, which have as many words. A zone takes it only where it lent both for this move.
    pub fn of(way: Move, from: Row, to: Row) -> LentMove
        requires { length from.words ≡ length to.words }
        ensures { result ≡ record { page = way.page; serial = way.serial; source = way.source; target = way.target; from = from; to = to } }
    {
        LentMove { way, from, to }
    }

    /// The page, with its serial and its two frames.
    pub fn way(&self) -> Move
        ensures { result ≡ record { page = self.now.page; serial = self.now.serial; source = self.now.source; target = self.now.target } }
    {
        self.way
    }

    /// Copies the words of the frame that the page leaves into the one that it goes to.
    pub fn copy(self) -> CopiedMove
        ensures { result ≡ record self { to = record self.to { words = self.from.words } } }
    {
        let LentMove { way, from, mut to } = self;
        to.copy_from(&from);
        CopiedMove::of(LentMove { way, from, to })
    }

    /// The move, and the rows of the frame that the page leaves and of the one that it goes to.
    pub fn into_parts(self) -> (Move, Row, Row)
        ensures way { result.0 ≡ record { page = self.page; serial = self.serial; source = self.source; target = self.target } }
        ensures rows { (result.1 ≡ self.from) × (result.2 ≡ self.to) }
    {
        let LentMove { way, from, to } = self;
        (way, from, to)
    }
}

/// The same after the copy: the words of both frames are the same.
#[derive(Drop)]
pub struct CopiedMove {
    lent: LentMove,
}

impl Model for CopiedMove {
    ghost use Rattle.std.specs.Prelude.{◌≡◌};
    ghost use Rattle.state_core.specs.LentMoves.{LentMove as Seen, lent_move_code};

    ghost Value = { Seen };

    ghost coded = { lent_move_code };

    ghost view = { λ m. m.lent };

    ghost invariant = { λ m. m.lent.to.words ≡ m.lent.from.words };
}

impl CopiedMove {
    /// A move whose words were copied: both of its rows have the same.
    pub fn of(lent: LentMove) -> CopiedMove
        requires { lent.to.words ≡ lent.from.words }
        ensures { result ≡ lent }
    {
        CopiedMove { lent }
    }

    /// The move.
    pub fn lent(&self) -> &LentMove
        ensures { result.now ≡ self.now }
    {
        &self.lent
    }

    /// The move without what is known of its copy.
    pub fn into_lent(self) -> LentMove
        ensures { result ≡ self }
    {
        self.lent
    }
}
