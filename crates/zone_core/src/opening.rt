//! The names of an opened zone.

ghost use Rattle.std.specs.Prelude.{ℕ};

use crate::seats::{EndSeat, ScanSeat, Seats};
use crate::zone::Zone;
use std::marker::{Brand, PhantomData};
use std::sync::ledger::Ledger;

/// The names of the four ledgers of a zone. A type with this trait names one opening of a zone, so that no seat of another one fits.
/// Only contracts know the names, and whoever opens the zone chooses them.
pub trait Opening {
    ghost isolated: { ℕ };

    ghost rounds: { ℕ };

    ghost moved: { ℕ };

    ghost back: { ℕ };
}

// Any names: a call that passes `Brand` chooses those of its blanks.
impl Opening for Brand {
    ghost isolated = { 0 };

    ghost rounds = { 0 };

    ghost moved = { 0 };

    ghost back = { 0 };
}

/// The ledger of the pages that were isolated in an opened zone.
pub struct IsolatedPages<Z> {
    of: PhantomData<Z>,
}

impl<Z: Opening> Ledger for IsolatedPages<Z> {
    ghost name = { Z.isolated };

    ghost parts = { 1 };
}

/// The ledger of the rounds that were begun in it.
pub struct Rounds<Z> {
    of: PhantomData<Z>,
}

impl<Z: Opening> Ledger for Rounds<Z> {
    ghost name = { Z.rounds };

    ghost parts = { 1 };
}

/// The ledger of the pages that were moved.
pub struct MovedPages<Z> {
    of: PhantomData<Z>,
}

impl<Z: Opening> Ledger for MovedPages<Z> {
    ghost name = { Z.moved };

    ghost parts = { 64 };
}

/// The ledger of the pages that were put back.
pub struct PagesBack<Z> {
    of: PhantomData<Z>,
}

impl<Z: Opening> Ledger for PagesBack<Z> {
    ghost name = { Z.back };

    ghost parts = { 64 };
}

/// A zone that `Z` names, with pages of eight words.
pub type ZoneIn<Z> = ZoneInOf<8, Z>;

/// A zone that `Z` names, with pages of `W` words.
pub type ZoneInOf<const W: usize, Z> = Zone<W, IsolatedPages<Z>, MovedPages<Z>, PagesBack<Z>>;

/// The scan seat of a zone that `Z` names.
pub type ScanSeatIn<Z> = ScanSeat<IsolatedPages<Z>, Rounds<Z>>;

/// An end seat of such a zone.
pub type EndSeatIn<Z> = EndSeat<MovedPages<Z>, PagesBack<Z>>;

/// The two seats of such a zone.
pub type SeatsIn<Z> = Seats<IsolatedPages<Z>, Rounds<Z>, MovedPages<Z>, PagesBack<Z>>;
