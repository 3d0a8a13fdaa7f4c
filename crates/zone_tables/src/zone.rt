ghost use Rattle.std.specs.Prelude.{◌≡◌};

use crate::cleared::Cleared;
use crate::handed_out::HandedOut;
use crate::history::History;
use crate::moves::Moves;
use crate::notes::Notes;
use frame_core::{WordsOf, ZoneNo};
use number_set::NumberSet;
use scan_core::{Fingers, Frames, Marks};
use state_core::ZoneSize;
use std::marker::Model;
use table_core::Tables;

/// A zone of pages of `W` words, without the ledgers that name its opening.
#[derive(Drop)]
pub struct ZoneTables<const W: usize> {
    pub(crate) number: ZoneNo,
    pub(crate) size: ZoneSize,
    pub(crate) frames: Frames,
    pub(crate) tables: Tables,
    pub(crate) words: WordsOf<W>,
    pub(crate) notes: Notes,
    pub(crate) moves: Moves,
    pub(crate) handed_out: HandedOut,
    pub(crate) cleared: Cleared,
    pub(crate) marks: Marks,
    pub(crate) apart: bool,
    pub(crate) claimed: NumberSet,
    pub(crate) fingers: Fingers,
    pub(crate) history: History,
}

impl<const W: usize> Model for ZoneTables<W> {
    ghost use Rattle.state_core.specs.ZoneState.{ZoneState};
    ghost use Rattle.state_core.specs.ZoneCode.{coded_zone};

    ghost Value = { ZoneState };

    ghost coded = { coded_zone };

    ghost use Rattle.zone_tables.specs.Sound.{state_of, IsSound};

    ghost view = { state_of };

    ghost invariant = { λ z. IsSound z (state_of z) };
}
