//! Cases, each with a zone or a world that is opened for it.

ghost use Rattle.std.specs.Prelude.{◌<◌, ◌≤◌};
ghost use Rattle.zone_core.specs.Books.{AreFor};

use super::world::{CallForm, OpenWorld, Row};
use super::zone::{Opened, Part};
use std::marker::Brand;
use std::process::Abort;
use zone_core::{Blanks, Opening};

/// How many words pages have.
#[derive(Clone, Copy)]
pub enum Size {
    One,
    Eight,
    SixtyFour,
    FiveHundredTwelve,
}

impl Size {
    pub fn words(self) -> usize
        ensures { (0 < result) × (result ≤ 512) }
    {
        match self {
            Size::One => 1,
            Size::Eight => 8,
            Size::SixtyFour => 64,
            Size::FiveHundredTwelve => 512,
        }
    }
}

/// What is tried with a zone or a world that was just opened.
#[derive(Clone, Copy)]
pub enum Trial<'a> {
    /// The parts are played with a zone of one pageblock that has a page, and so many places in its journal.
    Zone(u32, &'a [Part<'a>]),
    /// The rows are played with a world of one pageblock.
    World(CallForm, &'a [Row<'a>]),
    /// Calls that are drawn are made with a world of eight, and now and then what the zone keeps is what walks find.
    Drawn,
}

/// A trial with its name, and the size of its pages.
#[derive(Clone, Copy)]
pub struct Case<'a>(pub &'a str, pub Size, pub Trial<'a>);

impl<'a> Case<'a> {
    pub fn of_zone(name: &'a str, size: Size, places: u32, parts: &'a [Part<'a>]) -> Self {
        Case(name, size, Trial::Zone(places, parts))
    }

    pub fn of_world(name: &'a str, size: Size, form: CallForm, rows: &'a [Row<'a>]) -> Self {
        Case(name, size, Trial::World(form, rows))
    }
}

/// Opens what a case is tried with under a name of its own.
pub fn tries(rt: &(impl Abort + AllocGlobal), case: &Case) {
    tries_in::<Brand>(rt, case, Blanks::new());
}

fn tries_in<Z: Opening>(rt: &(impl Abort + AllocGlobal), case: &Case, blanks: Blanks)
    requires blanks { AreFor blanks Z.isolated Z.rounds Z.moved Z.back }
{
    match case.1 {
        Size::One => tries_with::<1, Z>(rt, case, blanks),
        Size::Eight => tries_with::<8, Z>(rt, case, blanks),
        Size::SixtyFour => tries_with::<64, Z>(rt, case, blanks),
        Size::FiveHundredTwelve => tries_with::<512, Z>(rt, case, blanks),
    }
}

fn tries_with<const W: usize, Z: Opening>(
    rt: &(impl Abort + AllocGlobal),
    case: &Case,
    blanks: Blanks,
)
    requires blanks { AreFor blanks Z.isolated Z.rounds Z.moved Z.back }
    requires size { W ≤ 65536 }
{
    let Case(name, _, trial) = *case;
    match trial {
        Trial::Zone(places, parts) => {
            Opened::<W, Z>::of(rt, places, blanks).plays(rt, name, parts);
        }
        Trial::World(form, rows) => {
            OpenWorld::<W, Z>::of(rt, 1, blanks).plays(rt, form, name, rows);
        }
        Trial::Drawn => OpenWorld::<W, Z>::of(rt, 8, blanks).plays_draws(rt),
    }
}
