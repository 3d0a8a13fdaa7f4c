ghost use Rattle.std.specs.Prelude.{◌≡◌};
ghost use Rattle.zone_core.specs.Books.{AreFor};

mod alone;
mod beside;
mod calls;
mod carrying;
mod collecting;
mod copiers;
mod gates;
mod jobs;
mod looking;
mod opening;
mod refusing;
mod reserving;
mod rounds;
mod scenes;
mod settling;
mod tally;
mod unrecorded;

use beside::Scene;
use client_core::Client;
use gates::Plan;
use huge_core::Collector;
use opening::{Opened, open_zone};
use refusing::Table;
use reserving::Case;
use round_core::ZoneIdentity;
use rounds::Limited;
use std::marker::Brand;
use std::process::Abort;
use std::sync::Wait;
use std::thread::Threads;
use zone_core::{Blanks, Opening};

/// What runs a test: it starts threads, waits, and ends a test that fails.
pub trait Runtime: Threads + Wait + Abort + AllocGlobal + Sync {}

impl<R: Threads + Wait + Abort + AllocGlobal + Sync> Runtime for R {}

/// What is tried with a zone that was just opened.
#[derive(Clone, Copy)]
enum Trial<'a> {
    /// With so many copiers.
    MovesTheLowerHalf(usize),
    /// Rounds with a limit, over a zone of so many pages.
    MovesAtMost(u32, &'a [Limited]),
    IsBroken,
    NotesEachPage,
    /// All but one of so many copiers.
    KeepsCopiersBack(usize),
    /// With so many copiers, and room for so many pages.
    LooksAtEachPoint(usize, usize),
    Plays(&'a Scene),
    /// The calls of a client, of which so many are accepted.
    Refuses(&'a [Table], usize),
    Settles,
    RefusesReceipts(&'a [Client]),
    IsUnrecorded,
    Reserves(&'a Case),
    GivesBack,
    /// So many pages are isolated when the gate lets the first thread go.
    Collects(&'a Collector, Plan, u64),
}

impl<Z: Opening + ZoneIdentity + Send + Sync> Opened<Z> {
    fn undergoes<R: Runtime>(&mut self, rt: &R, trial: Trial<'_>) {
        match trial {
            Trial::MovesTheLowerHalf(copiers) => self.moves_the_lower_half(rt, copiers),
            Trial::MovesAtMost(pages, rounds) => self.moves_at_most(rt, pages, rounds),
            Trial::IsBroken => self.is_broken(rt),
            Trial::NotesEachPage => self.notes_each_page(rt),
            Trial::KeepsCopiersBack(copiers) => self.keeps_copiers_back(rt, copiers),
            Trial::LooksAtEachPoint(copiers, room) => self.looks_at_each_point(rt, copiers, room),
            Trial::Plays(scene) => self.plays(rt, scene),
            Trial::Refuses(tables, accepted) => self.refuses(rt, tables, accepted),
            Trial::Settles => self.settles(rt),
            Trial::RefusesReceipts(clients) => self.refuses_receipts(rt, clients),
            Trial::IsUnrecorded => self.is_unrecorded(rt),
            Trial::Reserves(case) => self.reserves(rt, case),
            Trial::GivesBack => self.gives_back(rt),
            Trial::Collects(collector, plan, ahead) => self.collects(rt, collector, plan, ahead),
        }
    }
}

/// Opens zone 1, of so many pageblocks, and tries something with it. Its journal has so many places, or is unrecorded. The answer is
/// the client that mapped its pages.
fn tries_in<Z: Opening + ZoneIdentity + Send + Sync, R: Runtime>(
    rt: &R,
    blocks: u32,
    places: Option<u32>,
    trial: Trial<'_>,
    blanks: Blanks,
) -> Client
    requires identity { (Z.number ≡ 1) × (Z.blocks ≡ blocks) }
    requires blanks { AreFor blanks Z.isolated Z.rounds Z.moved Z.back }
{
    let mut opening = open_zone::<Z, R>(rt, blocks, places, blanks);
    opening.undergoes(rt, trial);
    opening.keeper
}

/// Tries something with a zone 1 that is opened for it under a name of its own.
fn tries<R: Runtime>(rt: &R, blocks: u32, places: Option<u32>, trial: Trial<'_>) -> Client {
    tries_in::<Brand, R>(rt, blocks, places, trial, Blanks::new())
}
