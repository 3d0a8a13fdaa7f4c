ghost use Rattle.std.specs.Prelude.{◌≡◌, IfOk};
ghost use Rattle.zone_core.specs.Books.{AreFor};
ghost use Rattle.zone_core.specs.ZoneIdentity.{HasIdentity};

use super::Runtime;
use super::calls::{Answer, Call, client_of};
use client_core::{Client, Unsettled, settle_clients};
use frame_core::ZoneNo;
use round_core::{
    Gate, Keeping, NoGate, Open, Round, RoundError, SharedZone, ZoneIdentity, compact,
    compact_at_most,
};
use std::alloc::Global;
use std::process::Abort;
use std::sync::Wait;
use zone_core::{Blanks, EndSeatIn, Info, Opening, ScanSeatIn, Seats, SeatsIn, ZoneError, ZoneIn};

/// A zone under its lock, whose type names its opening and what it is.
#[derive(Drop)]
pub struct Shared<Z: Opening + ZoneIdentity + Send + Sync>
where
    Open<Z>: Keeping,
{
    pub zone: SharedZone<Z, Z>,
}

/// A shared zone with its seats, and the client that maps its pages.
#[derive(Drop)]
pub struct Opened<Z: Opening + ZoneIdentity + Send + Sync>
where
    Open<Z>: Keeping,
{
    pub shared: Shared<Z>,
    pub seats: SeatsIn<Z>,
    pub keeper: Client,
}

/// Opens a zone with so many places in its journal, or with a journal that is unrecorded.
fn open_with<Z: Opening>(
    alloc: Global,
    number: ZoneNo,
    blocks: u32,
    places: Option<u32>,
    blanks: Blanks,
) -> Result<(ZoneIn<Z>, ScanSeatIn<Z>, EndSeatIn<Z>), ZoneError>
    requires blanks { AreFor blanks Z.isolated Z.rounds Z.moved Z.back }
    ensures identity { IfOk result (λ opening. HasIdentity number blocks opening.0) }
{
    match places {
        Some(places) => ZoneIn::<Z>::open(alloc, number, blocks, places, blanks),
        None => ZoneIn::<Z>::open_unrecorded(alloc, number, blocks, blanks),
    }
}

/// Opens zone 1, of so many pageblocks. Its journal has so many places, or is unrecorded.
pub fn open_zone<Z: Opening + ZoneIdentity + Send + Sync, R: Abort + AllocGlobal>(
    rt: &R,
    blocks: u32,
    places: Option<u32>,
    blanks: Blanks,
) -> Opened<Z>
    requires identity { (Z.number ≡ 1) × (Z.blocks ≡ blocks) }
    requires blanks { AreFor blanks Z.isolated Z.rounds Z.moved Z.back }
{
    let number = ZoneNo::new(1).expect(rt, "a zone");
    let opened = open_with::<Z>(rt.alloc(), number, blocks, places, blanks);
    let (zone, scan, ends) = opened.expect(rt, "a zone");
    Opened {
        shared: Shared {
            zone: SharedZone::<Z, Z>::new(zone),
        },
        seats: Seats { scan, ends },
        keeper: client_of(rt, 0),
    }
}

/// How many pages a round isolates, moves and puts back.
pub type Counts = (u64, u64, u64);

/// A round that isn't refused.
fn done(rt: &impl Abort, round: Result<Round, RoundError>) -> Round {
    match round {
        Ok(round) => round,
        Err(error) => panic!(rt; "the round is refused: {error}"),
    }
}

impl<Z: Opening + ZoneIdentity + Send + Sync> Shared<Z> {
    /// A round with so many copiers and so much room, that isn't refused.
    pub fn round<G: Gate, R: Runtime>(
        &self,
        rt: &R,
        seats: &mut SeatsIn<Z>,
        copiers: usize,
        room: usize,
        gate: &G,
    ) -> Round {
        assert!(rt; 0 < copiers && copiers <= 4 && 0 < room && room <= 64);
        let round = compact(rt, rt.alloc(), &self.zone, seats, copiers, room, gate);
        done(rt, round)
    }

    /// A round of at most so many pages that isn't refused, with room for three.
    pub fn round_at_most<R: Runtime>(
        &self,
        rt: &R,
        seats: &mut SeatsIn<Z>,
        copiers: usize,
        most: u32,
    ) -> Round {
        assert!(rt; 0 < copiers && copiers <= 4 && 0 < most);
        let round = compact_at_most(rt, rt.alloc(), &self.zone, seats, copiers, 3, most, &NoGate);
        done(rt, round)
    }
}

pub fn counts_of(round: &Round) -> Counts {
    (round.count, round.moved, round.back)
}

impl<Z: Opening + ZoneIdentity + Send + Sync> Opened<Z> {
    /// Makes calls of the client that maps the pages.
    pub fn keeps<R: Wait + Abort>(&mut self, rt: &R, table: &[(Call, Answer)]) {
        self.shared.play(rt, &mut self.keeper, table);
    }

    /// The virtual page of this number names a page in the frame of this number.
    pub fn map<R: Wait + Abort>(&mut self, rt: &R, number: u32) {
        self.keeps(rt, &[(Call::MapAt(number, number), Answer::Done)]);
    }

    /// Virtual pages 0, 1, .. name pages in the frames 0, 1, .., which are the lowest free ones.
    pub fn fill<R: Wait + Abort>(&mut self, rt: &R, pages: u32) {
        for number in 0..pages {
            self.keeps(rt, &[(Call::Map(number), Answer::Frame(number))]);
        }
    }

    /// What is told of the zone: its counts, and the length of its journal.
    pub fn told<R: Wait>(&self, rt: &R) -> (Info, u64) {
        let room = self.shared.zone.lock(rt);
        (room.zone().info(), room.zone().journal().len())
    }

    /// What settling these clients with the zone answers.
    pub fn settled<R: Wait>(&self, rt: &R, clients: &[Client]) -> Result<(), Unsettled> {
        settle_clients(self.shared.zone.lock(rt).zone(), clients)
    }

    /// The receipts of these clients stand in the journal.
    pub fn assert_settled<R: Wait + Abort>(&self, rt: &R, clients: &[Client]) {
        assert!(rt; self.settled(rt, clients) == Ok(()));
    }
}
