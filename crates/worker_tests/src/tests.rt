ghost use Rattle.std.specs.Prelude.{◌≡◌};
ghost use Rattle.zone_core.specs.ZoneIdentity.{HasIdentity};

mod beside;
mod crews;
mod emptying;
mod pages;
mod pinning;
mod refusals;
mod rounds;

use crews::Meanwhile;
use std::marker::Brand;
use std::process::Abort;
use std::sync::Wait;
use std::thread::Threads;
use worker_threads::{CompactingZone, MemoryIdentity, Open, OpenZone, Round};
use zone_core::{BareZone, ZoneError};

/// What runs a test: it starts threads, waits, and ends a test that fails.
pub trait Runtime: Threads + Wait + Abort + AllocGlobal + Sync {}

impl<R: Threads + Wait + Abort + AllocGlobal + Sync> Runtime for R {}

/// A zone with pages of eight words, which workers compact.
pub type Shared<K> = OpenZone<K, 8>;

/// What is done with a zone that is shared.
#[derive(Clone, Copy)]
enum Trial {
    /// So many workers make a round, and another one.
    MakesRounds(usize),
    /// Workers make rounds beside two clients.
    IsUsed,
    /// A page is pinned while it is copied.
    Pins,
    /// A crew is called without threads, then with some, and after it was stopped.
    HasCrew,
    /// Rounds are begun though a page is moving.
    IsBusy,
    /// The journal has no place for all moves.
    FillsJournal,
    /// Runs are emptied between the rounds of a crew.
    EmptiesRuns,
    /// Runs are emptied beside two clients.
    IsUsedAndEmptied,
    /// No block can begin at runs that are to be emptied.
    HasWrongRuns,
    /// It can't be shared, since it lies in memory of its own.
    IsOwn,
}

/// After so many turns a test gives up. On a busy machine a thread may get its turn after milliseconds alone.
const TURNS: u32 = 20_000_000;

/// Each page that the round isolated was moved or put back.
fn adds_up(round: Round) -> bool {
    round.moved.checked_add(round.back) == Some(round.isolated)
}

impl Trial {
    fn happens<K: MemoryIdentity + Send + Sync, R: Runtime>(self, rt: &R, shared: &Shared<K>) {
        match self {
            Trial::MakesRounds(workers) => rounds::make_rounds(rt, shared, workers),
            Trial::IsUsed => beside::use_beside(rt, shared, Meanwhile::IsUsed),
            Trial::Pins => pinning::pin_while_copied(rt, shared),
            Trial::HasCrew => crews::call_and_stop(rt, shared),
            Trial::IsBusy => refusals::begin_while_moving(rt, shared),
            Trial::FillsJournal => refusals::fill_journal(rt, shared),
            Trial::EmptiesRuns => emptying::empty_with_crew(rt, shared),
            Trial::IsUsedAndEmptied => beside::use_beside(rt, shared, Meanwhile::IsUsedAndEmptied),
            Trial::HasWrongRuns => emptying::refuse_runs(rt, shared),
            Trial::IsOwn => panic!(rt; "it is shared"),
        }
    }
}

/// Shares a zone, for four workers, and takes it out again afterwards. It is handed back where it can't be shared.
fn tries_in<K: MemoryIdentity + Send + Sync, R: Runtime>(
    rt: &R,
    zone: BareZone<8>,
    trial: Trial,
) -> BareZone<8>
    requires identity { HasIdentity K.number K.blocks zone }
    requires memory { zone.memory ≡ K.memory }
{
    match CompactingZone::<Open<K>, 8>::new(rt.alloc(), zone, 4) {
        Ok(shared) => {
            trial.happens(rt, &shared);
            shared.into_parts().0
        }
        Err((error, zone)) => {
            assert!(rt; error == ZoneError::OwnMemory && matches!(&trial, Trial::IsOwn));
            zone
        }
    }
}

fn tries<R: Runtime>(rt: &R, zone: BareZone<8>, trial: Trial) -> BareZone<8> {
    tries_in::<Brand, R>(rt, zone, trial)
}
