use super::Runtime;
use super::calls::{Answer, Call, client_of};
use super::gates::{Plan, Until, Watch};
use super::jobs::Job;
use super::opening::{Counts, Opened, Shared, counts_of};
use client_core::Client;
use round_core::ZoneIdentity;
use std::process::Abort;
use std::slice::from_ref;
use std::thread::{for_each_mut, join};
use zone_core::{Opening, SeatsIn};

/// Rounds beside four clients, and what comes of them.
#[derive(Clone, Copy)]
pub struct Scene {
    /// So many pages can move.
    pub pages: u32,
    /// Calls that are made before.
    pub before: &'static [(Call, Answer)],
    pub plan: Plan,
    pub copiers: usize,
    pub rounds: u32,
    /// The jobs of the first clients; the others idle.
    pub jobs: &'static [Job],
    /// How often the clients speak.
    pub spoken: u64,
    /// How many pages the rounds isolate, move and put back in all.
    pub counts: Counts,
}

fn four_clients<R: Abort + AllocGlobal>(rt: &R) -> [Client; 4] {
    [
        client_of(rt, 1),
        client_of(rt, 2),
        client_of(rt, 3),
        client_of(rt, 4),
    ]
}

/// Four clients do their jobs, each on a thread of its own.
fn work_all<Z: Opening + ZoneIdentity + Send + Sync, R: Runtime>(
    rt: &R,
    shared: &Shared<Z>,
    watch: &Watch,
    jobs: &[Job],
    clients: &mut [Client; 4],
) {
    for_each_mut(
        rt,
        clients,
        4,
        &|i: usize, client: &mut Client| {
            if let Some(job) = jobs.get(i) {
                shared.work(rt, watch, client, *job);
            }
        },
    );
}

/// The rounds of a scene, one after the other. How many pages they isolated, moved and put back in all. After them the clients have
/// spoken as often as they do.
fn run_rounds<Z: Opening + ZoneIdentity + Send + Sync, R: Runtime>(
    rt: &R,
    shared: &Shared<Z>,
    seats: &mut SeatsIn<Z>,
    watch: &Watch,
    scene: &Scene,
) -> Counts {
    let mut sum = (0, 0, 0);
    for _round in 0..scene.rounds {
        let round = shared.round(rt, seats, scene.copiers, 8, watch);
        sum = added(sum, counts_of(&round));
    }
    watch.assert_comes_to(rt, Until::spoken(scene.spoken));
    sum
}

fn added(sum: Counts, more: Counts) -> Counts {
    (
        sum.0.saturating_add(more.0),
        sum.1.saturating_add(more.1),
        sum.2.saturating_add(more.2),
    )
}

impl<Z: Opening + ZoneIdentity + Send + Sync> Opened<Z> {
    /// Rounds run while four clients do their jobs.
    fn run_beside<R: Runtime>(
        &mut self,
        rt: &R,
        watch: &Watch,
        scene: &Scene,
        clients: &mut [Client; 4],
    ) -> Counts {
        let (shared, seats) = (&self.shared, &mut self.seats);
        let (counts, ()) = join(
            rt,
            move || -> Counts { run_rounds(rt, shared, seats, watch, scene) },
            move || work_all(rt, shared, watch, scene.jobs, clients),
        );
        counts
    }

    /// The four clients of a scene, once they have done their jobs. Its rounds isolate, move and put back so many pages.
    pub fn played<R: Runtime>(&mut self, rt: &R, scene: &Scene) -> [Client; 4] {
        self.fill(rt, scene.pages);
        self.keeps(rt, scene.before);
        let watch = Watch::by(scene.plan);
        let mut clients = four_clients(rt);
        let counts = self.run_beside(rt, &watch, scene, &mut clients);
        assert!(rt; counts == scene.counts);
        watch.assert_let_go(rt);
        clients
    }

    /// After a scene the receipts of all clients stand in the journal.
    pub fn plays<R: Runtime>(&mut self, rt: &R, scene: &Scene) {
        let clients = self.played(rt, scene);
        self.assert_settled(rt, &clients);
        self.assert_settled(rt, from_ref(&self.keeper));
    }
}
