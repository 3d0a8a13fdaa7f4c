use super::beside::Scene;
use super::calls::{Answer, Call, client_number};
use super::jobs::Job;
use super::opening::{Opened, Shared};
use super::scenes::TWO_PAGES;
use super::{Runtime, Trial, tries};
use client_core::{Client, Unsettled};
use round_core::ZoneIdentity;
use std::process::Abort;
use std::sync::Wait;
use zone_core::Opening;

/// A round moves 16 pages beside a client whose receipts are unrecorded.
const UNRECORDED: Scene = Scene {
    pages: 16,
    jobs: &[Job::UsesPagesUnrecorded(16)],
    counts: (16, 16, 0),
    ..TWO_PAGES
};

impl<Z: Opening + ZoneIdentity + Send + Sync> Shared<Z> {
    /// A client whose receipts are unrecorded stores to each of so many pages and loads what was stored, and does so with all words of
    /// the page, 50 times.
    pub fn use_pages_unrecorded<R: Wait + Abort>(&self, rt: &R, pages: u32) {
        let mut client = Client::unrecorded(client_number(rt, 1));
        for value in 0..50 {
            for at in 0..pages {
                let table = [
                    (Call::Store(at, 3, value), Answer::Done),
                    (Call::Load(at, 3), Answer::Value(value)),
                    (Call::Write(at, 0, value), Answer::Done),
                    (Call::Read(at, 0), Answer::Values([value; 8])),
                ];
                self.play(rt, &mut client, &table);
            }
        }
    }
}

impl<Z: Opening + ZoneIdentity + Send + Sync> Opened<Z> {
    /// A zone whose journal is unrecorded is used by a client whose receipts are unrecorded, while a round moves its pages. There is
    /// nothing to settle.
    pub fn is_unrecorded<R: Runtime>(&mut self, rt: &R) {
        self.played(rt, &UNRECORDED);
        // Each page was mapped and moved, and each word of a call in bulk has its record.
        let (_info, records) = self.told(rt);
        assert!(rt; records == 16 * (1 + 2 + 50 * (1 + 1 + 8 + 8)));
        self.assert_not_kept(rt);
    }

    fn assert_not_kept<R: Wait + Abort>(&self, rt: &R) {
        assert!(rt; self.shared.zone.lock(rt).zone().journal().kept().is_none());
        assert!(rt; self.settled(rt, &[]) == Err(Unsettled::NotKept));
    }
}

#[test]
fn an_unrecorded_client_finds_what_it_stored_in_an_unrecorded_zone(rt: HostRuntime) {
    tries(&rt, 1, None, Trial::IsUnrecorded);
}
