use super::calls::{Answer, Call, client_number, client_of};
use super::opening::Opened;
use super::{Trial, tries};
use client_core::{Client, Mismatch, Unsettled};
use round_core::ZoneIdentity;
use std::process::Abort;
use std::sync::Wait;
use zone_core::Opening;

impl<Z: Opening + ZoneIdentity + Send + Sync> Opened<Z> {
    /// Two clients that take turns.
    fn take_turns<R: Wait + Abort + AllocGlobal>(&mut self, rt: &R) -> [Client; 2] {
        let mut second = client_of(rt, 2);
        self.keeps(rt, &[(Call::MapUnmovable(0), Answer::Frame(0))]);
        let table = [
            (Call::Store(0, 3, 8), Answer::Done),
            (Call::Pin(0), Answer::Done),
            (Call::Pin(0), Answer::Done),
        ];
        self.shared.play(rt, &mut second, &table);
        self.keeps(rt, &[(Call::Load(0, 3), Answer::Value(8))]);
        [self.keeper.try_clone().expect(rt, "memory"), second]
    }

    /// A client under the number of another, which unpins the page.
    fn unpinned_by_a_second<R: Wait + Abort + AllocGlobal>(&mut self, rt: &R) -> Client {
        let mut late = client_of(rt, 2);
        self.shared
            .play(rt, &mut late, &[(Call::Unpin(0), Answer::Done)]);
        late
    }

    /// The clients agree until another client makes a call under the number of one of them.
    pub fn settles<R: Wait + Abort + AllocGlobal>(&mut self, rt: &R) {
        self.assert_settled(rt, &[]);
        let clients = self.take_turns(rt);
        self.assert_settled(rt, &clients);
        self.assert_mismatch(rt, &[client_of(rt, 3), client_of(rt, 0)], 0, 0);
        let late = self.unpinned_by_a_second(rt);
        self.assert_mismatch(rt, &[late], 2, 0);
        self.assert_mismatch(rt, &clients, 2, 3);
    }

    /// The first client that differs from the journal, and the first of its receipts that does.
    fn assert_mismatch<R: Wait + Abort>(
        &self,
        rt: &R,
        clients: &[Client],
        number: u32,
        index: usize,
    ) {
        let client = client_number(rt, number);
        let mismatch = Unsettled::Mismatch(Mismatch { client, index });
        assert!(rt; self.settled(rt, clients) == Err(mismatch));
    }

    /// Where the same calls were made as in another zone, but for the last, the receipts of the other zone are refused.
    pub fn refuses_receipts<R: Wait + Abort>(&mut self, rt: &R, others: &[Client]) {
        self.assert_mismatch(rt, others, 0, 0);
        self.keeps(rt, &[(Call::MapUnmovable(0), Answer::Frame(0))]);
        self.assert_mismatch(rt, others, 0, 1);
    }
}

#[test]
fn settling_names_the_first_that_differs(rt: HostRuntime) {
    tries(&rt, 1, Some(99), Trial::Settles);
}

#[test]
fn receipts_of_another_zone_are_refused(rt: HostRuntime) {
    let clients = [tries(&rt, 1, Some(99), Trial::Settles)];
    tries(&rt, 1, Some(99), Trial::RefusesReceipts(&clients));
}
