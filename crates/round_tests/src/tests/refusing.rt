use super::calls::{Answer, Call, client_of};
use super::opening::{Opened, Shared};
use super::{Trial, tries};
use client_core::Client;
use round_core::ZoneIdentity;
use std::process::Abort;
use std::slice::from_ref;
use std::sync::Wait;
use zone_core::{Opening, ZoneError};

/// Calls with their answers, that are made so many times.
pub struct Table {
    times: u32,
    calls: &'static [(Call, Answer)],
}

const TABLES: [Table; 4] = [
    // Each call at an address that names no page, and then at one that does.
    Table {
        times: 1,
        calls: &[
            (Call::Load(0, 7), Answer::Refused(ZoneError::Unmapped)),
            (Call::Store(0, 7, 5), Answer::Refused(ZoneError::Unmapped)),
            (Call::Read(0, 0), Answer::Refused(ZoneError::Unmapped)),
            (Call::Write(0, 0, 5), Answer::Refused(ZoneError::Unmapped)),
            (Call::Share(0, 1), Answer::Refused(ZoneError::Unmapped)),
            (Call::Unmap(0), Answer::Refused(ZoneError::Unmapped)),
            (Call::Pin(0), Answer::Refused(ZoneError::Unmapped)),
            (Call::Unpin(0), Answer::Refused(ZoneError::Unmapped)),
            (Call::MapUnmovable(0), Answer::Frame(0)),
            (Call::MapUnmovable(0), Answer::Refused(ZoneError::Occupied)),
            (Call::MapAt(0, 9), Answer::Refused(ZoneError::Occupied)),
            (Call::MapAt(1, 0), Answer::Refused(ZoneError::NoFrame)),
            (Call::MapAt(1, 512), Answer::Refused(ZoneError::Range)),
            (Call::Read(0, 1), Answer::Refused(ZoneError::Range)),
            (Call::Write(0, 1, 5), Answer::Refused(ZoneError::Range)),
            (Call::Store(0, 7, 5), Answer::Done),
            (Call::Load(0, 7), Answer::Value(5)),
        ],
    },
    // A page has as many addresses as it can, and all but one are taken off.
    Table {
        times: 1,
        calls: &[
            (Call::Share(0, 1), Answer::Done),
            (Call::Share(0, 1), Answer::Refused(ZoneError::Occupied)),
            (Call::Share(1, 2), Answer::Done),
            (Call::Share(1, 3), Answer::Done),
            (Call::Share(1, 4), Answer::Refused(ZoneError::ShareFull)),
            (Call::Load(3, 7), Answer::Value(5)),
            (Call::Unmap(1), Answer::Done),
            (Call::Unmap(2), Answer::Done),
            (Call::Unmap(3), Answer::Done),
            (Call::Unpin(0), Answer::Refused(ZoneError::NotPinned)),
        ],
    },
    // A page is pinned as often as can be.
    Table {
        times: 255,
        calls: &[(Call::Pin(0), Answer::Done)],
    },
    Table {
        times: 1,
        calls: &[
            (Call::Pin(0), Answer::Refused(ZoneError::PinFull)),
            (Call::Unmap(0), Answer::Refused(ZoneError::Pinned)),
            (Call::Unpin(0), Answer::Done),
        ],
    },
];

const WITHOUT_ROOM: Table = Table {
    times: 1,
    calls: &[
        (Call::MapUnmovable(0), Answer::Frame(0)),
        (
            Call::MapUnmovable(1),
            Answer::Refused(ZoneError::JournalFull),
        ),
        (Call::MapAt(1, 1), Answer::Refused(ZoneError::JournalFull)),
        (Call::Share(0, 1), Answer::Refused(ZoneError::JournalFull)),
        (Call::Unmap(0), Answer::Refused(ZoneError::JournalFull)),
        (Call::Load(0, 7), Answer::Refused(ZoneError::JournalFull)),
        (
            Call::Store(0, 7, 5),
            Answer::Refused(ZoneError::JournalFull),
        ),
        (Call::Read(0, 0), Answer::Refused(ZoneError::JournalFull)),
        (
            Call::Write(0, 0, 5),
            Answer::Refused(ZoneError::JournalFull),
        ),
        (Call::Pin(0), Answer::Refused(ZoneError::JournalFull)),
        (Call::Unpin(0), Answer::Refused(ZoneError::JournalFull)),
    ],
};

impl<Z: Opening + ZoneIdentity + Send + Sync> Shared<Z> {
    fn play_table<R: Wait + Abort>(&self, rt: &R, client: &mut Client, table: &Table) {
        for _ in 0..table.times {
            self.play(rt, client, table.calls);
        }
    }
}

impl<Z: Opening + ZoneIdentity + Send + Sync> Opened<Z> {
    /// Makes the calls of tables. The client has a receipt for each that is accepted, which so many are, and each stands in the journal.
    pub fn refuses<R: Wait + Abort + AllocGlobal>(
        &mut self,
        rt: &R,
        tables: &[Table],
        accepted: usize,
    ) {
        let mut client = client_of(rt, 5);
        for table in tables {
            self.shared.play_table(rt, &mut client, table);
        }
        assert!(rt; client.number().get() == 5 && client.receipts().len() == accepted);
        self.assert_settled(rt, from_ref(&client));
    }
}

#[test]
fn each_refusal_is_the_zones(rt: HostRuntime) {
    tries(&rt, 1, Some(65536), Trial::Refuses(&TABLES, 266));
    tries(&rt, 1, Some(1), Trial::Refuses(&[WITHOUT_ROOM], 1));
}
