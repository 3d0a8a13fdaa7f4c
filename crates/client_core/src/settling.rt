ghost use Rattle.std.specs.Prelude.{◌≡◌, ◌↔◌, Some, slice_get, IsTrue, IsOk, IfErr, IfNone, IfSome, All};
ghost use Rattle.std.specs.List.{filter};
ghost use Rattle.round_core.specs.Calls.{is_of};
ghost use Rattle.client_core.specs.Receipts.{Agrees};
ghost use Rattle.client_core.specs.Settling.{HasKeptJournal, IsFirstDifference, IsUnsettled};
ghost use Rattle.client_core.specs.Errors.{number_of_unsettled};

use crate::client::Client;
use frame_core::{ClientNo, Record};
use thiserror::Error;
use zone_core::{Opening, ZoneIn};

/// The first client whose receipts aren't its records in the journal, and the first index at which the two lists differ or
/// only one of them has ended.
#[derive(Clone, Copy, Debug, PartialEq, Eq, Error)]
#[error("the receipts of a client and its records differ")]
pub struct Mismatch {
    pub client: ClientNo,
    pub index: usize,
}

impl Mismatch {
    /// The number of this error, 35.
    pub fn number(&self) -> u16
        ensures { result ≡ 35 }
    {
        35
    }
}

/// Why clients aren't settled with a zone.
#[derive(Clone, Copy, Debug, PartialEq, Eq, Error)]
pub enum Unsettled {
    #[error("the journal of the zone is not kept")]
    NotKept,
    #[error("{0}")]
    Mismatch(Mismatch),
}

impl Unsettled {
    /// The number of the error: 36 for NotKept, or that of the mismatch.
    pub fn number(&self) -> u16
        ensures { result ≡ number_of_unsettled self.now }
    {
        match self {
            Unsettled::NotKept => 36,
            Unsettled::Mismatch(mismatch) => mismatch.number(),
        }
    }
}

/// Whether a record is of a call of this client.
fn is_of(client: ClientNo, entry: &Record) -> bool
    ensures { result ≡ is_of client entry.now }
{
    match entry {
        Record::Map { client: by, .. }
        | Record::Share { client: by, .. }
        | Record::Unmap { client: by, .. }
        | Record::Store { client: by, .. }
        | Record::Load { client: by, .. }
        | Record::Pin { client: by, .. }
        | Record::Unpin { client: by, .. } => *by == client,
        _ => false,
    }
}

/// Whether two records are the same.
fn is_same(entry: &Record, other: &Record) -> bool
    ensures { IsTrue result ↔ (entry.now ≡ other.now) }
{
    *entry == *other
}

/// Whether a list has this record at an index.
fn has_at(list: &[Record], index: usize, entry: &Record) -> bool
    ensures { IsTrue result ↔ (slice_get list.now index ≡ Some entry.now) }
{
    list.get(index).is_some_and(|found| is_same(found, entry))
}

/// The first index at which the records of a client and its receipts differ, or at which only one of the two lists has
/// ended; none where they are the same. The records of all clients are given, the oldest first.
fn first_difference(records: &[Record], client: &Client) -> Option<usize>
    ensures none { IfNone result (filter (is_of client.now.number) records.now ≡ client.now.receipts) }
    ensures some { IfSome result (IsFirstDifference (filter (is_of client.now.number) records.now) client.now.receipts) }
{
    let receipts = client.receipts();
    let mut next = 0;
    for entry in records {
        if is_of(client.number(), entry) {
            if !has_at(receipts, next, entry) {
                return Some(next);
            }
            next += 1;
        }
    }
    if next < receipts.len() {
        Some(next)
    } else {
        None
    }
}

/// Compares the receipts of each client with its records in the zone's journal: both have to be the same, in the same order. It
/// takes no memory, and walks over the journal once for each client. A journal that is unrecorded can't be compared with anything.
///
/// Refused as NotKept where the journal is unrecorded, else as the first mismatch.
pub fn settle_clients<Z: Opening>(zone: &ZoneIn<Z>, clients: &[Client]) -> Result<(), Unsettled>
    ensures ok { IsOk result ↔ (HasKeptJournal zone.now × All (Agrees zone.now.records) clients.now) }
    ensures refused { IfErr result (IsUnsettled zone.now clients.now) }
{
    let Some(records) = zone.journal().kept() else {
        return Err(Unsettled::NotKept);
    };
    for client in clients {
        if let Some(index) = first_difference(records, client) {
            return Err(Unsettled::Mismatch(Mismatch {
                client: client.number(),
                index,
            }));
        }
    }
    Ok(())
}
