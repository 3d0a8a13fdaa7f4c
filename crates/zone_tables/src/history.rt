//! The journal of a zone, and whether its latest round is quiet.

ghost use Rattle.std.specs.Prelude.{◌≡◌, ◌+◌, ◌<◌, ◌≤◌, [], length, None, Some, IfOk};
ghost use Rattle.frame_core.specs.Access.{access_record};
ghost use Rattle.frame_core.specs.Journal.{unrecorded_places};
ghost use Rattle.zone_tables.specs.History.{told, told_each};
ghost use Rattle.state_core.specs.ZoneState.{keeps_quiet, is_quiet_since};

use frame_core::{Access, Journal, Record};
use state_core::RoundStart;
use std::alloc::{AllocError, Global};
use std::marker::Model;

/// The records of a zone, and how its latest round began. Each record that is noted decides whether the round is still quiet.
#[derive(Drop)]
pub struct History {
    journal: Journal,
    round: Option<RoundStart>,
    quiet: bool,
}

impl Model for History {
    ghost use Rattle.zone_tables.specs.History.{History as Seen};

    ghost Value = { Seen };

    ghost view = { λ z. record { records = z.journal.records; room = z.journal.room; round = z.round } };

    ghost use Rattle.zone_tables.specs.HistoryInside.{IsTold};

    ghost invariant = { IsTold };
}

impl History {
    /// A history with no record and no round, whose journal keeps this many records, or an error where there is no memory for
    /// them. No other call takes memory.
    pub fn open(alloc: Global, places: u32) -> Result<Self, AllocError>
        requires { places ≤ 65536 }
        ensures { IfOk result (λ history. history ≡ record { records = []; room = places; round = None }) }
    {
        let journal = Journal::open(alloc, places)?;
        Ok(Self::begun(journal))
    }

    /// A history with no record and no round, whose journal is unrecorded. No call takes memory.
    pub fn unrecorded() -> Self
        ensures { result ≡ record { records = []; room = unrecorded_places; round = None } }
    {
        Self::begun(Journal::unrecorded())
    }

    /// A history with no round, whose records are those of a journal.
    fn begun(journal: Journal) -> Self
        ensures { result ≡ record { records = journal.records; room = journal.room; round = None } }
    {
        History {
            journal,
            round: None,
            quiet: false,
        }
    }

    /// The journal with the records.
    pub fn journal(&self) -> &Journal
        ensures records { result.now.records ≡ self.now.records }
        ensures room { result.now.room ≡ self.now.room }
    {
        &self.journal
    }

    /// The number of places that are left in the journal.
    pub fn room(&self) -> u64
        ensures { result ≡ self.now.room }
    {
        self.journal.room()
    }

    /// Whether the latest round began calm and is still quiet.
    pub fn quiet(&self) -> bool
        ensures { result ≡ is_quiet_since self.now.records self.now.round }
    {
        self.quiet
    }

    /// Notes one more record.
    pub fn note(&mut self, entry: Record)
        requires { 0 < self.old.room }
        ensures { self.new ≡ told self.old entry }
    {
        self.quiet = self.quiet && keeps_quiet(&entry);
        self.journal.push(entry);
    }

    /// Notes an access to words: a record of each of these values, in the words from one on.
    pub fn note_each(&mut self, access: &Access, from: u16, values: &[u64])
        requires room { length values.now ≤ self.old.room }
        requires words { from + length values.now ≤ 65536 }
        ensures { self.new ≡ told_each (access_record access.now) self.old from values.now }
    {
        self.journal.push_each(access, from, values);
    }

    /// Notes that a round begins, calm or not.
    pub fn begin_round(&mut self, calm: bool)
        ensures { self.new ≡ record self.old { round = Some (record { records = length self.old.records; calm = calm }) } }
    {
        self.round = Some(RoundStart {
            records: self.journal.len(),
            calm,
        });
        self.quiet = calm;
    }

    /// Forgets how the latest round began, so that it isn't quiet any more.
    pub fn forget_round(&mut self)
        ensures { self.new ≡ record self.old { round = None } }
    {
        self.round = None;
        self.quiet = false;
    }
}

/// Whether the call of this record leaves a quiet round quiet.
fn keeps_quiet(entry: &Record) -> bool
    ensures { result ≡ keeps_quiet entry.now }
{
    match entry {
        Record::Load { .. }
        | Record::Store { .. }
        | Record::Isolate { .. }
        | Record::Moved { .. } => true,
        _ => false,
    }
}
