ghost use Rattle.std.specs.Prelude.{◌≡◌, ◌+◌, ◌<◌, ◌≤◌, [], ◌∷◌, length, reverse, IfOk, IfSome, IsSome, IsTrue, ◌↔◌};
ghost use Rattle.frame_core.specs.Journal.{unrecorded_places};
ghost use Rattle.frame_core.specs.Access.{access_record, with_each};

use crate::access::Access;
use crate::fixed_vec::FixedVec;
use crate::ghost_list::GhostList;
use crate::record::Record;
use std::alloc::{AllocError, Global};
use std::marker::Model;

/// Records in the order in which they were appended.
///
/// A journal is opened in one of two kinds. One that is kept has memory for all its records, which is taken once, when it is opened.
/// One that is unrecorded keeps the number of them alone: the records exist in the proofs alone, so it has room for 2^53, more than a
/// machine makes in a hundred years.
#[derive(Drop)]
pub struct Journal {
    /// All records, the newest first, for the proofs alone.
    records: GhostList<Record>,
    /// The records, the oldest first, where they are kept.
    kept: Option<FixedVec<Record>>,
    count: u64,
    places: u64,
}

impl Model for Journal {
    ghost use Rattle.std.specs.Prelude.{◌-◌};
    ghost use Rattle.frame_core.specs.Journal.{Journal as Seen};

    ghost Value = { Seen };

    ghost view = { λ j. record { records = j.records; room = j.places - j.count } };

    ghost use Rattle.frame_core.specs.JournalInside.{IsInOrder};

    ghost invariant = { IsInOrder };
}

impl Journal {
    /// An empty journal with this many places, whose records are kept, or an error where there is no memory for them. No later call
    /// takes memory.
    pub fn open(alloc: Global, places: u32) -> Result<Journal, AllocError>
        requires { places ≤ 65536 }
        ensures { IfOk result (λ j. j ≡ record { records = []; room = places }) }
    {
        let kept = FixedVec::with_room(alloc, places as usize)?;
        Ok(Journal {
            records: GhostList::new(),
            kept: Some(kept),
            count: 0,
            places: u64::from(places),
        })
    }

    /// An empty journal with room for 2^53 records, which is unrecorded. Neither this nor a later call takes memory.
    pub fn unrecorded() -> Journal
        ensures { result ≡ record { records = []; room = unrecorded_places } }
    {
        Journal {
            records: GhostList::new(),
            kept: None,
            count: 0,
            places: 1 << 53,
        }
    }

    /// The number of records.
    pub fn len(&self) -> u64
        ensures { result ≡ length self.now.records }
    {
        self.count
    }

    /// Whether it has no record.
    pub fn is_empty(&self) -> bool
        ensures { IsTrue result ↔ (self.now.records ≡ []) }
    {
        self.count == 0
    }

    /// The number of places that are left for records.
    pub fn room(&self) -> u64
        ensures { result ≡ self.now.room }
    {
        self.places - self.count
    }

    /// The records, the oldest first, where they are kept. A journal of at most 65,536 places keeps them.
    pub fn kept(&self) -> Option<&[Record]>
        ensures records { IfSome result (λ records. records.now ≡ reverse self.now.records) }
        ensures some { IsSome result ↔ (length self.now.records + self.now.room ≤ 65536) }
    {
        match &self.kept {
            Some(records) => Some(records),
            None => None,
        }
    }

    /// Appends a record, and takes no memory. There has to be a place left.
    pub fn push(&mut self, entry: Record)
        requires { 0 < self.old.room }
        ensures records { self.new.records ≡ entry ∷ self.old.records }
        ensures room { self.new.room + 1 ≡ self.old.room }
    {
        self.records.push(&entry);
        self.count += 1;
        if let Some(records) = &mut self.kept {
            records.push(entry);
        }
    }

    /// Appends a record of each of these values, of an access to the words from one on, and takes no memory. There has to be a
    /// place for each. A journal that is unrecorded does nothing for each of them.
    pub fn push_each(&mut self, access: &Access, from: u16, values: &[u64])
        requires room { length values.now ≤ self.old.room }
        requires words { from + length values.now ≤ 65536 }
        ensures records { self.new.records ≡ with_each (access_record access.now) from values.now self.old.records }
        ensures room { self.new.room + length values.now ≡ self.old.room }
    {
        if self.kept.is_some() {
            self.keep_each(access, from, values);
        } else {
            push_all(&mut self.records, access, from, values);
            self.count += values.len() as u64;
        }
    }

    /// Appends the records one after the other.
    fn keep_each(&mut self, access: &Access, from: u16, values: &[u64])
        requires room { length values.now ≤ self.old.room }
        requires words { from + length values.now ≤ 65536 }
        ensures records { self.new.records ≡ with_each (access_record access.now) from values.now self.old.records }
        ensures room { self.new.room + length values.now ≡ self.old.room }
    {
        for offset in 0..values.len() {
            self.push(access.record(from + offset as u16, values[offset]));
        }
    }
}

/// Puts the records of an access to these words at the front of a list.
fn push_all(records: &mut GhostList<Record>, access: &Access, from: u16, values: &[u64])
    requires words { from + length values.now ≤ 65536 }
    ensures { records.new ≡ with_each (access_record access.now) from values.now records.old }
{
    for offset in 0..values.len() {
        records.push(&access.record(from + offset as u16, values[offset]));
    }
}
