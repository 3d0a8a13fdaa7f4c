//! Where the receipts of a client go.

ghost use Rattle.std.specs.Prelude.{◌≡◌, ℕ, ◌+◌, ◌≤◌, List, [], ◌∷◌, ◌++◌, length, reverse, vec_len, vec_capacity, ⊤, OnOk, OnErr};
ghost use Rattle.frame_core.specs.declared.record.Record.{Record};
ghost use Rattle.frame_core.specs.Access.{access_record};
ghost use Rattle.client_core.specs.Bulk.{records_each};

use frame_core::{Access, GhostList, Record};
use std::alloc::AllocError;

/// Where the receipts of a client go: into a list that is kept, or into one that exists in the proofs alone. Contracts see the same
/// receipts in both.
pub trait Receipts: Drop {
    /// The receipts, the oldest first.
    ghost items: { Self → List Record };

    /// There is room for so many receipts more.
    ghost has_room: { Self → ℕ → Type 0 };

    /// Memory is taken for receipts.
    ghost takes_memory: { Type 0 };

    /// Makes room for so many receipts more, or fails where there is no memory for them.
    fn make_room(&mut self, more: usize) -> Result<(), AllocError>
        ensures memory { OnErr result takes_memory }
        ensures room { OnOk result (has_room self.new more) }
        ensures same { items self.new ≡ items self.old };

    /// Adds a receipt. There has to be room.
    fn add(&mut self, receipt: Record)
        requires { has_room self.old 1 }
        ensures { items self.new ≡ items self.old ++ receipt ∷ [] };

    /// Adds the records of an access to the words from one on, with these values. There has to be room for each.
    fn add_each(&mut self, access: &Access, from: u16, values: &[u64])
        requires room { has_room self.old (length values.now) }
        requires words { from + length values.now ≤ 65536 }
        ensures { items self.new ≡ items self.old ++ records_each (access_record access.now) from values.now };
}

// The receipts are kept.
impl Receipts for Vec<Record> {
    ghost items = { λ receipts. receipts.items };

    ghost has_room = { λ receipts more. vec_len receipts + more ≤ vec_capacity receipts };

    ghost takes_memory = { ⊤ };

    fn make_room(&mut self, more: usize) -> Result<(), AllocError> {
        self.reserve(more)
    }

    fn add(&mut self, receipt: Record) {
        self.push_reserved(receipt);
    }

    fn add_each(&mut self, access: &Access, from: u16, values: &[u64]) {
        for offset in 0..values.len() {
            self.push_reserved(access.record(from + offset as u16, values[offset]));
        }
    }
}

// The receipts are unrecorded: no memory has them.
impl Receipts for GhostList<Record> {
    ghost items = { λ receipts. reverse receipts };

    ghost has_room = { λ receipts more. ⊤ };

    ghost takes_memory = { ⊥ };

    fn make_room(&mut self, _more: usize) -> Result<(), AllocError> {
        Ok(())
    }

    fn add(&mut self, receipt: Record) {
        self.push(&receipt);
    }

    fn add_each(&mut self, access: &Access, from: u16, values: &[u64]) {
        for offset in 0..values.len() {
            self.push(&access.record(from + offset as u16, values[offset]));
        }
    }
}
