//! Reading and writing several words of a page in one call of a client.

ghost use Rattle.std.specs.Prelude.{◌≡◌, ◌≢◌, ℕ, ◌+◌, ◌≤◌, List, ◌++◌, length, IfOk, IfErr, OnOk, OnErr};
ghost use Rattle.std.specs.Result.{result_err};
ghost use Rattle.frame_core.specs.Access.{access_record};
ghost use Rattle.frame_core.specs.declared.access.Access.{Access};
ghost use Rattle.frame_core.specs.declared.access.AccessKind.TheVariants as kind;
ghost use Rattle.frame_core.specs.declared.record.Record.TheVariants.{Load, Store};
ghost use Rattle.hand_core.specs.Told.{pair_of};
ghost use Rattle.state_core.specs.declared.error.ZoneError.{ZoneError};
ghost use Rattle.state_core.specs.Bulk.{bulk_refusal, stored_all};
ghost use Rattle.state_core.specs.Valid.{IsValidZone};
ghost use Rattle.state_core.specs.ZoneState.{ZoneState};
ghost use Rattle.zone_core.specs.ZoneIdentity.{HasIdentity};
ghost use Rattle.client_core.specs.Bulk.{AreCalls, reading, records_each, written_all};
ghost use Rattle.client_core.specs.Calls.{IsAccepted, IsFailed, IsRefused, leaving};
ghost use Rattle.client_core.specs.Receipts.{with_receipts};

use crate::client::Client;
use crate::error::ClientError;
use crate::receipts::Receipts;
use crate::telling::Telling;
use frame_core::{Access, AccessKind, Address, ClientNo, WordNo};
use hand_core::{Slip, Stub, write_both};
use round_core::{Keeping, KeptIn, RoomIn};
use std::sync::Wait;
use zone_core::{Opening, ZoneError, ZoneIn};

impl<J: Telling, T: Receipts> Client<J, T> {
    /// Reads words of the page that an address names, from one on, into `values`, in one call. It has a receipt for each word, as
    /// loads of these words have, one after the other.
    ///
    /// The zone refuses as Range where the words go past the page, as JournalFull where the journal has no place for each of them,
    /// or as Unmapped.
    pub fn read<K: Keeping, Z: Opening, R: Wait>(
        &mut self,
        rt: &R,
        shared: &KeptIn<K, Z>,
        address: Address,
        from: WordNo,
        values: &mut [u64],
    ) -> Result<(), ClientError>
        requires allows { K.allows self.old.number J.pair }
        ensures ok { OnOk result (self.new ≡ with_receipts self.old (records_each (Load self.old.number address) from values.new)) }
        ensures accepted { OnOk result (IsAccepted (λ zone. bulk_refusal zone address from (length values.old)) (reading self.old.number address from (length values.old)) values.new) }
        ensures err { OnErr result ((self.new ≡ self.old) × (values.new ≡ values.old)) }
        ensures refused { IfErr result (IsFailed T.takes_memory (λ zone. bulk_refusal zone address from (length values.old))) }
        ensures there { IfErr result (λ error. error ≢ ClientError.Zone ZoneError.Moving) }
    {
        self.receipts.make_room(values.len())?;
        let call = Read {
            client: self.number,
            address,
            from,
        };
        retry_bulk_while_moving(
            rt,
            shared,
            &call,
            values,
            &mut self.slip,
            &mut self.receipts,
        )?;
        Ok(())
    }

    /// Writes words of the page that an address names, from one on, in one call. It has a receipt for each word, as stores of these
    /// values have, one after the other.
    ///
    /// The zone refuses as Range where the words go past the page, as JournalFull where the journal has no place for each of them,
    /// or as Unmapped.
    pub fn write<K: Keeping, Z: Opening, R: Wait>(
        &mut self,
        rt: &R,
        shared: &KeptIn<K, Z>,
        address: Address,
        from: WordNo,
        values: &[u64],
    ) -> Result<(), ClientError>
        requires allows { K.allows self.old.number J.pair }
        ensures ok { OnOk result (self.new ≡ with_receipts self.old (records_each (Store self.old.number address) from values.now)) }
        ensures accepted { IfOk result (IsAccepted (λ zone. bulk_refusal zone address from (length values.now)) (leaving (λ zone. stored_all zone self.old.number address from values.now))) }
        ensures err { OnErr result (self.new ≡ self.old) }
        ensures refused { IfErr result (IsFailed T.takes_memory (λ zone. bulk_refusal zone address from (length values.now))) }
        ensures there { IfErr result (λ error. error ≢ ClientError.Zone ZoneError.Moving) }
    {
        self.receipts.make_room(values.len())?;
        let call = Write {
            client: self.number,
            address,
            from,
            values,
        };
        retry_bulk_while_moving(
            rt,
            shared,
            &call,
            &mut [],
            &mut self.slip,
            &mut self.receipts,
        )?;
        Ok(())
    }
}

/// A call of a client that accesses words of a page, from one on, and may be made of any zone.
trait Bulk {
    ghost access: { Self → Access };

    ghost from: { Self → ℕ };

    /// The values of the words that the call accesses, where these are the words that it reads.
    ghost values: { Self → List ℕ → List ℕ };

    /// What a zone that accepts the call makes of the words, and what the zone is afterwards.
    ghost leaves: { Self → List ℕ → ZoneState → List ℕ → ZoneState → Type 0 };

    /// How the words are accessed.
    fn access(&self) -> Access
        ensures { result ≡ access self.now };

    /// The first of the words.
    fn from(&self) -> u16
        ensures { result ≡ from self.now };

    /// The values of the words, where these are the words that were read.
    fn values<'a>(&'a self, words: &'a [u64]) -> &'a [u64]
        ensures { result.now ≡ values self.now words.now };

    /// Makes the call, and puts what it reads into `words`.
    fn make<Z: Opening>(&self, zone: &mut ZoneIn<Z>, words: &mut [u64]) -> Result<(), ZoneError>
        requires valid { IsValidZone zone.old }
        ensures refused { result_err result ≡ bulk_refusal zone.old (access self.now).address (from self.now) (length (values self.now words.old)) }
        ensures err { OnErr result ((zone.new ≡ zone.old) × (words.new ≡ words.old)) }
        ensures accepted { OnOk result (leaves self.now words.old zone.old words.new zone.new) }
        ensures calls { OnOk result (AreCalls (access self.now).client (records_each (access_record (access self.now)) (from self.now) (values self.now words.new)) zone.old zone.new) }
        ensures within { OnOk result (from self.now + length (values self.now words.new) ≤ 65536) }
        ensures count { OnOk result (length (values self.now words.new) ≡ length (values self.now words.old)) }
        ensures identity { HasIdentity zone.old.number zone.old.blocks zone.new }
        ensures valid { IsValidZone zone.new };
}

#[derive(Clone, Copy)]
struct Read {
    client: ClientNo,
    address: Address,
    from: WordNo,
}

impl Bulk for Read {
    ghost access = { λ call. record { kind = kind.Load; client = call.client; address = call.address } };

    ghost from = { λ call. call.from };

    ghost values = { λ call words. words };

    ghost leaves = { λ call words. reading call.client call.address call.from (length words) };

    fn access(&self) -> Access {
        Access {
            kind: AccessKind::Load,
            client: self.client,
            address: self.address,
        }
    }

    fn from(&self) -> u16 {
        self.from.noted()
    }

    fn values<'a>(&'a self, words: &'a [u64]) -> &'a [u64] {
        words
    }

    fn make<Z: Opening>(&self, zone: &mut ZoneIn<Z>, words: &mut [u64]) -> Result<(), ZoneError> {
        zone.read(self.client, self.address, self.from, words)
    }
}

#[derive(Clone, Copy)]
struct Write<'w> {
    client: ClientNo,
    address: Address,
    from: WordNo,
    values: &'w [u64],
}

impl Bulk for Write<'_> {
    ghost access = { λ call. record { kind = kind.Store; client = call.client; address = call.address } };

    ghost from = { λ call. call.from };

    ghost values = { λ call words. call.values.now };

    ghost leaves = { λ call words zone words_new zone_new. zone_new ≡ stored_all zone call.client call.address call.from call.values.now };

    fn access(&self) -> Access {
        Access {
            kind: AccessKind::Store,
            client: self.client,
            address: self.address,
        }
    }

    fn from(&self) -> u16 {
        self.from.noted()
    }

    fn values<'a>(&'a self, _words: &'a [u64]) -> &'a [u64] {
        self.values
    }

    fn make<Z: Opening>(&self, zone: &mut ZoneIn<Z>, _words: &mut [u64]) -> Result<(), ZoneError> {
        zone.write(self.client, self.address, self.from, self.values)
    }
}

/// Makes a call under the lock of a zone. While its page is moving, it waits until a move has ended and makes the call again. The
/// receipts of an accepted call are added, and written on the client's slip too.
fn retry_bulk_while_moving<C: Bulk, T: Receipts, K: Keeping, Z: Opening, R: Wait>(
    rt: &R,
    shared: &KeptIn<K, Z>,
    call: &C,
    words: &mut [u64],
    slip: &mut Option<Slip>,
    receipts: &mut T,
) -> Result<(), ZoneError>
    requires allows { K.allows (C.access call.now).client (pair_of slip.old) }
    requires places { T.has_room receipts.old (length (C.values call.now words.old)) }
    ensures accepted { OnOk result (IsAccepted (λ zone. bulk_refusal zone (C.access call.now).address (C.from call.now) (length (C.values call.now words.old))) (C.leaves call.now words.old) words.new) }
    ensures receipts { OnOk result (T.items receipts.new ≡ T.items receipts.old ++ records_each (access_record (C.access call.now)) (C.from call.now) (C.values call.now words.new)) }
    ensures slip { OnOk result (slip.new ≡ written_all (records_each (access_record (C.access call.now)) (C.from call.now) (C.values call.now words.new)) slip.old) }
    ensures err { OnErr result ((words.new ≡ words.old) × (slip.new ≡ slip.old) × (T.items receipts.new ≡ T.items receipts.old)) }
    ensures refused { IfErr result (IsRefused (λ zone. bulk_refusal zone (C.access call.now).address (C.from call.now) (length (C.values call.now words.old)))) }
    ensures there { IfErr result (λ refusal. refusal ≢ ZoneError.Moving) }
{
    let mut room = shared.lock(rt);
    for _ in rt.forever() {
        match make_bulk_kept::<C, T, K, Z>(call, &mut room, words, slip, receipts) {
            Err(ZoneError::Moving) => room = room.wait_for_end(rt),
            answer => return answer,
        }
    }
    unreachable!()
}

/// Makes a call while the lock of a zone is held. The receipts of an accepted call are added, and written on the client's slip too.
fn make_bulk_kept<C: Bulk, T: Receipts, K: Keeping, Z: Opening>(
    call: &C,
    room: &mut RoomIn<K, Z>,
    words: &mut [u64],
    slip: &mut Option<Slip>,
    receipts: &mut T,
) -> Result<(), ZoneError>
    requires allows { K.allows (C.access call.now).client (pair_of slip.old) }
    requires places { T.has_room receipts.old (length (C.values call.now words.old)) }
    ensures valid { IsValidZone room.old }
    ensures refused { result_err result ≡ bulk_refusal room.old (C.access call.now).address (C.from call.now) (length (C.values call.now words.old)) }
    ensures accepted { OnOk result (C.leaves call.now words.old room.old words.new room.new) }
    ensures receipts { OnOk result (T.items receipts.new ≡ T.items receipts.old ++ records_each (access_record (C.access call.now)) (C.from call.now) (C.values call.now words.new)) }
    ensures slip { OnOk result (slip.new ≡ written_all (records_each (access_record (C.access call.now)) (C.from call.now) (C.values call.now words.new)) slip.old) }
    ensures err { OnErr result ((words.new ≡ words.old) × (slip.new ≡ slip.old) × (receipts.new ≡ receipts.old)) }
{
    call.make(&mut room.zone, words)?;
    let (access, from, values) = (call.access(), call.from(), call.values(words));
    write_each(&access, from, values, &mut room.stub, slip);
    receipts.add_each(&access, from, values);
    Ok(())
}

/// Writes the records of an access to the words from one on, with these values, on both halves of a pair, where there is one.
fn write_each(
    access: &Access,
    from: u16,
    values: &[u64],
    stub: &mut Option<Stub>,
    slip: &mut Option<Slip>,
)
    requires words { from + length values.now ≤ 65536 }
    requires pair { pair_of slip.old ≡ pair_of stub.old }
    ensures stub { stub.new ≡ written_all (records_each (access_record access.now) from values.now) stub.old }
    ensures slip { slip.new ≡ written_all (records_each (access_record access.now) from values.now) slip.old }
{
    if stub.is_none() {
        return;
    }
    for offset in 0..values.len() {
        let receipt = access.record(from + offset as u16, values[offset]);
        write_both(stub, slip, &receipt);
    }
}
