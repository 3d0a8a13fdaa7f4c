//! A call of a client under the lock of its zone, and how it waits for its page.

ghost use Rattle.std.specs.Prelude.{◌≡◌, ◌≢◌, IsTrue, IfOk, IfErr, OnOk, OnErr};
ghost use Rattle.std.specs.Result.{result_err};
ghost use Rattle.hand_core.specs.Told.{pair_of, written_if};
ghost use Rattle.state_core.specs.declared.error.ZoneError.{ZoneError};
ghost use Rattle.state_core.specs.Calls.{refusal_of, answer_of, after, answers, is_of_client, record_of};
ghost use Rattle.state_core.specs.Valid.{IsValidZone};
ghost use Rattle.client_core.specs.Calls.{IsMade, IsRefused};

use frame_core::{ClientNo, Record};
use hand_core::{Slip, write_both};
use round_core::{Keeping, KeptIn, RoomIn};
use std::sync::Wait;
use zone_core::{ClientCall, Opening, ZoneAnswer, ZoneCall, ZoneError};

/// A call of a zone that a client may make, as one of a client.
pub(crate) fn of_client(call: ZoneCall) -> ClientCall
    requires { IsTrue (is_of_client call) }
    ensures { result ≡ call }
{
    let Some(call) = ClientCall::new(call) else {
        unreachable!();
    };
    call
}

/// Makes a call under the lock of a zone. While its page is moving, it waits until a move has ended and makes the call again. An
/// accepted call gives its receipt, which is written on the client's slip too.
pub(crate) fn retry_while_moving<K: Keeping, Z: Opening, R: Wait>(
    rt: &R,
    shared: &KeptIn<K, Z>,
    slip: &mut Option<Slip>,
    client: ClientNo,
    call: ClientCall,
) -> Result<(ZoneAnswer, Record), ZoneError>
    requires allows { K.allows client (pair_of slip.old) }
    ensures made { IfOk result (λ made. IsMade call made.0) }
    ensures receipt { IfOk result (λ made. made.1 ≡ record_of call client made.0) }
    ensures slip { IfOk result (λ made. slip.new ≡ written_if made.1 slip.old) }
    ensures err { OnErr result (slip.new ≡ slip.old) }
    ensures refused { IfErr result (IsRefused (refusal_of call)) }
    ensures there { IfErr result (λ refusal. refusal ≢ ZoneError.Moving) }
{
    let mut room = shared.lock(rt);
    for _ in rt.forever() {
        match make_kept(&mut room, slip, client, call) {
            Err(ZoneError::Moving) => room = room.wait_for_end(rt),
            made => return made,
        }
    }
    unreachable!()
}

/// Makes a call while the lock of a zone is held. An accepted call gives its receipt, which is written on the client's slip too.
fn make_kept<K: Keeping, Z: Opening>(
    room: &mut RoomIn<K, Z>,
    slip: &mut Option<Slip>,
    client: ClientNo,
    call: ClientCall,
) -> Result<(ZoneAnswer, Record), ZoneError>
    requires allows { K.allows client (pair_of slip.old) }
    ensures valid { IsValidZone room.old }
    ensures refused { result_err result ≡ refusal_of call room.old }
    ensures answer { IfOk result (λ made. made.0 ≡ answer_of call room.old) }
    ensures ok { OnOk result (room.new ≡ after call client room.old) }
    ensures receipt { IfOk result (λ made. made.1 ≡ record_of call client made.0) }
    ensures slip { IfOk result (λ made. slip.new ≡ written_if made.1 slip.old) }
    ensures err { OnErr result ((room.new ≡ room.old) × (slip.new ≡ slip.old)) }
{
    let answer = room.zone.make(client, call.get())?;
    let receipt = receipt_of(call, client, &answer);
    write_both(&mut room.stub, slip, &receipt);
    Ok((answer, receipt))
}

/// The record of a call with its answer.
fn receipt_of(call: ClientCall, client: ClientNo, answer: &ZoneAnswer) -> Record
    requires { IsTrue (answers call answer.now) }
    ensures { result ≡ record_of call client answer.now }
{
    call.get().record(client, *answer)
}
