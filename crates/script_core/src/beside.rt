//! A round during which a client makes calls.

ghost use Rattle.std.specs.Prelude.{◌≡◌, [], Some, IfSome};
ghost use Rattle.client_core.specs.Receipts.{AreSince, IsToldBeside};
ghost use Rattle.hand_core.specs.Told.{pair_of};
ghost use Rattle.round_core.specs.Calls.{IsAddedBeside};
ghost use Rattle.round_core.specs.Kept.{LockInvariant};
ghost use Rattle.round_core.specs.Runs.{IsLentBack};
ghost use Rattle.zone_core.specs.ZoneIdentity.{HasIdentity};
ghost use Rattle.script_core.specs.Clients.{AreClientAnswers, HasRoomForAnswers, IsClientReply, MayPlay, RunsBeside};

use client_core::{Client, NoSlip, Telling};
use hand_core::{Slip, Stub};
use machine_core::{Options, Refusal, reply_for};
use round_core::{Keeping, KeptIn, NoGate, Round, RoundError, compact};
use std::alloc::Global;
use std::marker::Brand;
use std::snapshot::Snapshot;
use std::sync::Wait;
use std::thread;
use std::thread::{Promise, Scope, Threads};
use text_core::{Answer, ClientLine, Reply};
use zone_core::{ClientCall, Opening, SeatsIn, ZoneIn};

/// A client with the lines whose calls it makes, and an empty list with room for their answers.
#[derive(Drop)]
pub(crate) struct ClientTurn<J: Telling = NoSlip> {
    pub(crate) client: Client<J>,
    pub(crate) lines: Vec<ClientLine>,
    pub(crate) answers: Vec<Answer>,
}

/// The client after its calls, the answers to its lines, and what the round came to.
#[derive(Drop)]
pub(crate) struct ClientAndRound<J: Telling = NoSlip> {
    pub(crate) client: Client<J>,
    pub(crate) answers: Vec<Answer>,
    pub(crate) round: Result<Round, RoundError>,
}

/// Runs one round over a zone while one client makes calls of it, and hands the zone back. The client's receipts are written on a
/// stub and a slip, which are a new pair. None where the client's thread can't be started: then nothing ran.
pub(crate) fn compact_beside<Z: Opening + Send + Sync, R: Threads + Wait + Sync>(
    rt: &R,
    alloc: Global,
    zone: ZoneIn<Z>,
    seats: &mut SeatsIn<Z>,
    options: Options,
    turn: ClientTurn,
    stub: Stub,
    slip: Slip,
) -> (ZoneIn<Z>, Option<ClientAndRound>)
    requires room { HasRoomForAnswers turn }
    requires pair { (slip ≡ stub) × (stub.records ≡ []) }
    // Each record that the journal has more is of the round or of the client, and those of the client are its new receipts.
    ensures added { IsAddedBeside turn.client.number zone.records result.0.records }
    ensures told { IfSome result.1 (λ both. IsToldBeside turn.client both.client zone.records result.0.records) }
    ensures kept { LockInvariant result.0 }
    ensures identity { HasIdentity zone.number zone.blocks result.0 }
    ensures ran { RunsBeside turn seats.old seats.new result.1 }
{
    compact_with_turn::<Brand, Brand, Z, R>(rt, alloc, zone, seats, options, turn, stub, slip)
}

/// Runs both over a zone with the number and the pageblocks that the type names. Where both ran, what the lock of the zone was told are
/// the client's new receipts.
fn compact_with_turn<
    K: Keeping + Send + Sync,
    J: Telling + Send,
    Z: Opening + Send + Sync,
    R: Threads + Wait + Sync,
>(
    rt: &R,
    alloc: Global,
    zone: ZoneIn<Z>,
    seats: &mut SeatsIn<Z>,
    options: Options,
    turn: ClientTurn,
    stub: Stub,
    slip: Slip,
) -> (ZoneIn<Z>, Option<ClientAndRound>)
    requires identity { HasIdentity K.number K.blocks zone }
    requires keeps { K.keeps zone }
    requires begins { K.begins_at seats.old.scan.count }
    requires plays { MayPlay K.allows J.pair turn }
    requires told { K.told zone.records ≡ Some stub }
    requires slip { (J.pair ≡ Some slip.pair) × (slip.records ≡ []) }
    requires before { J.before ≡ turn.client.receipts }
    ensures keeps { K.keeps result.0 }
    ensures told { IfSome result.1 (λ both. AreSince J.before (K.told result.0.records) both.client.receipts) }
    ensures kept { LockInvariant result.0 }
    ensures identity { HasIdentity K.number K.blocks result.0 }
    ensures ran { RunsBeside turn seats.old seats.new result.1 }
{
    let ClientTurn {
        client,
        lines,
        answers,
    } = turn;
    let turn = ClientTurn {
        client: client.with_slip::<J>(slip),
        lines,
        answers,
    };
    let shared = KeptIn::<K, Z>::with_stub(zone, Some(stub));
    let both = in_scope(rt, alloc, &shared, seats, options, turn);
    let (zone, stub) = shared.into_parts();
    let Some(both) = both else {
        return (zone, None);
    };
    (zone, Some(compared(both, stub)))
}

/// Puts the client's slip to the stub: what is on the stub are the client's new receipts.
fn compared<J: Telling>(both: ClientAndRound<J>, stub: Option<Stub>) -> ClientAndRound
    requires pair { pair_of stub ≡ J.pair }
    ensures told { AreSince J.before stub both.client.receipts }
    ensures client { result.client ≡ both.client }
    ensures answers { result.answers.items ≡ both.answers.items }
    ensures round { result.round ≡ both.round }
{
    let ClientAndRound {
        client,
        answers,
        round,
    } = both;
    let (client, slip) = client.into_parts();
    if let (Some(stub), Some(slip)) = (stub, slip) {
        stub.compare(slip);
    }
    ClientAndRound {
        client,
        answers,
        round,
    }
}

/// Runs both in a scope of their own.
fn in_scope<
    K: Keeping + Send + Sync,
    J: Telling + Send,
    Z: Opening + Send + Sync,
    R: Threads + Wait + Sync,
>(
    rt: &R,
    alloc: Global,
    shared: &KeptIn<K, Z>,
    seats: &mut SeatsIn<Z>,
    options: Options,
    turn: ClientTurn<J>,
) -> Option<ClientAndRound<J>>
    requires begins { K.begins_at seats.old.scan.count }
    requires plays { MayPlay K.allows J.pair turn }
    ensures ran { RunsBeside turn seats.old seats.new result }
{
    let lent = &mut *seats;
    let (lent, both) = thread::scope(
        thread::scope_env(),
        rt,
        move |scope| -> (&mut SeatsIn<Z>, Option<ClientAndRound<J>>)
            requires begins { K.begins_at lent.now.scan.count }
            requires plays { MayPlay K.allows J.pair turn }
            ensures ran { RunsBeside turn lent.entry.now result.0.now result.1 }
            ensures lent { IsLentBack lent.entry.ghost_name result.0.ghost_name }
        {
            let both = run_both(scope, rt, alloc, shared, lent, options, turn);
            (lent, both)
        },
    );
    let _ = lent;
    both
}

/// A client hands back its answers and its receipts.
#[derive(Drop)]
struct Plays<J: Telling> {
    turn: Snapshot<ClientTurn<J>>,
}

impl<J: Telling> Promise<ClientTurn<J>> for Plays<J> {
    ghost use Rattle.script_core.specs.Clients.{AreClientAnswers};

    ghost kept_by = { λ p r. AreClientAnswers p.turn.value.client p.turn.value.lines.items r.answers.items r.client };
}

/// Runs a round on this thread and those that it starts, and the client on one more thread. Where that can't be started, the turn is
/// dropped, and no call was made.
fn run_both<
    's,
    'e,
    K: Keeping + Send + Sync,
    J: Telling + Send + 's,
    Z: Opening + Send + Sync,
    R: Threads + Wait + Sync,
>(
    scope: &'s Scope<'s, &'e ()>,
    rt: &'e R,
    alloc: Global,
    shared: &'e KeptIn<K, Z>,
    seats: &mut SeatsIn<Z>,
    options: Options,
    turn: ClientTurn<J>,
) -> Option<ClientAndRound<J>>
    requires begins { K.begins_at seats.old.scan.count }
    requires plays { MayPlay K.allows J.pair turn }
    ensures ran { RunsBeside turn seats.old seats.new result }
{
    let promise = Plays {
        turn: Snapshot::of(&turn),
    };
    let started = scope.spawn_with(
        promise,
        move || -> ClientTurn<J>
            requires plays { MayPlay K.allows J.pair turn }
            ensures { AreClientAnswers turn.client turn.lines.items result.answers.items result.client }
        { play_lines(rt, shared, turn) },
    );
    let player = started.ok()?;
    let round = compact(
        rt,
        alloc,
        shared,
        seats,
        options.copiers,
        options.capacity,
        &NoGate,
    );
    let ClientTurn {
        client,
        answers,
        ..
    } = player.join(rt);
    Some(ClientAndRound {
        client,
        answers,
        round,
    })
}

/// Makes the calls of a client's lines, one after the other.
fn play_lines<K: Keeping, J: Telling, Z: Opening, R: Wait>(
    rt: &R,
    shared: &KeptIn<K, Z>,
    turn: ClientTurn<J>,
) -> ClientTurn<J>
    requires plays { MayPlay K.allows J.pair turn }
    ensures { AreClientAnswers turn.client turn.lines.items result.answers.items result.client }
{
    let ClientTurn {
        mut client,
        lines,
        mut answers,
    } = turn;
    for line in &lines {
        let reply = reply_to(rt, shared, &mut client, line.call());
        answers.push_reserved(Answer::new(line.line(), reply));
    }
    ClientTurn {
        client,
        lines,
        answers,
    }
}

/// Answers a line of a client.
fn reply_to<K: Keeping, J: Telling, Z: Opening, R: Wait>(
    rt: &R,
    shared: &KeptIn<K, Z>,
    client: &mut Client<J>,
    call: Option<ClientCall>,
) -> Reply
    requires { K.allows client.old.number J.pair }
    ensures { IsClientReply client.old call result client.new }
{
    let Some(call) = call else {
        return Refusal::OutOfRange.reply();
    };
    let made = call.get();
    match client.make(rt, shared, call) {
        Ok(answer) => reply_for(&made, answer),
        Err(error) => Reply::Refused(error.number()),
    }
}
