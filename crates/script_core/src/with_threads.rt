ghost use Rattle.std.specs.Prelude.{◌≡◌, ◌≢◌, ◌⊎◌, ◌+◌, ◌≤◌, ◌↔◌, [], false, length, Some, None, option_map, IsOk, IfOk, OnOk, OnErr, IfSome, IfNone};
ghost use Rattle.std.specs.Result.{result_err};
ghost use Rattle.round_core.specs.Kept.{LockInvariant};
ghost use Rattle.round_core.specs.Rounds.{IsRefusedEarly, IsRound, IsUnlimited};
ghost use Rattle.zone_core.specs.Books.{AreFor};
ghost use Rattle.zone_core.specs.Seats.{audit_refusal};
ghost use Rattle.zone_core.specs.ZoneIdentity.{HasIdentity};
ghost use Rattle.machine_core.specs.Refusals.{number_of};
ghost use Rattle.text_core.specs.Script.{command_in_block};
ghost use Rattle.script_core.specs.Clients.{HasRoomForAnswers};
ghost use Rattle.script_core.specs.WithThreads.{ComesToByHand, HasGivenAway, IsBlockFor, IsNothingRun, IsPoolOn, IsRoundBeside, IsRoundOn, IsSettledReply, IsSplit, IsStepBy, IsThreadedStep, IsTurnBeside, IsUnstarted, broken_refusal, broken_reply, is_threaded, left_by, pool_reply, round_reply, threaded_at_first, told_of};
ghost use Rattle.script_core.specs.MachineByHand.{pool_stopped_as, stopped_as};

use crate::base_machine::BaseMachine;
use crate::beside::{ClientAndRound, ClientTurn, compact_beside};
use arrayvec::ArrayVec;
use client_core::{Client, settle_clients};
use frame_core::{ClientNo, Order, ZoneNo};
use hand_core::{Slip, Stub};
use huge_core::{Collector, Huge, Report, Stop as PoolStop, reserve_alone};
use machine_core::{Machine, Options, Refusal, Rest, World};
use round_core::{NoGate, Round, RoundError, Stop, compact_alone};
use std::alloc::{AllocError, Global};
use std::marker::Model;
use std::slice;
use std::sync::Wait;
use std::thread::Threads;
use text_core::{
    Answer, Answers, Block, BlockCount, Command, PoolBlocks, PoolStopped, Reply, Stopped, zone_of,
};
use zone_core::{Audit, Blanks, Opening, SeatsIn, ZoneError, ZoneIn};

/// How many rounds a pool may run.
const POOL_ROUNDS: u32 = 4;

/// What a script works on where there are threads: the machine as on one thread, the number of a zone that a round left broken, so
/// that no audit passes, and the client that makes calls during rounds. It has no allocator: the commands that start threads are
/// passed one.
#[derive(Drop)]
pub(crate) struct WithThreads<Z: Opening> {
    options: Options,
    machine: Machine<Z>,
    broken: Option<ZoneNo>,
    client: Client,
}

impl<Z: Opening> Model for WithThreads<Z> {
    ghost use Rattle.std.specs.Coded.{codes};
    ghost use Rattle.state_core.specs.ZoneCode.{coded_zone};
    ghost use Rattle.script_core.specs.WithThreads.{WithThreads as Seen};

    ghost Value = { Seen };

    ghost coded = { Prim.hlevel (codes, coded_zone) };

    ghost view = { λ t. record { single = t.machine; broken = t.broken; client = t.client } };
}

impl<Z: Opening> WithThreads<Z> {
    /// A machine with no zone. A zone that it opens has as many places in its journal as the options say, and a round has as many
    /// copiers, and as much room in its queues.
    pub(crate) fn new(alloc: Global, options: Options, blanks: Blanks) -> Self
        requires blanks { AreFor blanks Z.isolated Z.rounds Z.moved Z.back }
        ensures { result ≡ threaded_at_first options.journal }
    {
        WithThreads {
            options,
            machine: Machine::new(alloc, options.journal, blanks),
            broken: None,
            client: Client::new(alloc, block_client()),
        }
    }

    /// The zone that is open, if one is.
    pub(crate) fn zone(&self) -> Option<&ZoneIn<Z>>
        ensures some { IfSome result (λ zone. option_map (λ w. w.zone) self.now.single.world ≡ Some zone.now) }
        ensures none { IfNone result (self.now.single.world ≡ None) }
    {
        let world = self.machine.world()?;
        Some(world.zone())
    }
}

impl<Z: Opening> BaseMachine for WithThreads<Z> {
    ghost seen = { λ t. t };

    fn broken_zone(&self) -> Option<ZoneNo> {
        self.broken
    }

    fn reply_alone(&mut self, command: Command, reply: &mut Reply) -> Result<(), AllocError> {
        self.machine.reply_to(command, reply)
    }
}

impl<Z: Opening + Send + Sync> WithThreads<Z> {
    /// Answers the command for a round over a zone, where no zone is broken, and writes the reply over the one that is passed. This is a
    /// function of its own since it needs room for a whole world, which no other command does.
    #[inline(never)]
    pub(crate) fn answer_compact<H: Threads + Wait + Sync>(
        &mut self,
        rt: &H,
        alloc: Global,
        zone: ZoneNo,
        reply: &mut Reply,
    )
        requires whole { self.old.broken ≡ None }
        ensures { IsStepBy (is_threaded (Command.Compact zone) self.old.single.world) self.old (Command.Compact zone) reply.new self.new }
    {
        let Some(world) = self.machine.take_closed(zone) else {
            *reply = self.machine.compact(zone);
            return;
        };
        *reply = self.run_round(rt, alloc, world);
    }

    /// Answers the command for a pool of blocks of a zone. This is a function of its own for the same reason.
    #[inline(never)]
    pub(crate) fn answer_pool<H: Threads + Wait + Sync>(
        &mut self,
        rt: &H,
        alloc: Global,
        zone: ZoneNo,
        count: BlockCount,
        blocks: PoolBlocks,
        reply: &mut Reply,
    )
        requires whole { self.old.broken ≡ None }
        ensures { IsStepBy (is_threaded (Command.Pool zone count blocks) self.old.single.world) self.old (Command.Pool zone count blocks) reply.new self.new }
    {
        let Some(world) = self.machine.take_closed(zone) else {
            *reply = self.machine.pool(zone, count, blocks);
            return;
        };
        *reply = self.run_pool(rt, alloc, world, count, blocks);
    }

    /// Answers a block. This is a function of its own for the same reason.
    #[inline(never)]
    pub(crate) fn answer_block<H: Threads + Wait + Sync>(
        &mut self,
        rt: &H,
        alloc: Global,
        block: Block,
    ) -> Result<Answers, AllocError>
        requires whole { self.old.broken ≡ None }
        ensures ok { IfOk result (λ answers. IsThreadedStep self.old (command_in_block block) answers self.new) }
        ensures memory { OnErr result (IsBlockFor (command_in_block block).command self.old.single.world) }
    {
        let Some(zone) = zone_of(block.zone()) else {
            return Ok(block.answered(Refusal::OutOfRange.reply()));
        };
        let Some(world) = self.machine.take_closed(zone) else {
            let reply = self.machine.compact(zone);
            return Ok(block.answered(reply));
        };
        self.run_beside(rt, alloc, world, block)
    }

    /// Runs a round over the zone of a world, which the machine gave away for it.
    fn run_round<H: Threads + Wait + Sync>(
        &mut self,
        rt: &H,
        alloc: Global,
        world: World<Z>,
    ) -> Reply
        requires given { HasGivenAway self.old world }
        ensures { IsRoundOn world self.old.single.places self.old.client result self.new }
    {
        let (zone, mut seats, rest) = parts_of(world);
        let (zone, round) = self.compact(rt, alloc, zone, &mut seats);
        self.take_back_after(&round, zone, seats, rest);
        reply_to(round)
    }

    /// Runs a round over the zone of a world, which the machine gave away for it, while the client makes calls. A copy of the client
    /// makes the calls, so that the client still has its receipts where the copy's thread can't be started.
    fn run_beside<H: Threads + Wait + Sync>(
        &mut self,
        rt: &H,
        alloc: Global,
        world: World<Z>,
        block: Block,
    ) -> Result<Answers, AllocError>
        requires given { HasGivenAway self.old world }
        ensures { IfOk result (λ answers. IsRoundBeside world self.old (command_in_block block) answers self.new ⊎ IsUnstarted world self.old (command_in_block block) answers self.new) }
    {
        let client = self.client.try_clone()?;
        let line = block.line();
        let (stub, slip) = Stub::pair(alloc)?;
        let (lines, answers) = block.into_parts();
        let turn = ClientTurn {
            client,
            lines,
            answers,
        };
        let Some((answers, own)) = self.run_turn(rt, alloc, world, turn, stub, slip) else {
            let own = Answer::new(line, Refusal::NoWorker.reply());
            return Ok(Answers::new(Vec::new(alloc), own));
        };
        Ok(Answers::new(answers, Answer::new(line, own)))
    }

    /// Runs a round over the zone of a world, which the machine gave away for it, while the client makes the calls of a turn. It
    /// answers the answers to the turn's lines, and the reply to the round; None where the client's thread can't be started.
    fn run_turn<H: Threads + Wait + Sync>(
        &mut self,
        rt: &H,
        alloc: Global,
        world: World<Z>,
        turn: ClientTurn,
        stub: Stub,
        slip: Slip,
    ) -> Option<(Vec<Answer>, Reply)>
        requires given { HasGivenAway self.old world }
        requires client { turn.client ≡ self.old.client }
        requires pair { (slip ≡ stub) × (stub.records ≡ []) }
        requires room { HasRoomForAnswers turn }
        ensures played { IfSome result (λ told. IsTurnBeside world self.old.single.places turn.client turn.lines.items told.0.items told.1 self.new) }
        ensures none { IfNone result (IsNothingRun world self.old self.new) }
    {
        let (zone, mut seats, rest) = parts_of(world);
        let (zone, both) = compact_beside(
            rt,
            alloc,
            zone,
            &mut seats,
            self.options,
            turn,
            stub,
            slip,
        );
        let Some(both) = both else {
            self.take_back(zone, seats, rest);
            return None;
        };
        let told = self.settle(&zone, both);
        self.take_back(zone, seats, rest);
        Some(told)
    }

    /// Keeps the client as its turn left it, and gives the answers to its lines and the reply to the round.
    fn settle(&mut self, zone: &ZoneIn<Z>, both: ClientAndRound) -> (Vec<Answer>, Reply)
        requires { IsUnlimited both.round }
        ensures client { self.new ≡ record self.old { client = both.client } }
        ensures answers { result.0.items ≡ both.answers.items }
        ensures reply { IsSettledReply zone.now both.client both.round result.1 }
    {
        let ClientAndRound {
            client,
            answers,
            round,
        } = both;
        let own = settled_reply(zone, &client, round);
        self.client = client;
        (answers, own)
    }

    /// Runs a round over a zone, with as many copiers and as much room in its queues as the options say.
    fn compact<H: Threads + Wait + Sync>(
        &self,
        rt: &H,
        alloc: Global,
        zone: ZoneIn<Z>,
        seats: &mut SeatsIn<Z>,
    ) -> (ZoneIn<Z>, Result<Round, RoundError>)
        ensures kept { LockInvariant result.0 }
        ensures identity { HasIdentity zone.number zone.blocks result.0 }
        ensures round { IfOk result.1 (λ r. IsRound seats.old.scan seats.new.scan seats.old.ends seats.new.ends r) }
        ensures early { IsRefusedEarly seats.old.scan seats.new.scan seats.old.ends seats.new.ends result.1 }
        ensures by_hand { ComesToByHand zone result.0 result.1 }
        ensures unlimited { IsUnlimited result.1 }
        ensures passes { OnOk result.1 (audit_refusal result.0 seats.new.ends ≡ None) }
    {
        compact_alone(
            rt,
            alloc,
            zone,
            seats,
            self.options.copiers,
            self.options.capacity,
            &NoGate,
        )
    }

    /// Reserves blocks of the zone of a world, which the machine gave away for it.
    fn run_pool<H: Threads + Wait + Sync>(
        &mut self,
        rt: &H,
        alloc: Global,
        world: World<Z>,
        count: BlockCount,
        blocks: PoolBlocks,
    ) -> Reply
        requires given { HasGivenAway self.old world }
        ensures { IsPoolOn count blocks world self.old.single.places self.old.client result self.new }
    {
        let (zone, mut seats, rest) = parts_of(world);
        let collector = self.collector(blocks.order());
        let n = count.get() as usize;
        let (zone, report) = reserve_alone(rt, alloc, &collector, zone, &mut seats, n, &NoGate);
        self.take_back(zone, seats, rest);
        pool_reply(blocks, &report)
    }

    /// The collector of a pool that reserves blocks of this order, with as many copiers and as much room in its queues as the options say.
    fn collector(&self, order: Order) -> Collector
        ensures rounds { result.rounds ≡ 4 }
        ensures order { result.order ≡ order }
    {
        Collector {
            copiers: self.options.copiers,
            cap: self.options.capacity,
            rounds: POOL_ROUNDS,
            order,
        }
    }

    /// Keeps a zone whose audit passes as that of the machine's world again.
    fn keep(&mut self, zone: ZoneIn<Z>, seats: SeatsIn<Z>, rest: Rest)
        requires given { self.old.single.world ≡ None }
        requires whole { self.old.broken ≡ None }
        requires rest { rest ≡ zone.blocks }
        requires passes { audit_refusal zone seats.ends ≡ None }
        ensures { self.new ≡ left_by self.old.single.places self.old.client zone seats.scan seats.ends (audit_refusal zone seats.ends) }
    {
        self.machine.give_world(World::join(zone, seats, rest));
    }

    /// Takes a zone back after a round over it, with its seats, as `take_back` does. A round that is answered Ok ended with an audit that
    /// passed.
    fn take_back_after(
        &mut self,
        round: &Result<Round, RoundError>,
        zone: ZoneIn<Z>,
        seats: SeatsIn<Z>,
        rest: Rest,
    )
        requires given { self.old.single.world ≡ None }
        requires whole { self.old.broken ≡ None }
        requires rest { rest ≡ zone.blocks }
        requires passes { OnOk round.now (audit_refusal zone seats.ends ≡ None) }
        ensures left { self.new ≡ left_by self.old.single.places self.old.client zone seats.scan seats.ends (audit_refusal zone seats.ends) }
        ensures exact { 64 ≤ seats.ends.parts → seats.ends.moved + seats.ends.back ≡ seats.scan.count → audit_refusal zone seats.ends ≡ None }
    {
        match round {
            Ok(_) => self.keep(zone, seats, rest),
            Err(_) => self.take_back(zone, seats, rest),
        }
    }

    /// Takes a zone back with its seats. Where its audit fails the zone is dropped, and its number is kept.
    fn take_back(&mut self, mut zone: ZoneIn<Z>, mut seats: SeatsIn<Z>, rest: Rest)
        requires given { self.old.single.world ≡ None }
        requires whole { self.old.broken ≡ None }
        requires rest { rest ≡ zone.blocks }
        ensures left { self.new ≡ left_by self.old.single.places self.old.client zone seats.scan seats.ends (audit_refusal zone seats.ends) }
        ensures exact { 64 ≤ seats.ends.parts → seats.ends.moved + seats.ends.back ≡ seats.scan.count → audit_refusal zone seats.ends ≡ None }
    {
        let number = zone.number();
        match audit(&mut zone, &mut seats) {
            Ok(_) => self.keep(zone, seats, rest),
            Err(_) => self.broken = Some(number),
        }
    }
}

/// The zone, the seats and the rest of a world in which no hand round is open.
fn parts_of<Z: Opening>(world: World<Z>) -> (ZoneIn<Z>, SeatsIn<Z>, Rest)
    requires closed { world.is_open ≡ false }
    ensures split { IsSplit world result.0 result.1 }
    ensures rest { result.2 ≡ world.zone.blocks }
{
    world.split().ok().unwrap()
}

/// The number of the client that makes calls during rounds: 1.
fn block_client() -> ClientNo
    ensures { result ≡ 1 }
{
    ClientNo::new(1).unwrap()
}

/// The reply to a round during which a client made calls: 36 where the zone's journal isn't kept, and 35 where it is and the
/// client's receipts aren't its records there.
fn settled_reply<Z: Opening>(
    zone: &ZoneIn<Z>,
    client: &Client,
    round: Result<Round, RoundError>,
) -> Reply
    requires { IsUnlimited round }
    ensures { IsSettledReply zone.now client.now round result }
{
    match settle_clients(zone, slice::from_ref(client)) {
        Ok(()) => reply_to(round),
        Err(unsettled) => Reply::Refused(unsettled.number()),
    }
}

/// Audits a zone with its seats.
fn audit<Z: Opening>(zone: &mut ZoneIn<Z>, seats: &mut SeatsIn<Z>) -> Result<Audit, ZoneError>
    ensures refused { result_err result ≡ audit_refusal zone.old seats.old.ends }
    ensures exact { 64 ≤ seats.old.ends.parts → (IsOk result ↔ (seats.old.ends.moved + seats.old.ends.back ≡ seats.old.scan.count)) }
    ensures same { (zone.new ≡ zone.old) × (seats.new.scan ≡ seats.old.scan) × (seats.new.ends ≡ seats.old.ends) }
{
    zone.audit(&mut seats.scan, &mut seats.ends)
}

/// The reply to a round.
fn reply_to(round: Result<Round, RoundError>) -> Reply
    requires { IsUnlimited round }
    ensures { result ≡ round_reply round }
{
    match round {
        Ok(round) => Reply::Round {
            isolated: round.count,
            moved: round.moved,
            back: round.back,
            stopped: stopped(round.stopped),
        },
        Err(error) => Reply::Refused(error.number()),
    }
}

/// Why a round stopped, for its reply.
fn stopped(stop: Stop) -> Stopped
    requires { stop ≢ Stop.Most }
    ensures { result ≡ stopped_as stop }
{
    match stop {
        Stop::Met => Stopped::Met,
        Stop::JournalFull => Stopped::JournalFull,
        Stop::Most => unreachable!(),
    }
}

/// The reply to a pool.
fn pool_reply(blocks: PoolBlocks, report: &Report) -> Reply
    ensures { result ≡ pool_reply blocks report.now }
{
    let got = told_of(&blocks, report.got.as_slice());
    Reply::Pool {
        blocks,
        got,
        rounds: report.rounds,
        stopped: pool_stopped(report.stop),
    }
}

/// The numbers that name at most eight blocks.
fn told_of(blocks: &PoolBlocks, got: &[Option<Huge>]) -> ArrayVec<u32, 8>
    requires few { length got.now ≤ 8 }
    ensures { result.items ≡ told_of blocks.now got.now }
{
    let mut told = ArrayVec::new();
    for block in got {
        if let Some(huge) = block {
            told.push(blocks.told_as(huge.frame()));
        }
    }
    told
}

/// Why a pool stopped, for its reply.
fn pool_stopped(stop: PoolStop) -> PoolStopped
    ensures { result ≡ pool_stopped_as stop }
{
    match stop {
        PoolStop::Enough => PoolStopped::Enough,
        PoolStop::NoBlock => PoolStopped::NoBlock,
        PoolStop::Rounds => PoolStopped::Rounds,
        PoolStop::JournalFull => PoolStopped::JournalFull,
        PoolStop::Refused(error) => PoolStopped::Refused(error.number()),
    }
}

/// The reply to a command where the zone with this number is broken: no call can be made of it.
pub(crate) fn broken_reply(number: ZoneNo, command: Command) -> Reply
    ensures { result ≡ broken_reply number command }
{
    match command {
        Command::OutOfRange => Refusal::OutOfRange.reply(),
        Command::Profile2 => Reply::Done,
        Command::Open { .. } => Refusal::AlreadyOpen.reply(),
        Command::On { zone, .. } | Command::Compact { zone } | Command::Pool { zone, .. } => {
            broken_refusal(number, zone).reply()
        }
        Command::During { zone } => broken_reply_to_block(number, zone),
    }
}

/// The reply to a block where the zone with this number is broken. The block's zone may be any number.
pub(crate) fn broken_reply_to_block(number: ZoneNo, zone: u64) -> Reply
    ensures { result ≡ broken_reply number (Command.During zone) }
{
    match zone_of(zone) {
        Some(zone) => broken_refusal(number, zone).reply(),
        None => Refusal::OutOfRange.reply(),
    }
}

/// Why a command on a zone is refused, where the zone with the first number is broken.
fn broken_refusal(number: ZoneNo, zone: ZoneNo) -> Refusal
    ensures { number_of result ≡ broken_refusal number zone }
{
    if zone == number {
        Refusal::BrokenZone
    } else {
        Refusal::OtherZone
    }
}
