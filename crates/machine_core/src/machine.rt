ghost use Rattle.std.specs.Prelude.{◌≡◌, ◌<◌, ◌≤◌, [], true, false, ⊤, Some, None, IfErr, IfNone, IfOk, IfSome, OnErr, OnOk};
ghost use Rattle.machine_core.specs.Machine.{call_at, call_step, compact_on, ending, found, make_step, open_step, page_step, pool_from, pool_on, pool_step, reply_for, series_step, step_on, stopped_by, during_on};
ghost use Rattle.machine_core.specs.OneThread.{IsSingleStep, IsStep, Opens, single_at_first};
ghost use Rattle.machine_core.specs.OneThread.{is_at_rest};
ghost use Rattle.text_core.specs.Grammar.{address_of, zone_of};
ghost use Rattle.text_core.specs.declared.reply.Reply.TheVariants as reply;
ghost use Rattle.zone_core.specs.Books.{AreFor};
ghost use Rattle.machine_core.specs.ErrorNumber.{world_number_of};
ghost use Rattle.state_core.specs.ErrorNumber.{number_of};

use crate::World;
use crate::finished::Finished;
use crate::refusal::Refusal;
use crate::scanned::Scanned;
use crate::world::WorldError;
use arrayvec::ArrayVec;
use frame_core::{Address, BlockNo, ClientNo, PageFlags, Serial, SpaceNo, VPage, ZoneNo};
use state_core::{Ended, Look, ZoneAnswer, ZoneCall, ZoneError};
use std::alloc::{AllocError, Global};
use std::marker::Model;
use std::mem::replace;
use text_core::{
    Answers, Block, BlockCount, Call, Calls, Command, PoolBlocks, PoolStopped, Repeated, Reply,
    Respond, Series, zone_of,
};
use zone_core::{Blanks, Opening};

/// What a script works on. A machine whose zone is open has no allocator, so no command on the zone can ask for memory.
#[derive(Drop)]
pub struct Machine<Z: Opening> {
    places: u32,
    zone: Stage<World<Z>>,
}

/// What has become of the one zone of a script, whose world is `W`.
#[derive(Drop)]
enum Stage<W> {
    /// It wasn't opened yet.
    Closed(Unopened),
    /// It is open.
    Open(W),
    /// It was opened, and its world was given away; or there was no memory for it.
    Gone,
}

/// What it takes to open a zone. The first opening uses it up.
#[derive(Drop)]
struct Unopened {
    alloc: Global,
    blanks: Blanks,
}

impl<Z: Opening> Model for Machine<Z> {
    ghost use Rattle.std.specs.Prelude.{◌<◌, ◌≤◌};
    ghost use Rattle.zone_core.specs.Books.{AreFor};
    ghost use Rattle.std.specs.Coded.{codes};
    ghost use Rattle.state_core.specs.ZoneCode.{coded_zone};
    ghost use Rattle.machine_core.specs.OneThread.{OneThread};
    ghost use Rattle.machine_core.specs.Stage.{IfClosed, world_in};

    ghost Value = { OneThread };

    ghost coded = { Prim.hlevel (codes, coded_zone) };

    ghost view = { λ m. record { places = m.places; world = world_in m.zone } };

    ghost invariant = { λ m. (0 < m.places) × (m.places ≤ 65536)
        × IfClosed m.zone (λ o. AreFor o.blanks Z.isolated Z.rounds Z.moved Z.back) };
}

impl<Z: Opening> Respond for Machine<Z> {
    ghost may = { IsSingleStep };

    ghost asks = { Opens };

    ghost ready = { λ _. ⊤ };

    fn respond(&mut self, command: Command, reply: &mut Reply) -> Result<(), AllocError> {
        self.reply_to(command, reply)
    }

    fn respond_to_block(&mut self, block: Block) -> Result<Answers, AllocError> {
        let reply = self.during(block.zone());
        Ok(block.answered(reply))
    }
}

impl<Z: Opening> Machine<Z> {
    /// A machine with no zone. A zone that it opens has this many places in its journal, 1 to 65,536.
    pub fn new(alloc: Global, places: u32, blanks: Blanks) -> Self
        requires places { (0 < places) × (places ≤ 65536) }
        requires blanks { AreFor blanks Z.isolated Z.rounds Z.moved Z.back }
        ensures { result ≡ single_at_first places }
    {
        Machine {
            places,
            zone: Stage::Closed(Unopened { alloc, blanks }),
        }
    }

    /// Answers a command of one line, and writes the reply over the one that is passed. It fails only for want of memory.
    pub fn reply_to(&mut self, command: Command, reply: &mut Reply) -> Result<(), AllocError>
        ensures ok { OnOk result (IsStep self.old command reply.new self.new) }
        ensures memory { OnErr result (Opens self.old command) }
    {
        match command {
            Command::OutOfRange => *reply = Refusal::OutOfRange.reply(),
            Command::Profile2 => *reply = Reply::Done,
            Command::Open { zone, blocks } => self.open(zone, blocks, reply)?,
            Command::On { zone, calls } => self.call(zone, calls, reply),
            Command::Compact { zone } => *reply = self.compact(zone),
            Command::Pool {
                zone,
                count,
                blocks,
            } => self.tell_pool(zone, count, blocks, reply),
            Command::During { zone } => *reply = self.during(zone),
        }
        Ok(())
    }

    /// Opens a zone, where none was opened before. This is a function of its own since it needs room for a whole world, which
    /// no other command does.
    #[inline(never)]
    fn open(
        &mut self,
        zone: ZoneNo,
        blocks: BlockCount,
        reply: &mut Reply,
    ) -> Result<(), AllocError>
        ensures ok { OnOk result (record { reply = reply.new; world = self.new.world } ≡ open_step zone blocks self.old.places self.old.world) }
        ensures places { OnOk result (self.new.places ≡ self.old.places) }
        ensures memory { OnErr result (self.old.world ≡ None) }
    {
        if self.world().is_some() {
            *reply = Refusal::AlreadyOpen.reply();
            return Ok(());
        }
        let Stage::Closed(Unopened { alloc, blanks }) = replace(&mut self.zone, Stage::Gone) else {
            return Err(AllocError);
        };
        let Ok(world) = World::open(alloc, zone, blocks.get(), self.places, blanks) else {
            return Err(AllocError);
        };
        self.give_world(world);
        *reply = Reply::Done;
        Ok(())
    }

    /// The reply to a round over the zone with this number. Without threads no worker can be had, so the round isn't run.
    pub fn compact(&self, zone: ZoneNo) -> Reply
        ensures { record { reply = result; world = self.now.world } ≡ compact_on zone self.now.world }
    {
        match &self.zone {
            Stage::Open(world) if world.zone().number() == zone => {
                (if world.is_open() {
                    Refusal::OpenRound
                } else {
                    Refusal::NoWorker
                })
                .reply()
            }
            _ => Refusal::OtherZone.reply(),
        }
    }

    /// The reply to a round during which a client makes calls, over the zone with this number, which may be out of
    /// range. The round isn't run.
    fn during(&self, number: u64) -> Reply
        ensures { record { reply = result; world = self.now.world } ≡ during_on (zone_of number) self.now.world }
    {
        match zone_of(number) {
            Some(zone) => self.compact(zone),
            None => Refusal::OutOfRange.reply(),
        }
    }

    /// Reserves blocks of the zone with this number, if it is the open one.
    pub fn pool(&mut self, zone: ZoneNo, count: BlockCount, blocks: PoolBlocks) -> Reply
        ensures answer { record { reply = result; world = self.new.world } ≡ pool_on zone count blocks self.old.world }
        ensures places { self.new.places ≡ self.old.places }
    {
        match &mut self.zone {
            Stage::Open(world) if world.zone().number() == zone => answer_pool(
                world, count, blocks,
            ),
            _ => Refusal::OtherZone.reply(),
        }
    }

    /// Writes the reply to a pool. This is a function of its own since it needs room for a pool's blocks, which no other command does.
    #[inline(never)]
    fn tell_pool(&mut self, zone: ZoneNo, count: BlockCount, blocks: PoolBlocks, reply: &mut Reply)
        ensures answer { record { reply = reply.new; world = self.new.world } ≡ pool_on zone count blocks self.old.world }
        ensures places { self.new.places ≡ self.old.places }
    {
        *reply = self.pool(zone, count, blocks);
    }

    /// The world of the zone that is open, if one is.
    #[inline(always)]
    pub fn world(&self) -> Option<&World<Z>>
        ensures some { IfSome result (λ world. self.now.world ≡ Some world.now) }
        ensures none { IfNone result (self.now.world ≡ None) }
    {
        match &self.zone {
            Stage::Open(world) => Some(world),
            Stage::Closed(_) | Stage::Gone => None,
        }
    }

    /// Gives away the world of the zone with this number, if it is the open one and no hand round is open.
    pub fn take_closed(&mut self, zone: ZoneNo) -> Option<World<Z>>
        ensures given { IfSome result (λ world. (self.old.world ≡ Some world) × (is_at_rest zone (Some world) ≡ true)) }
        ensures closed { IfSome result (λ world. world.is_open ≡ false) }
        ensures left { IfSome result (λ _. self.new ≡ single_at_first self.old.places) }
        ensures none { IfNone result ((self.new ≡ self.old) × (is_at_rest zone self.old.world ≡ false)) }
    {
        if !self.is_at_rest(zone) {
            return None;
        }
        match replace(&mut self.zone, Stage::Gone) {
            Stage::Open(world) => Some(world),
            Stage::Closed(_) | Stage::Gone => unreachable!(),
        }
    }

    /// Whether the zone with this number is open, and no hand round is.
    fn is_at_rest(&self, zone: ZoneNo) -> bool
        ensures { result ≡ is_at_rest zone self.now.world }
    {
        match &self.zone {
            Stage::Open(world) => zone == world.zone().number() && !world.is_open(),
            Stage::Closed(_) | Stage::Gone => false,
        }
    }

    /// Gives the machine a world, which replaces the one that it has, if it has one. It can open no zone from then on.
    pub fn give_world(&mut self, world: World<Z>)
        ensures { self.new ≡ record self.old { world = Some world } }
    {
        self.zone = Stage::Open(world);
    }

    /// Answers calls on the zone with this number, if it is the open one.
    fn call(&mut self, zone: ZoneNo, calls: Calls, reply: &mut Reply)
        ensures answer { record { reply = reply.new; world = self.new.world } ≡ step_on zone calls self.old.world }
        ensures places { self.new.places ≡ self.old.places }
    {
        match &mut self.zone {
            Stage::Open(world) if world.zone().number() == zone => match calls {
                Calls::Zone(call) => make(world, &call, reply),
                Calls::One(call) => answer(world, call, reply),
                Calls::Series(series) => answer_series(world, series, reply),
            },
            _ => *reply = Refusal::OtherZone.reply(),
        }
    }
}

/// Answers a pool of blocks of the zone of a world, where no hand round is open.
fn answer_pool<Z: Opening>(world: &mut World<Z>, count: BlockCount, blocks: PoolBlocks) -> Reply
    ensures { record { reply = result; world = world.new } ≡ pool_step world.old count blocks }
{
    if world.is_open() {
        Refusal::OpenRound.reply()
    } else {
        reserve(world, count, blocks)
    }
}

/// Takes the lowest free blocks, `count` at most. Where none is free a round is needed, and without threads no worker can be had for it.
fn reserve<Z: Opening>(world: &mut World<Z>, count: BlockCount, blocks: PoolBlocks) -> Reply
    ensures { record { reply = result; world = world.new } ≡ pool_from blocks [] count world.old }
{
    let wanted = count.get() as usize;
    let mut got = ArrayVec::new();
    while got.len() < wanted {
        match world.take_order(blocks.order()) {
            Ok(first) => got.push(blocks.told_as(first)),
            Err(error) => {
                return Reply::Pool {
                    blocks,
                    got,
                    rounds: 0,
                    stopped: stopped_by(error),
                };
            }
        }
    }
    Reply::Pool {
        blocks,
        got,
        rounds: 0,
        stopped: PoolStopped::Enough,
    }
}

/// Why a pool without threads stops where it is refused a block.
fn stopped_by(error: ZoneError) -> PoolStopped
    ensures { result ≡ stopped_by error }
{
    match error {
        ZoneError::JournalFull => PoolStopped::JournalFull,
        _ => PoolStopped::Refused(Refusal::NoWorker.number()),
    }
}

/// Makes the calls of a series one after the other, up to the first one that is refused, and writes how many were made.
fn answer_series<Z: Opening>(world: &mut World<Z>, series: Series, reply: &mut Reply)
    ensures { record { reply = reply.new; world = world.new } ≡ series_step world.old series }
{
    let Series {
        call,
        space,
        first,
        count,
        step,
    } = series;
    let count = count.get();
    let mut page = first;
    for done in 0..count {
        if let Err(refusal) = answer_at(world, call, address(space, page)) {
            *reply = Reply::DoneUntil { done, refusal };
            return;
        }
        // A number that doesn't fit stands for one beyond the pages of any space, at which the next call is refused.
        page = page.saturating_add(step);
    }
    *reply = Reply::AllDone(count);
}

/// Makes the call of a series for a page, or answers the number of its refusal. It is refused where the space has no such page.
fn answer_at<Z: Opening>(
    world: &mut World<Z>,
    repeated: Repeated,
    address: Option<Address>,
) -> Result<(), u16>
    ensures ok { OnOk result (record { reply = Reply.Done; world = world.new } ≡ page_step repeated world.old address) }
    ensures err { IfErr result (λ refusal. record { reply = Reply.Refused refusal; world = world.new } ≡ page_step repeated world.old address) }
{
    match address {
        Some(address) => repeat(world, repeated, address),
        None => Err(Refusal::OutOfRange.number()),
    }
}

/// Makes the call of a series at an address, or answers the number of its refusal.
fn repeat<Z: Opening>(world: &mut World<Z>, repeated: Repeated, address: Address) -> Result<(), u16>
    ensures ok { OnOk result (record { reply = Reply.Done; world = world.new } ≡ make_step world.old (call_at repeated address)) }
    ensures err { IfErr result (λ refusal. record { reply = Reply.Refused refusal; world = world.new } ≡ make_step world.old (call_at repeated address)) }
{
    let client = script_client();
    match repeated {
        Repeated::Map => match world.map(client, address, PageFlags::of(false, false)) {
            Ok(_) => Ok(()),
            Err(error) => Err(error.number()),
        },
        Repeated::Unmap => match world.unmap(client, address) {
            Ok(()) => Ok(()),
            Err(error) => Err(error.number()),
        },
    }
}

/// The address of a page in a space, if a script's zone has such a page.
fn address(space: SpaceNo, page: u64) -> Option<Address>
    ensures { result ≡ address_of space page }
{
    let space = SpaceNo::new(space.get())?;
    let vpage = VPage::new(u32::try_from(page).ok()?)?;
    Some(Address { space, vpage })
}

/// Answers another call on the zone of a world.
fn answer<Z: Opening>(world: &mut World<Z>, call: Call, reply: &mut Reply)
    ensures { record { reply = reply.new; world = world.new } ≡ call_step world.old call }
{
    match call {
        Call::Info => *reply = Reply::Info(world.zone().info()),
        Call::InfoWithHeld => *reply = Reply::InfoWithHeld(world.zone().info()),
        Call::Scan => tell_scan(world.scan(), reply),
        Call::Take(hand) => tell_serial(world.take(hand), reply),
        Call::Copy(hand) => tell_copy(world.copy(hand), reply),
        Call::Finish(hand) => tell_end(world.finish(hand), reply),
        Call::Shut => tell_shut(world.shut(), reply),
        Call::Look(address) => tell_look(world.zone().look(address), reply),
        Call::Huge => tell_block(world.take_huge(), reply),
        Call::Give(block) => tell_done(world.give_huge(block), reply),
    }
}

/// Makes a call of the zone of a world.
fn make<Z: Opening>(world: &mut World<Z>, call: &ZoneCall, reply: &mut Reply)
    ensures { record { reply = reply.new; world = world.new } ≡ make_step world.old call.now }
{
    match world.make(script_client(), *call) {
        Ok(answer) => *reply = reply_for(call, answer),
        Err(error) => *reply = zone_refusal(error),
    }
}

/// The reply for what a zone answered to a call. The page and the frame of a map aren't told.
pub fn reply_for(call: &ZoneCall, answer: ZoneAnswer) -> Reply
    ensures { result ≡ reply_for call.now answer }
{
    match answer {
        ZoneAnswer::Done | ZoneAnswer::Mapped { .. } => Reply::Done,
        ZoneAnswer::Value(value) => Reply::Value(value),
        ZoneAnswer::Frame(first) => match call {
            ZoneCall::TakeOrder { order } => Reply::HandedOut {
                first,
                order: *order,
            },
            _ => Reply::Done,
        },
    }
}

/// Writes the reply that a call was done, or its refusal.
fn tell_done(outcome: Result<(), ZoneError>, reply: &mut Reply)
    ensures ok { OnOk outcome (reply.new ≡ Reply.Done) }
    ensures err { IfErr outcome (λ error. reply.new ≡ Reply.Refused (number_of error)) }
{
    *reply = match outcome {
        Ok(()) => Reply::Done,
        Err(error) => zone_refusal(error),
    };
}

/// Writes the reply with what is known of a page, or a refusal.
fn tell_look(outcome: Result<Look, ZoneError>, reply: &mut Reply)
    ensures ok { IfOk outcome (λ look. reply.new ≡ Reply.Looked look) }
    ensures err { IfErr outcome (λ error. reply.new ≡ Reply.Refused (number_of error)) }
{
    *reply = match outcome {
        Ok(look) => Reply::Looked(look),
        Err(error) => zone_refusal(error),
    };
}

/// Writes the reply with the pageblock that was handed out, or a refusal.
fn tell_block(outcome: Result<BlockNo, ZoneError>, reply: &mut Reply)
    ensures ok { IfOk outcome (λ block. reply.new ≡ Reply.Block block) }
    ensures err { IfErr outcome (λ error. reply.new ≡ Reply.Refused (number_of error)) }
{
    *reply = match outcome {
        Ok(block) => Reply::Block(block),
        Err(error) => zone_refusal(error),
    };
}

/// Writes the reply with what a scan found, or a refusal.
fn tell_scan(outcome: Result<Scanned, WorldError>, reply: &mut Reply)
    ensures ok { IfOk outcome (λ scanned. reply.new ≡ found scanned) }
    ensures err { IfErr outcome (λ error. reply.new ≡ Reply.Refused (world_number_of error)) }
{
    *reply = match outcome {
        Ok(scanned) => scan_reply(scanned),
        Err(error) => world_refusal(error),
    };
}

/// Writes the reply with the serial of the page that a hand took, or a refusal.
fn tell_serial(outcome: Result<Serial, WorldError>, reply: &mut Reply)
    ensures ok { IfOk outcome (λ serial. reply.new ≡ Reply.Serial serial) }
    ensures err { IfErr outcome (λ error. reply.new ≡ Reply.Refused (world_number_of error)) }
{
    *reply = match outcome {
        Ok(serial) => Reply::Serial(serial),
        Err(error) => world_refusal(error),
    };
}

/// Writes the reply that a hand copied its page, or a refusal.
fn tell_copy(outcome: Result<(), WorldError>, reply: &mut Reply)
    ensures ok { OnOk outcome (reply.new ≡ Reply.Done) }
    ensures err { IfErr outcome (λ error. reply.new ≡ Reply.Refused (world_number_of error)) }
{
    *reply = match outcome {
        Ok(()) => Reply::Done,
        Err(refused) => world_refusal(refused),
    };
}

/// Writes the reply with how a move ended, or a refusal.
fn tell_end(outcome: Result<Finished, WorldError>, reply: &mut Reply)
    ensures ok { IfOk outcome (λ finished. reply.new ≡ ending finished.serial finished.ended) }
    ensures err { IfErr outcome (λ error. reply.new ≡ Reply.Refused (world_number_of error)) }
{
    *reply = match outcome {
        Ok(finished) => end_reply(finished),
        Err(error) => world_refusal(error),
    };
}

/// Writes the reply with how many pages were put back, or a refusal.
fn tell_shut(outcome: Result<u32, WorldError>, reply: &mut Reply)
    ensures ok { IfOk outcome (λ count. reply.new ≡ Reply.Shut count) }
    ensures err { IfErr outcome (λ error. reply.new ≡ Reply.Refused (world_number_of error)) }
{
    *reply = match outcome {
        Ok(count) => Reply::Shut(count),
        Err(error) => world_refusal(error),
    };
}

/// The reply for a refusal of the zone.
fn zone_refusal(error: ZoneError) -> Reply
    ensures { result ≡ reply.Refused (number_of error) }
{
    Reply::Refused(error.number())
}

/// The reply for a refusal of the world.
fn world_refusal(error: WorldError) -> Reply
    ensures { result ≡ reply.Refused (world_number_of error) }
{
    Reply::Refused(error.number())
}

/// The reply for what a scan found.
fn scan_reply(scanned: Scanned) -> Reply
    ensures { result ≡ found scanned }
{
    match scanned {
        Scanned::Serial(serial) => Reply::Serial(serial),
        Scanned::Met => Reply::Met,
    }
}

/// The reply for how the move of a page ended.
fn end_reply(finished: Finished) -> Reply
    ensures { result ≡ ending finished.serial finished.ended }
{
    let Finished { serial, ended } = finished;
    match ended {
        Ended::Moved => Reply::Moved(serial),
        Ended::Back => Reply::PutBack(serial),
    }
}

/// The number of the client that makes the script's own calls: 0.
fn script_client() -> ClientNo
    ensures { result ≡ 0 }
{
    ClientNo::new(0).unwrap()
}
