//! A world that was just opened, and the steps that tests make with it.

ghost use Rattle.std.specs.Prelude.{◌≤◌};
ghost use Rattle.zone_core.specs.Books.{AreFor};

mod methods;

use super::answers::{Answer, Shown, assert_answer};
use super::calls::{Call, Name, PAGE, read_as, told, unread, value_of};
use super::draws::Draws;
use super::lists::assert_each_walk;
use super::walks::assert_kept;
use super::{address, block, client, hand, word};
use frame_core::{Journal, Record, ZoneNo};
use machine_core::{Scanned, WorldOf};
use std::marker::Brand;
use std::process::Abort;
use zone_core::{Blanks, Opening, ZoneInOf};

/// A step with a world.
#[derive(Clone, Copy)]
pub enum Step<'a> {
    Call(Call),
    Look(Name),
    TakeHuge,
    GiveHuge(u32),
    /// Writes words of the page that `PAGE` names, from the first on.
    Write(&'a [u64]),
    /// Reads words of this page, from the first on, which have to be these.
    Read(&'a [u64]),
    /// Loads these words one by one.
    Load(&'a [u64]),
    Scan,
    /// By this hand, as the next two.
    Take(u32),
    Copy(u32),
    Finish(u32),
    /// Answers how many pages were put back.
    Shut,
    /// How many records the journal has.
    Journal,
    /// The record with this number, which has to be that of a load.
    Record(usize),
}

/// A step with its answer.
pub type Row<'a> = (Step<'a>, Answer);

/// The form in which calls of clients are made.
#[derive(Clone, Copy)]
pub enum CallForm {
    /// By the methods of their names.
    Method,
    /// The same, and after each step what the zone keeps is what walks find.
    MethodBesideWalks,
    /// As values.
    Value,
}

/// World 3.
#[derive(Drop)]
pub struct OpenWorld<const W: usize, Z: Opening> {
    world: WorldOf<W, Z>,
}

impl<const W: usize, Z: Opening> OpenWorld<W, Z> {
    /// So many pageblocks, and 4,096 places in the journal.
    pub fn of(rt: &(impl Abort + AllocGlobal), blocks: u32, blanks: Blanks) -> Self
        requires blanks { AreFor blanks Z.isolated Z.rounds Z.moved Z.back }
        requires size { W ≤ 65536 }
    {
        let number = ZoneNo::new(3).expect(rt, "a zone");
        let opened = WorldOf::<W, Z>::open(rt.alloc(), number, blocks, 4096, blanks);
        let world = opened.expect(rt, "a world");
        OpenWorld { world }
    }

    /// Plays the rows, each with the answer that it wants.
    pub fn plays(
        &mut self,
        rt: &(impl Abort + AllocGlobal),
        form: CallForm,
        name: &str,
        rows: &[Row],
    )
        requires { W ≤ 65536 }
    {
        for (number, row) in rows.iter().enumerate() {
            let (step, want) = *row;
            assert_answer(rt, self.make(rt, form, step), want, name, number);
            if let CallForm::MethodBesideWalks = form {
                let zone = self.world.zone();
                assert_kept(rt, zone);
                assert_each_walk(rt, zone.tables(), zone.frames());
            }
        }
    }

    /// Makes 2,000 calls that are drawn. After every 25th, what the zone keeps is what walks find. More than a fifth of the calls is
    /// accepted, each with its record.
    pub fn plays_draws(&mut self, rt: &(impl Abort + AllocGlobal))
        requires { W ≤ 65536 }
    {
        let mut draws = Draws::new();
        for number in 1..2001u32 {
            self.make(rt, CallForm::Method, draws.step());
            if number % 25 == 0 {
                assert_kept(rt, self.world.zone());
            }
        }
        assert!(rt; self.world.zone().journal().len() > 400);
    }

    fn make(&mut self, rt: &(impl Abort + AllocGlobal), form: CallForm, step: Step) -> Answer
        requires { W ≤ 65536 }
    {
        match step {
            Step::Call(call) => self.call(rt, form, call),
            Step::TakeHuge => self.world.take_huge().shown(),
            Step::GiveHuge(number) => self.world.give_huge(block(rt, number)).shown(),
            Step::Write(values) => self.write(rt, values),
            Step::Read(want) => self.read(rt, want),
            Step::Load(want) => self.load_each(rt, want),
            Step::Look(_) | Step::Journal | Step::Record(_) => shows(rt, self.world.zone(), step),
            _ => self.make_by_hand(rt, step),
        }
    }

    fn make_by_hand(&mut self, rt: &impl Abort, step: Step) -> Answer {
        match step {
            Step::Scan => self.world.scan().shown(),
            Step::Take(number) => {
                let taken = self.world.take(hand(rt, number));
                taken.map(Scanned::Serial).shown()
            }
            Step::Copy(number) => self.world.copy(hand(rt, number)).shown(),
            Step::Finish(number) => self.world.finish(hand(rt, number)).shown(),
            Step::Shut => self.world.shut().shown(),
            _ => panic!(rt; "another step"),
        }
    }

    fn call(&mut self, rt: &impl Abort, form: CallForm, call: Call) -> Answer
        requires { W ≤ 65536 }
    {
        let value = value_of(rt, call);
        match form {
            CallForm::Value => told(call, self.world.make(client(rt), value)),
            _ => self.by_method(client(rt), value),
        }
    }

    fn write(&mut self, rt: &impl Abort, values: &[u64]) -> Answer
        requires { W ≤ 65536 }
    {
        let (page, first) = (address(rt, PAGE), word(rt, 0));
        self.world.write(client(rt), page, first, values).shown()
    }

    fn read(&mut self, rt: &(impl Abort + AllocGlobal), want: &[u64]) -> Answer
        requires { W ≤ 65536 }
    {
        let (page, first) = (address(rt, PAGE), word(rt, 0));
        let mut words = unread(rt, want.len());
        let answer = self.world.read(client(rt), page, first, &mut words);
        read_as(rt, answer, &words, want)
    }

    fn load_each(&mut self, rt: &impl Abort, want: &[u64]) -> Answer
        requires { W ≤ 65536 }
    {
        for (number, value) in (0..512).zip(want) {
            let loaded = self.call(rt, CallForm::Method, Call::Load(PAGE, number));
            assert_answer(
                rt,
                loaded,
                Answer::Value(*value),
                "each word",
                number as usize,
            );
        }
        Answer::Done
    }
}

/// What a zone shows of a page or of its journal.
fn shows<const W: usize, Z: Opening>(rt: &impl Abort, zone: &ZoneInOf<W, Z>, step: Step) -> Answer {
    match step {
        Step::Look(name) => zone.look(address(rt, name)).shown(),
        Step::Record(number) => recorded(rt, zone.journal(), number),
        _ => zone.journal().len().shown(),
    }
}

/// The record of a journal with this number, which is that of a load.
fn recorded(rt: &impl Abort, journal: &Journal, number: usize) -> Answer {
    let record = journal.kept().expect(rt, "a kept journal").get(number);
    let Some(
        Record::Load {
            client,
            address,
            word,
            value,
        },
    ) = record
    else {
        panic!(rt; "no load");
    };
    let name = (address.space.get(), address.vpage.get());
    Answer::Loaded(client.get(), name, *word, *value)
}

/// A world, here one without records, is handed back as it was where its round is open, and comes apart once it is shut.
fn comes_apart<Z: Opening>(rt: &(impl Abort + AllocGlobal), blanks: Blanks)
    requires blanks { AreFor blanks Z.isolated Z.rounds Z.moved Z.back }
{
    let number = ZoneNo::new(3).expect(rt, "a zone");
    let opened = WorldOf::<8, Z>::open_unrecorded(rt.alloc(), number, 1, blanks);
    let mut world = opened.expect(rt, "a world");
    assert!(rt; world.scan() == Ok(Scanned::Met));
    let mut world = world.split().err().expect(rt, "an open round");
    assert!(rt; world.is_open());
    assert!(rt; world.shut() == Ok(0));
    let _parts = world.split().ok().expect(rt, "a round that is shut");
}

#[test]
fn a_world_comes_apart_at_rest(rt: HostRuntime) {
    comes_apart::<Brand>(&rt, Blanks::new());
}
