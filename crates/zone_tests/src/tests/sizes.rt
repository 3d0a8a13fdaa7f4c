//! Zones and worlds whose pages have 1, 8, 64 and 512 words.

ghost use Rattle.std.specs.Prelude.{◌≤◌};

use super::answers::Answer;
use super::calls::{Call, Name, PAGE, unread};
use super::trial::{Case, Size, tries};
use super::{address, client, word, world, zone};
use frame_core::ZoneNo;
use std::process::Abort;
use zone::Part;
use zone_core::{Answered, BareZone, Ended, ZoneError};

/// The address of a second page.
const OTHER: Name = (7, 10);

/// Plays rows with a zone that has so many places in its journal.
fn plays<'a>(
    rt: &(impl Abort + AllocGlobal),
    name: &'a str,
    size: Size,
    places: u32,
    rows: &'a [(zone::Step<'a>, Answer)],
) {
    let parts = [Part { times: 1, rows }];
    tries(rt, &Case::of_zone(name, size, places, &parts));
}

/// Words that go past the page are refused, and nothing is read or written. All words of the page are read, and each is noted.
fn refuses_words_past_the_page(rt: &(impl Abort + AllocGlobal), size: Size) {
    use zone::Step;
    let last = (size.words() - 1) as u32;
    let zeros = [0; 512];
    let rows = [
        (
            Step::Write(last, &[7; 2]),
            Answer::Refused(ZoneError::Range),
        ),
        (Step::Read(last, &[7; 2]), Answer::Refused(ZoneError::Range)),
        (Step::Read(0, &zeros[..size.words()]), Answer::Done),
        (Step::Write(last, &[7]), Answer::Done),
        (Step::Call(Call::Load(PAGE, last)), Answer::Value(7)),
        (Step::Journal, Answer::Value(3 + size.words() as u64)),
    ];
    plays(rt, "past the page", size, 4096, &rows);
}

/// With one place too few in the journal no word is written.
fn needs_a_place_for_each_word(rt: &(impl Abort + AllocGlobal), size: Size) {
    use zone::Step;
    let places = size.words();
    let words = [7; 512];
    let rows = [
        (
            Step::Write(0, &words[..places]),
            Answer::Refused(ZoneError::JournalFull),
        ),
        (Step::Journal, Answer::Value(1)),
        (Step::Write(0, &words[1..places]), Answer::Done),
        (Step::Journal, Answer::Value(places as u64)),
    ];
    plays(rt, "a full journal", size, places as u32, &rows);
}

/// Words of which no two are alike.
fn words_that_differ() -> [u64; 512] {
    let mut words = [0; 512];
    for (number, word) in words.iter_mut().enumerate() {
        *word = u64::MAX - number as u64;
    }
    words
}

/// A page that hand 1 moves has each of its words afterwards, and takes another value in its last one. Meanwhile it can't be read.
fn moves_by_hand(rt: &(impl Abort + AllocGlobal), size: Size) {
    use world::{CallForm, Step};
    let words = words_that_differ();
    let words = &words[..size.words()];
    let last = (size.words() - 1) as u32;
    let rows = [
        (Step::Call(Call::Map(PAGE)), Answer::Frame(0)),
        (Step::Write(words), Answer::Done),
        (Step::Scan, Answer::Serial(0)),
        (Step::Take(1), Answer::Serial(0)),
        (Step::Read(words), Answer::Refused(ZoneError::Moving)),
        (Step::Copy(1), Answer::Done),
        (Step::Finish(1), Answer::Finished(0, Ended::Moved)),
        (Step::Read(words), Answer::Done),
        (Step::Load(words), Answer::Done),
        (Step::Call(Call::Store(PAGE, last, 7)), Answer::Done),
        (Step::Call(Call::Load(PAGE, last)), Answer::Value(7)),
        (Step::Shut, Answer::Value(0)),
    ];
    let case = Case::of_world("a hand moves a page", size, CallForm::Method, &rows);
    tries(rt, &case);
}

/// A round on one thread moves two pages, and each has its own words afterwards.
fn compacts<const W: usize>(rt: &(impl Abort + AllocGlobal))
    requires { W ≤ 512 }
{
    let (differ, alike) = (words_that_differ(), [7; 512]);
    let pages = [(PAGE, &differ[..W]), (OTHER, &alike[..W])];
    let number = ZoneNo::new(3).expect(rt, "a zone");
    let mut zone = BareZone::<W>::open(rt.alloc(), number, 1, 4096).expect(rt, "a zone");
    for (name, words) in pages.iter() {
        let page = address(rt, *name);
        assert!(rt; zone.map(client(rt), page, false).is_ok());
        assert!(rt; zone.write(client(rt), page, word(rt, 0), words).is_ok());
    }
    assert!(rt; zone.compact() == Answered::Met);
    assert!(rt; zone.ended() == 2);
    for (name, words) in pages.iter() {
        let mut found = unread(rt, words.len());
        let answer = zone.read(client(rt), address(rt, *name), word(rt, 0), &mut found);
        assert!(rt; answer.is_ok() && found.as_slice() == *words);
    }
}

#[test]
fn a_round_on_one_thread_keeps_each_word(rt: HostRuntime) {
    compacts::<1>(&rt);
    compacts::<8>(&rt);
    compacts::<64>(&rt);
    compacts::<512>(&rt);
}

#[test]
fn pages_have_any_size(rt: HostRuntime) {
    for size in [
        Size::One,
        Size::Eight,
        Size::SixtyFour,
        Size::FiveHundredTwelve,
    ] {
        refuses_words_past_the_page(&rt, size);
        needs_a_place_for_each_word(&rt, size);
        moves_by_hand(&rt, size);
    }
}
