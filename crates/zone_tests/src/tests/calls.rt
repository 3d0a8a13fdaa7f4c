//! Calls of clients with plain numbers, for tables of tests.

ghost use Rattle.std.specs.Prelude.{◌≤◌};

use super::answers::{Answer, Shown};
use super::{address, block, frame, order, word};
use std::process::Abort;
use zone_core::{ZoneAnswer, ZoneCallOf, ZoneError};

/// An address: a space and a virtual page.
pub type Name = (u32, u32);

/// The address of a page that a zone has from its opening on, and that some worlds are given.
pub const PAGE: Name = (7, 9);

/// A call by client 2.
#[derive(Clone, Copy)]
pub enum Call {
    Map(Name),
    MapUnmovable(Name),
    MapAt(Name, u32),
    Share(Name, Name),
    Unmap(Name),
    Load(Name, u32),
    Store(Name, u32, u64),
    Pin(Name),
    Unpin(Name),
    /// Of a block of this order.
    TakeOrder(u32),
    /// Of the block with this first frame and this order.
    GiveOrder(u32, u32),
    Mark(u32),
    Unmark(u32),
}

/// The call as a value.
pub fn value_of<const W: usize>(rt: &impl Abort, call: Call) -> ZoneCallOf<W>
    requires { W ≤ 65536 }
{
    match call {
        Call::Map(name) => mapping(rt, name, false),
        Call::MapUnmovable(name) => mapping(rt, name, true),
        Call::MapAt(name, number) => ZoneCallOf::MapAt {
            address: address(rt, name),
            unmovable: false,
            frame: frame(rt, number),
        },
        Call::Load(name, number) => ZoneCallOf::Load {
            address: address(rt, name),
            word: word(rt, number),
        },
        Call::Store(name, number, value) => ZoneCallOf::Store {
            address: address(rt, name),
            word: word(rt, number),
            value,
        },
        Call::Share(name, alias) => ZoneCallOf::Share {
            address: address(rt, name),
            alias: address(rt, alias),
        },
        _ => shorter_value_of(rt, call),
    }
}

fn mapping<const W: usize>(rt: &impl Abort, name: Name, unmovable: bool) -> ZoneCallOf<W> {
    ZoneCallOf::Map {
        address: address(rt, name),
        unmovable,
    }
}

/// A call as a value that names one address alone, or none.
fn shorter_value_of<const W: usize>(rt: &impl Abort, call: Call) -> ZoneCallOf<W> {
    match call {
        Call::Unmap(name) => ZoneCallOf::Unmap {
            address: address(rt, name),
        },
        Call::Pin(name) => ZoneCallOf::Pin {
            address: address(rt, name),
        },
        Call::Unpin(name) => ZoneCallOf::Unpin {
            address: address(rt, name),
        },
        Call::TakeOrder(number) => ZoneCallOf::TakeOrder {
            order: order(rt, number),
        },
        Call::GiveOrder(first, number) => ZoneCallOf::GiveOrder {
            first: frame(rt, first),
            order: order(rt, number),
        },
        Call::Mark(number) => ZoneCallOf::Mark {
            block: block(rt, number),
        },
        Call::Unmark(number) => ZoneCallOf::Unmark {
            block: block(rt, number),
        },
        _ => panic!(rt; "another call"),
    }
}

/// What the method of a call answers where the call as a value was answered so.
pub fn told(call: Call, answer: Result<ZoneAnswer, ZoneError>) -> Answer {
    match (call, answer.shown()) {
        (Call::MapAt(..), Answer::Frame(_)) => Answer::Done,
        (_, shown) => shown,
    }
}

/// Room for so many words that are read, each of them 1.
pub fn unread(rt: &(impl Abort + AllocGlobal), count: usize) -> Vec<u64> {
    let mut words = Vec::new(rt.alloc());
    for _ in 0..count {
        words.push(1).expect(rt, "memory");
    }
    words
}

/// The words that were read are the wanted ones, or none was read where the call was refused.
pub fn read_as(
    rt: &impl Abort,
    answer: Result<(), ZoneError>,
    words: &[u64],
    want: &[u64],
) -> Answer {
    match answer {
        Ok(()) => assert!(rt; words == want, "other words are read"),
        Err(_) => {
            for word in words {
                assert!(rt; *word == 1, "a refused call reads words");
            }
        }
    }
    answer.shown()
}
