//! Calls of a client with plain numbers, and their answers, for tables of tests.

use super::opening::Shared;
use bitflags::Flags;
use client_core::{Client, ClientError, NoSlip, Receipts};
use frame_core::{Address, ClientNo, FrameNo, PageFlags, SpaceNo, VPage, WordNo};
use round_core::ZoneIdentity;
use std::process::Abort;
use std::sync::Wait;
use zone_core::{Opening, ZoneError};

/// A call of a client. Addresses are virtual pages of one space.
#[derive(Clone, Copy, Debug)]
pub enum Call {
    Map(u32),
    MapUnmovable(u32),
    MapAt(u32, u32),
    MapAtUnmovable(u32, u32),
    Share(u32, u32),
    Unmap(u32),
    Load(u32, u32),
    Store(u32, u32, u64),
    /// Eight words, from one on.
    Read(u32, u32),
    /// The same value in eight words, from one on.
    Write(u32, u32, u64),
    Pin(u32),
    Unpin(u32),
}

/// What a call of a client answers.
#[derive(Clone, Copy, Debug, PartialEq, Eq)]
pub enum Answer {
    Done,
    Frame(u32),
    Value(u64),
    Values([u64; 8]),
    Refused(ZoneError),
    NoMemory,
}

/// A client that has made no call.
pub fn client_of<R: Abort + AllocGlobal>(rt: &R, number: u32) -> Client {
    Client::new(rt.alloc(), client_number(rt, number))
}

pub fn client_number(rt: &impl Abort, number: u32) -> ClientNo {
    ClientNo::new(number).expect(rt, "a client")
}

/// The address of a virtual page in space 3.
fn address(rt: &impl Abort, number: u32) -> Address {
    let space = SpaceNo::new(3).expect(rt, "a space");
    let vpage = VPage::new(number).expect(rt, "a virtual page");
    Address { space, vpage }
}

fn word(rt: &impl Abort, number: u32) -> WordNo {
    WordNo::new(number).expect(rt, "a word")
}

fn frame(rt: &impl Abort, number: u32) -> FrameNo {
    FrameNo::new(number).expect(rt, "a frame")
}

fn refusal(error: ClientError) -> Answer {
    match error {
        ClientError::Memory => Answer::NoMemory,
        ClientError::Zone(refusal) => Answer::Refused(refusal),
    }
}

fn done(made: Result<(), ClientError>) -> Answer {
    match made {
        Ok(()) => Answer::Done,
        Err(error) => refusal(error),
    }
}

fn mapped(made: Result<FrameNo, ClientError>) -> Answer {
    match made {
        Ok(frame) => Answer::Frame(frame.get()),
        Err(error) => refusal(error),
    }
}

fn loaded(made: Result<u64, ClientError>) -> Answer {
    match made {
        Ok(value) => Answer::Value(value),
        Err(error) => refusal(error),
    }
}

fn read(made: Result<(), ClientError>, words: [u64; 8]) -> Answer {
    match made {
        Ok(()) => Answer::Values(words),
        Err(error) => refusal(error),
    }
}

impl<Z: Opening + ZoneIdentity + Send + Sync> Shared<Z> {
    /// Makes a call.
    pub fn made<T: Receipts, R: Wait + Abort>(
        &self,
        rt: &R,
        client: &mut Client<NoSlip, T>,
        call: Call,
    ) -> Answer {
        let zone = &self.zone;
        match call {
            Call::Map(at) => mapped(client.map(rt, zone, address(rt, at), PageFlags::empty())),
            Call::MapUnmovable(at) => {
                mapped(client.map(rt, zone, address(rt, at), PageFlags::UNMOVABLE))
            }
            Call::MapAt(at, number) => {
                let (address, frame) = (address(rt, at), frame(rt, number));
                done(client.map_at(rt, zone, address, PageFlags::empty(), frame))
            }
            Call::MapAtUnmovable(at, number) => {
                let (address, frame) = (address(rt, at), frame(rt, number));
                done(client.map_at(rt, zone, address, PageFlags::UNMOVABLE, frame))
            }
            Call::Share(at, alias) => {
                done(client.share(rt, zone, address(rt, at), address(rt, alias)))
            }
            Call::Unmap(at) => done(client.unmap(rt, zone, address(rt, at))),
            Call::Load(at, number) => {
                loaded(client.load(rt, zone, address(rt, at), word(rt, number)))
            }
            Call::Store(at, number, value) => {
                done(client.store(rt, zone, address(rt, at), word(rt, number), value))
            }
            Call::Read(at, from) => {
                let mut words = [9; 8];
                let made = client.read(rt, zone, address(rt, at), word(rt, from), &mut words);
                read(made, words)
            }
            Call::Write(at, from, value) => {
                done(client.write(rt, zone, address(rt, at), word(rt, from), &[value; 8]))
            }
            Call::Pin(at) => done(client.pin(rt, zone, address(rt, at))),
            Call::Unpin(at) => done(client.unpin(rt, zone, address(rt, at))),
        }
    }

    /// Makes calls, one after the other, and compares their answers.
    pub fn play<T: Receipts, R: Wait + Abort>(
        &self,
        rt: &R,
        client: &mut Client<NoSlip, T>,
        table: &[(Call, Answer)],
    ) {
        for (call, wanted) in table {
            let answer = self.made(rt, client, *call);
            assert_eq!(rt; answer, *wanted, "{call:?}");
        }
    }
}
