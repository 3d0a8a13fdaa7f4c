//! Steps with the words of a zone's page and of its blocks.

ghost use Rattle.std.specs.Prelude.{◌≤◌};

use super::super::answers::{Answer, Shown};
use super::super::calls::{PAGE, read_as, unread};
use super::super::{address, client, frame, order, word};
use super::{Block, Opened};
use frame_core::{FrameNo, Order};
use std::process::Abort;
use zone_core::Opening;

impl<const W: usize, Z: Opening> Opened<W, Z> {
    pub fn write(&mut self, rt: &impl Abort, from: u32, values: &[u64]) -> Answer
        requires { W ≤ 65536 }
    {
        let (page, from) = (address(rt, PAGE), word(rt, from));
        self.zone.write(client(rt), page, from, values).shown()
    }

    pub fn read(&mut self, rt: &(impl Abort + AllocGlobal), from: u32, want: &[u64]) -> Answer
        requires { W ≤ 65536 }
    {
        let (page, from) = (address(rt, PAGE), word(rt, from));
        let mut words = unread(rt, want.len());
        let answer = self.zone.read(client(rt), page, from, &mut words);
        read_as(rt, answer, &words, want)
    }

    pub fn write_block(
        &mut self,
        rt: &impl Abort,
        block: Block,
        from: usize,
        values: &[u64],
    ) -> Answer {
        let (first, order) = placed(rt, block);
        self.zone.write_block(first, order, from, values).shown()
    }

    pub fn read_block(
        &mut self,
        rt: &(impl Abort + AllocGlobal),
        block: Block,
        from: usize,
        want: &[u64],
    ) -> Answer {
        let (first, order) = placed(rt, block);
        let mut words = unread(rt, want.len());
        let answer = self.zone.read_block(first, order, from, &mut words);
        read_as(rt, answer, &words, want)
    }

    pub fn lend(&mut self, rt: &impl Abort, block: Block, value: u64, last: u64) -> Answer {
        let (first, order) = placed(rt, block);
        let lent = self.zone.with_block(first, order, |words| {
            words.fill(value);
            if let Some(word) = words.last_mut() {
                *word = last;
            }
            words.len() as u64
        });
        lent.shown()
    }
}

fn placed(rt: &impl Abort, block: Block) -> (FrameNo, Order) {
    let (first, number) = block;
    (frame(rt, first), order(rt, number))
}
