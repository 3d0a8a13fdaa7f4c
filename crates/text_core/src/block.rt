ghost use Rattle.std.specs.Prelude.{◌≡◌, ◌<◌, ◌≤◌, ◌++◌, ◌↔◌, [], ◌∷◌, IsTrue, IfOk, length, vec_len, vec_capacity};

use crate::answer::{Answer, Answers};
use crate::reply::Reply;
use state_core::ClientCall;
use std::alloc::{AllocError, Global};
use std::marker::Model;

/// How many client lines a block may have.
const MOST: usize = 1000;

/// A line of a client: its number, and its call, or None where an argument is out of its range.
#[derive(Clone, Copy, Debug, PartialEq, Eq)]
pub struct ClientLine {
    line: u64,
    call: Option<ClientCall>,
}

impl Model for ClientLine {
    ghost use Rattle.text_core.specs.Script.{ClientLine as Seen};

    ghost Value = { Seen };

    ghost view = { λ c. record { line = c.line; call = c.call } };

    ghost inverse = { λ c. record { line = c.line; call = c.call } };
}

impl ClientLine {
    /// A client line with this number. Its call is None where an argument is out of its range.
    pub fn new(line: u64, call: Option<ClientCall>) -> Self
        ensures { result ≡ record { line = line; call = call } }
    {
        ClientLine { line, call }
    }

    /// The number of the line, counted from 1.
    pub fn line(&self) -> u64
        ensures { result ≡ self.now.line }
    {
        self.line
    }

    /// The call of the line, or None where an argument is out of its range.
    pub fn call(&self) -> Option<ClientCall>
        ensures { result ≡ self.now.call }
    {
        self.call
    }
}

/// What begins blocks. It gives its allocator to nobody, so whoever has it can ask for no other memory than that of a block.
#[derive(Drop)]
pub(crate) struct Blocks {
    alloc: Global,
}

impl Blocks {
    /// Blocks whose memory this allocator gives.
    pub(crate) fn new(alloc: Global) -> Self {
        Blocks { alloc }
    }

    /// A block that begins at this line, or an error where there isn't enough memory. It takes all of its memory here.
    pub(crate) fn begin(&self, line: u64, zone: u64) -> Result<Block, AllocError>
        ensures { IfOk result (λ block. block ≡ record { line = line; zone = zone; clients = [] }) }
    {
        let parts = Parts {
            line,
            zone,
            clients: Vec::with_capacity(self.alloc, MOST)?,
            answers: Vec::with_capacity(self.alloc, MOST)?,
        };
        Ok(Block {
            parts: Box::new(self.alloc, parts)?,
        })
    }
}

/// A block that has begun. It is one pointer, so that moving it is cheap.
#[derive(Drop)]
pub struct Block {
    parts: Box<Parts>,
}

/// The line of a block's `during`, the number of its zone, and its client lines so far. There is room for all client lines that it
/// may have, and for their answers.
#[derive(Drop)]
struct Parts {
    line: u64,
    zone: u64,
    clients: Vec<ClientLine>,
    answers: Vec<Answer>,
}

impl Model for Block {
    ghost use Rattle.std.specs.Prelude.{◌≡◌, ◌≤◌, [], vec_len, vec_capacity};
    ghost use Rattle.text_core.specs.Script.{Block as Seen};

    ghost Value = { Seen };

    ghost view = { λ b. let p = b.parts.value in record { line = p.line; zone = p.zone; clients = p.clients.items } };

    ghost invariant = { λ b. let p = b.parts.value in (vec_len p.clients ≤ 1000) × (1000 ≤ vec_capacity p.clients) × (p.answers.items ≡ []) × (1000 ≤ vec_capacity p.answers) };
}

impl Block {
    /// The number of the line of its `during`.
    pub fn line(&self) -> u64
        ensures { result ≡ self.now.line }
    {
        self.parts.line
    }

    /// The number of the zone in its `during`, which may be out of range.
    pub fn zone(&self) -> u64
        ensures { result ≡ self.now.zone }
    {
        self.parts.zone
    }

    /// Whether it has as many client lines as it may have.
    pub fn is_full(&self) -> bool
        ensures full { IsTrue result ↔ (1000 ≤ length self.now.clients) }
        ensures most { length self.now.clients ≤ 1000 }
    {
        MOST <= self.parts.clients.len()
    }

    /// Adds one more client line.
    pub fn push(&mut self, client: ClientLine)
        requires { length self.old.clients < 1000 }
        ensures { self.new ≡ record self.old { clients = self.old.clients ++ client ∷ [] } }
    {
        self.parts.clients.push_reserved(client);
    }

    /// The answers with one reply to the block itself, and none to its client lines.
    pub fn answered(self, reply: Reply) -> Answers
        ensures { result ≡ record { line = self.line; reply = reply } ∷ [] }
    {
        let Parts { line, answers, .. } = Box::into_inner(self.parts);
        Answers::new(answers, Answer::new(line, reply))
    }

    /// Its client lines, and an empty list with room for as many answers.
    pub fn into_parts(self) -> (Vec<ClientLine>, Vec<Answer>)
        ensures clients { result.0.items ≡ self.clients }
        ensures answers { (result.1.items ≡ []) × (vec_len result.0 ≤ vec_capacity result.1) }
        ensures most { vec_len result.0 ≤ 1000 }
    {
        let Parts {
            clients,
            answers,
            ..
        } = Box::into_inner(self.parts);
        (clients, answers)
    }
}
