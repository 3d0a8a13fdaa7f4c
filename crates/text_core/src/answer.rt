ghost use Rattle.std.specs.Prelude.{◌≡◌, ◌≤◌, ◌++◌, [], ◌∷◌, vec_len};

use crate::reply::Reply;
use std::marker::Model;

/// A reply, with the number of the line that it answers.
#[derive(Drop, Debug)]
pub struct Answer {
    line: u64,
    reply: Reply,
}

impl Model for Answer {
    ghost use Rattle.text_core.specs.Script.{Answer as Seen};

    ghost Value = { Seen };

    ghost view = { λ a. record { line = a.line; reply = a.reply } };

    ghost inverse = { λ a. record { line = a.line; reply = a.reply } };
}

impl Answer {
    /// A reply to the line with this number.
    pub fn new(line: u64, reply: Reply) -> Self
        ensures { result ≡ record { line = line; reply = reply } }
    {
        Answer { line, reply }
    }

    /// The number of the line, and the reply.
    pub fn into_parts(self) -> (u64, Reply)
        ensures { self ≡ record { line = result.0; reply = result.1 } }
    {
        (self.line, self.reply)
    }
}

/// The answers to a block: those to its client lines, of which there are at most 1,000, in order, and after them its own.
#[derive(Drop)]
pub struct Answers {
    clients: Vec<Answer>,
    own: Answer,
}

impl Model for Answers {
    ghost use Rattle.std.specs.Prelude.{◌≤◌, List, [], ◌∷◌, ◌++◌, vec_len};
    ghost use Rattle.text_core.specs.Script.{Answer as Seen};

    ghost Value = { List Seen };

    ghost view = { λ a. a.clients.items ++ a.own ∷ [] };

    ghost invariant = { λ a. vec_len a.clients ≤ 1000 };
}

impl Answers {
    /// The answers to at most 1,000 client lines, and the block's own.
    pub fn new(clients: Vec<Answer>, own: Answer) -> Self
        requires { vec_len clients ≤ 1000 }
        ensures { result ≡ clients.items ++ own ∷ [] }
    {
        Answers { clients, own }
    }

    /// The answers to the client lines, and the block's own.
    pub fn into_parts(self) -> (Vec<Answer>, Answer)
        ensures parts { self ≡ result.0.items ++ result.1 ∷ [] }
        ensures most { vec_len result.0 ≤ 1000 }
    {
        (self.clients, self.own)
    }
}
