ghost use Rattle.std.specs.Prelude.{ℕ, List, [], ◌∷◌, IfOk, OnErr, OnOk};
ghost use Rattle.text_core.specs.declared.command.Command.{Command};
ghost use Rattle.text_core.specs.Script.{Answer, Numbered, command_in_block, command_of_line};

use crate::answer::Answers;
use crate::block::Block;
use crate::command::Command;
use crate::reply::Reply;
use std::alloc::AllocError;

/// A machine that answers the commands of a script.
pub trait Respond {
    /// Whether a machine may give these answers to a command and its client lines, and be this machine afterwards.
    ghost may: { Self → Numbered → List Answer → Self → Type 0 };

    /// Whether a command needs memory.
    ghost asks: { Self → Command → Type 0 };

    /// Whether the machine may be asked.
    ghost ready: { Self → Type 0 };

    /// Answers a command of one line, whatever its number, and writes the reply over the one that is passed. It fails only for
    /// want of memory.
    fn respond(&mut self, command: Command, reply: &mut Reply) -> Result<(), AllocError>
        requires ready { ready self.old }
        ensures ok { OnOk result ((line : ℕ) → may self.old (command_of_line line command) (record { line = line; reply = reply.new } ∷ []) self.new) }
        ensures memory { OnErr result (asks self.old command) }
        ensures still { ready self.new };

    /// Answers a block. It fails only for want of memory.
    fn respond_to_block(&mut self, block: Block) -> Result<Answers, AllocError>
        requires ready { ready self.old }
        ensures ok { IfOk result (λ answers. may self.old (command_in_block block) answers self.new) }
        ensures memory { OnErr result (asks self.old (command_in_block block).command) }
        ensures still { ready self.new };
}
