ghost use Rattle.std.specs.Prelude.{◌≡◌, OnErr, OnOk};
ghost use Rattle.machine_core.specs.OneThread.{IsStep, Opens};
ghost use Rattle.script_core.specs.WithThreads.{WithThreads};

use frame_core::ZoneNo;
use std::alloc::AllocError;
use text_core::{Command, Reply};

/// What a machine with threads does as one on one thread does it.
pub(crate) trait BaseMachine {
    /// What contracts see of the machine.
    ghost seen: { Self → WithThreads };

    /// The number of the zone that a round left broken, if one did.
    fn broken_zone(&self) -> Option<ZoneNo>
        ensures { result ≡ (seen self.now).broken };

    /// Answers a command as on one thread, and writes the reply over the one that is passed. It fails only for want of memory.
    fn reply_alone(&mut self, command: Command, reply: &mut Reply) -> Result<(), AllocError>
        ensures ok { OnOk result (IsStep (seen self.old).single command reply.new (seen self.new).single) }
        ensures memory { OnErr result (Opens (seen self.old).single command) }
        ensures broken { (seen self.new).broken ≡ (seen self.old).broken }
        ensures client { (seen self.new).client ≡ (seen self.old).client };
}
