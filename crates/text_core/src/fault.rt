ghost use Rattle.std.specs.Prelude.{◌≡◌, ◌↔◌, IsTrue};
ghost use Rattle.text_core.specs.FaultNumber.{fault_number, fault_of_line};

use crate::error::ScriptError;
use thiserror::Error;

/// What may end a run before the end of its script.
#[derive(Clone, Copy, Debug, PartialEq, Eq)]
pub enum Fault {
    /// A line is no command, or the last line has no newline, or a block has no end or more than 1,000 client lines.
    Syntax,
    /// A line has more than 200 bytes.
    LongLine,
    /// The script can't be read on.
    Read,
    /// A reply can't be written.
    Write,
    /// There is not enough memory for the zone, or for a block.
    Memory,
}

impl From<ScriptError> for Fault {
    ghost from_gives = { λ error fault. fault ≡ fault_of_line error };

    fn from(error: ScriptError) -> Fault {
        match error {
            ScriptError::Syntax => Fault::Syntax,
            ScriptError::LongLine => Fault::LongLine,
        }
    }
}

impl Fault {
    /// The number of the fault: 41, 42, or 46 to 48.
    pub fn number(&self) -> u16
        ensures { result ≡ fault_number self.now }
    {
        match self {
            Fault::Syntax => 41,
            Fault::LongLine => 42,
            Fault::Read => 46,
            Fault::Write => 47,
            Fault::Memory => 48,
        }
    }
}

/// Why a run ended, and at which line. Lines count from 1. For Read it is the line that was being read, for Write the one whose reply
/// wasn't taken whole, for Memory that of the `zone` or `during`.
#[derive(Clone, Copy, Debug, PartialEq, Eq, Error)]
#[error("fault {} at line {line}", .fault.number())]
pub struct RunError {
    pub fault: Fault,
    pub line: u64,
}

impl RunError {
    /// The number of the fault.
    pub fn number(&self) -> u16
        ensures { result ≡ fault_number self.now.fault }
    {
        self.fault.number()
    }

    /// Whether a reply couldn't be written.
    pub(crate) fn is_of_writer(&self) -> bool
        ensures { IsTrue result ↔ (self.now.fault ≡ Fault.Write) }
    {
        matches!(self.fault, Fault::Write)
    }
}
