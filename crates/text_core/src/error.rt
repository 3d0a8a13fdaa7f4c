ghost use Rattle.std.specs.Prelude.{◌≡◌};
ghost use Rattle.text_core.specs.ErrorNumber.{script_error_number};

use thiserror::Error;

/// Why a line can't be read.
#[derive(Clone, Copy, Debug, PartialEq, Eq, Error)]
pub enum ScriptError {
    #[error("the line is no command")]
    Syntax,
    #[error("the line has more than 200 bytes")]
    LongLine,
}

impl ScriptError {
    /// The number of the fault, 41 or 42.
    pub fn number(&self) -> u16
        ensures { result ≡ script_error_number self.now }
    {
        match self {
            ScriptError::Syntax => 41,
            ScriptError::LongLine => 42,
        }
    }
}
