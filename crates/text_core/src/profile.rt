ghost use Rattle.std.specs.Prelude.{◌≡◌};
ghost use Rattle.text_core.specs.Profile.{profile_told};

use crate::command::Command;

/// By which profile a script is read. Its first line that isn't skipped decides.
#[derive(Clone, Copy, Debug)]
pub enum Profile {
    /// No line has decided yet.
    Untold,
    One,
    Two,
}

impl Profile {
    /// The profile by which the lines after a command are read.
    pub fn after(self, command: &Command) -> Profile
        ensures { result ≡ profile_told command.now self }
    {
        match self {
            Profile::Untold => match command {
                Command::Profile2 => Profile::Two,
                _ => Profile::One,
            },
            told => told,
        }
    }
}
