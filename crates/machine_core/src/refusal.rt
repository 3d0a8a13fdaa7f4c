ghost use Rattle.std.specs.Prelude.{◌≡◌};
ghost use Rattle.machine_core.specs.Refusals.{number_of};
ghost use Rattle.text_core.specs.declared.reply.Reply.TheVariants as reply;

use text_core::Reply;

/// Why the machine of a script refuses a command itself, without a call of the zone.
#[derive(Clone, Copy, Debug, PartialEq, Eq)]
pub enum Refusal {
    /// An argument is out of its range.
    OutOfRange,
    /// No thread can be had.
    NoWorker,
    /// A round of the zone failed, and the zone was given up.
    BrokenZone,
    /// The zone isn't the one that is open.
    OtherZone,
    /// A zone is open already.
    AlreadyOpen,
    /// A round is open by hand.
    OpenRound,
}

impl Refusal {
    /// The refusal's number, that a script prints.
    #[inline(always)]
    pub fn number(self) -> u16
        ensures { result ≡ number_of self }
    {
        match self {
            Refusal::OutOfRange => 1,
            Refusal::NoWorker => 32,
            Refusal::BrokenZone => 33,
            Refusal::OtherZone => 43,
            Refusal::AlreadyOpen => 44,
            Refusal::OpenRound => 45,
        }
    }

    /// The reply that tells it.
    #[inline(always)]
    pub fn reply(self) -> Reply
        ensures { result ≡ reply.Refused (number_of self) }
    {
        Reply::Refused(self.number())
    }
}
