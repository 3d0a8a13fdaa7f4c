//! What the thread of a keeper did.

ghost use Rattle.std.specs.Prelude.{◌≡◌};
ghost use Rattle.keeper_thread.specs.Working.{worked};

use keeper_core::Step;
use zone_core::ZoneError;

/// What a keeper's thread did. A count stays at 2^64 - 1 once it is there.
#[derive(Clone, Copy, Debug, Default, PartialEq, Eq)]
pub struct Work {
    /// How often the keeper was woken while it slept.
    pub wakes: u64,
    /// How many steps it made.
    pub steps: u64,
    /// How many pages they moved.
    pub pages: u64,
    /// How many of them claimed a run.
    pub claimed: u64,
    /// How many of them found nothing to do.
    pub rests: u64,
    /// How many of them were refused.
    pub refused: u64,
}

impl Work {
    /// Counts a step.
    pub(crate) fn add(&mut self, made: &Result<Step, ZoneError>)
        ensures { self.new ≡ worked self.old made.now }
    {
        self.steps = self.steps.saturating_add(1);
        let Ok(step) = made else {
            self.refused = self.refused.saturating_add(1);
            return;
        };
        match step {
            Step::Emptied { pages, .. } => self.pages = self
                .pages
                .saturating_add(u64::from(*pages)),
            Step::Claimed { .. } => self.claimed = self.claimed.saturating_add(1),
            Step::Rested => self.rests = self.rests.saturating_add(1),
        }
    }
}
