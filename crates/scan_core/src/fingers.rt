ghost use Rattle.std.specs.Prelude.{◌≡◌, ◌+◌};
ghost use Rattle.scan_core.specs.declared.fingers.Step.TheVariants.{Pair};

use frame_core::FrameNo;

/// Where the two scanners of a round stand, as frame numbers. The kernel's compaction has the same two scanners.
#[derive(Clone, Copy, Debug, PartialEq, Eq)]
pub struct Fingers {
    /// The migrate scanner has looked at all frames below this one, for a page to take.
    pub migrate: u32,
    /// The free scanner has looked at all frames from this one on, for a frame to take a page to.
    pub free: u32,
}

impl Fingers {
    /// The fingers of a zone in which no round has begun.
    pub fn new() -> Self
        ensures { result ≡ record { migrate = 0; free = 0 } }
    {
        Fingers {
            migrate: 0,
            free: 0,
        }
    }

    /// The fingers at the two ends of a zone of this many frames.
    pub fn at_ends(frames: u32) -> Self
        ensures { result ≡ record { migrate = 0; free = frames } }
    {
        Fingers {
            migrate: 0,
            free: frames,
        }
    }

    /// Passes over a pair: the migrate scanner stands one above the source then, and the free scanner at the target.
    #[inline(always)]
    pub(crate) fn pass(&mut self, source: FrameNo, target: FrameNo) -> Step
        ensures step { result ≡ Pair source target }
        ensures fingers { self.new ≡ record { migrate = source + 1; free = target } }
    {
        self.migrate = source.get() + 1;
        self.free = target.get();
        Step::Pair { source, target }
    }
}

/// What the scanners find next.
#[derive(Clone, Copy, Debug, PartialEq, Eq)]
pub enum Step {
    /// The page in the source may be taken to the target.
    Pair { source: FrameNo, target: FrameNo },
    /// The scanners met: there is no pair between the fingers.
    Met,
}
