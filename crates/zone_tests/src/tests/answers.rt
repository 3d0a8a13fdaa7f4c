//! Answers with plain numbers, for tables of tests, and how the answers of calls are shown so.

use super::calls::Name;
use frame_core::{BlockNo, FrameNo, Serial};
use machine_core::{Finished, Scanned, WorldError};
use std::process::Abort;
use zone_core::{Answered, Audit, Ended, Look, ZoneAnswer, ZoneError};

/// What a step with a zone or a world answers.
#[derive(Clone, Copy, PartialEq, Eq)]
pub enum Answer {
    Done,
    Frame(u32),
    Value(u64),
    Is(bool),
    At {
        frame: u32,
        dirty: bool,
        unmovable: bool,
        pins: u8,
        maps: u8,
    },
    Moving {
        serial: Serial,
        pins: u8,
        maps: u8,
    },
    Refused(ZoneError),
    /// A page is isolated, under the serial after the one before.
    Page,
    Serial(Serial),
    Met,
    Finished(Serial, Ended),
    /// The page isn't the zone's, or its copy has other words. It came back, and the zone is as before.
    Stranger,
    /// So many pages were isolated, moved and put back.
    Audited(u64, u64, u64),
    /// The seat has one part only.
    NoPart,
    /// The hand doesn't hold what the call needs, or no page waits.
    NotInHand,
    /// The record of a load: by which client, of which word of which page, and its value.
    Loaded(u32, Name, u16, u64),
}

/// A step of a case has the answer that its row wants.
pub fn assert_answer(rt: &impl Abort, answer: Answer, want: Answer, case: &str, step: usize) {
    assert!(rt; answer == want, "{case}, step {step}");
}

/// What a call gives, shown with plain numbers.
pub trait Shown {
    fn shown(self) -> Answer;
}

impl<T: Shown, E: Shown> Shown for Result<T, E> {
    fn shown(self) -> Answer {
        match self {
            Ok(given) => given.shown(),
            Err(error) => error.shown(),
        }
    }
}

impl Shown for ZoneError {
    fn shown(self) -> Answer {
        Answer::Refused(self)
    }
}

impl Shown for WorldError {
    fn shown(self) -> Answer {
        match self {
            WorldError::Zone(error) => error.shown(),
            WorldError::Hand => Answer::NotInHand,
        }
    }
}

impl Shown for () {
    fn shown(self) -> Answer {
        Answer::Done
    }
}

impl Shown for u32 {
    fn shown(self) -> Answer {
        Answer::Value(u64::from(self))
    }
}

impl Shown for u64 {
    fn shown(self) -> Answer {
        Answer::Value(self)
    }
}

impl Shown for FrameNo {
    fn shown(self) -> Answer {
        Answer::Frame(self.get())
    }
}

impl Shown for BlockNo {
    fn shown(self) -> Answer {
        self.get().shown()
    }
}

impl Shown for ZoneAnswer {
    fn shown(self) -> Answer {
        match self {
            ZoneAnswer::Done => Answer::Done,
            ZoneAnswer::Value(value) => value.shown(),
            ZoneAnswer::Frame(first) => first.shown(),
            ZoneAnswer::Mapped { frame, .. } => frame.shown(),
        }
    }
}

impl Shown for Look {
    fn shown(self) -> Answer {
        match self {
            Look::At {
                frame,
                flags,
                pins,
                maps,
            } => Answer::At {
                frame: frame.get(),
                dirty: flags.is_dirty(),
                unmovable: flags.is_unmovable(),
                pins,
                maps,
            },
            Look::Moving { serial, pins, maps } => Answer::Moving { serial, pins, maps },
        }
    }
}

impl Shown for Scanned {
    fn shown(self) -> Answer {
        match self {
            Scanned::Serial(serial) => Answer::Serial(serial),
            Scanned::Met => Answer::Met,
        }
    }
}

impl Shown for Answered {
    fn shown(self) -> Answer {
        match self {
            Answered::Page => Answer::Page,
            Answered::Met => Answer::Met,
            Answered::JournalFull => ZoneError::JournalFull.shown(),
        }
    }
}

impl Shown for Finished {
    fn shown(self) -> Answer {
        Answer::Finished(self.serial, self.ended)
    }
}

impl Shown for Audit {
    fn shown(self) -> Answer {
        Answer::Audited(self.isolated, self.moved, self.back)
    }
}
