use frame_core::{FrameNo, PageFlags, Serial};

/// The counts of a zone. Free frames, pages, moving pages and held frames add up to the frames of the zone, since a moving page has two.
#[derive(Clone, Copy, Debug, PartialEq, Eq)]
pub struct Info {
    /// Free frames.
    pub free: u32,
    /// Pages in use, moving ones too.
    pub pages: u32,
    /// Moving pages.
    pub moving: u32,
    /// Blocks that are handed out.
    pub huge: u32,
    /// Pageblocks whose 512 frames are all free.
    pub whole: u32,
    /// Frames that are held: those of the blocks that are handed out, and those that are claimed.
    pub held: u32,
}

/// What is known of the page that an address names.
#[derive(Clone, Copy, Debug, PartialEq, Eq)]
pub enum Look {
    /// It is in this frame.
    At {
        frame: FrameNo,
        flags: PageFlags,
        /// How many pins it has, 0 to 255.
        pins: u8,
        /// How many addresses name it, 1 to 4.
        maps: u8,
    },
    /// It is moving under this serial.
    Moving {
        serial: Serial,
        pins: u8,
        maps: u8,
    },
}

/// What a zone and its seats agree on when no page is moving: each page that was isolated was moved or put back.
#[derive(Clone, Copy, Debug, PartialEq, Eq)]
pub struct Audit {
    pub isolated: u64,
    pub moved: u64,
    pub back: u64,
}
