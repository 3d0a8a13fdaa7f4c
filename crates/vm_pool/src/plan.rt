//! How much of everything there is.

/// In so many frames a guest comes each day.
const FRAMES: u32 = 8192;

/// The days that are seen of so many frames. Of more there are as many fewer.
const DAYS: u32 = 180;

/// How much there is in a zone.
#[derive(Clone, Copy)]
pub struct Plan {
    pub days: u32,
    /// The guests that come in a day.
    pub guests: u32,
    /// The frames that the small pages leave free in the morning: one in eight.
    pub spare: u32,
    /// The small pages that are there after that: in one of four frames.
    pub small_pages: usize,
}

impl Plan {
    pub fn of(frames: u32) -> Self {
        Plan {
            days: (DAYS * FRAMES).checked_div(frames).unwrap_or(0).max(1),
            guests: frames / FRAMES,
            spare: frames / 8,
            small_pages: (frames / 4) as usize,
        }
    }
}
