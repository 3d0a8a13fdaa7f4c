ghost use Rattle.std.specs.Prelude.{◌<◌, ◌≤◌};

/// How many threads copy pages, and for how many pages there is room on their way to them.
#[derive(Clone, Copy)]
pub struct Setting {
    /// 1 to 4.
    pub threads: usize,
    /// 1 to 64.
    pub capacity: usize,
    ghost threads_in_range: { (0 < threads) × (threads ≤ 4) },
    ghost capacity_in_range: { (0 < capacity) × (capacity ≤ 64) },
}

pub const SETTINGS: [Setting; 9] = [
    Setting {
        threads: 1,
        capacity: 1,
    },
    Setting {
        threads: 1,
        capacity: 8,
    },
    Setting {
        threads: 1,
        capacity: 64,
    },
    Setting {
        threads: 2,
        capacity: 1,
    },
    Setting {
        threads: 2,
        capacity: 8,
    },
    Setting {
        threads: 2,
        capacity: 64,
    },
    Setting {
        threads: 4,
        capacity: 1,
    },
    Setting {
        threads: 4,
        capacity: 8,
    },
    Setting {
        threads: 4,
        capacity: 64,
    },
];
