ghost use Rattle.std.specs.Prelude.{◌≡◌, ℕ, Some};
ghost use Rattle.frame_core.specs.declared.state.FrameState.{FrameState as State};
ghost use Rattle.scan_core.specs.Frames.{is_free_state, is_leaving_state, page_held};
ghost use Rattle.scan_core.specs.KeptState.{IsState, kind_of, page_of, state_by};

use frame_core::{FrameState, PageNo, Tagged};
use std::marker::Model;

const FREE: u8 = 0;

const HOLDS: u8 = 1;

const SOURCE: u8 = 2;

const TARGET: u8 = 3;

const HUGE: u8 = 4;

/// The state of a frame in four bytes. A source and a target are told by the number of the page that is moving.
#[derive(Clone, Copy)]
pub(crate) struct KeptState {
    /// The number of the page, or 0 where there is none, and the kind of the state.
    page: Tagged,
}

impl Model for KeptState {
    ghost Value = { State ℕ };

    ghost view = { λ s. state_by s.page.tag s.page.number };

    ghost invariant = { λ s. IsState s.page.tag s.page.number };

    ghost inverse = { λ state. record { page = record { number = page_of state; tag = kind_of state } } };
}

impl KeptState {
    /// A state as it is kept.
    #[inline(always)]
    pub(crate) fn of(state: FrameState<PageNo>) -> Self
        ensures { result ≡ state }
    {
        let page = match state {
            FrameState::Free => Tagged::new(0, FREE),
            FrameState::Holds(page) => Tagged::new(page.get(), HOLDS),
            FrameState::Source(page) => Tagged::new(page.get(), SOURCE),
            FrameState::Target(page) => Tagged::new(page.get(), TARGET),
            FrameState::Huge => Tagged::new(0, HUGE),
        };
        KeptState { page }
    }

    /// Whether the state is that of a free frame.
    #[inline(always)]
    pub(crate) fn is_free(self) -> bool
        ensures { result ≡ is_free_state (Some self) }
    {
        self.page.tag() == FREE
    }

    /// Whether the state is that of a frame that a page is leaving.
    #[inline(always)]
    pub(crate) fn is_source(self) -> bool
        ensures { result ≡ is_leaving_state (Some self) }
    {
        self.page.tag() == SOURCE
    }

    /// The page of a frame that holds one.
    #[inline(always)]
    pub(crate) fn held_page(self) -> Option<PageNo>
        ensures { result ≡ page_held (Some self) }
    {
        if self.page.tag() != HOLDS {
            return None;
        }
        PageNo::in_any_zone(self.page.number())
    }

    /// The state that is kept.
    #[inline(always)]
    pub(crate) fn state(self) -> FrameState<PageNo>
        ensures { result ≡ self }
    {
        let Some(page) = PageNo::in_any_zone(self.page.number()) else {
            unreachable!();
        };
        match self.page.tag() {
            FREE => FrameState::Free,
            HOLDS => FrameState::Holds(page),
            SOURCE => FrameState::Source(page),
            TARGET => FrameState::Target(page),
            _ => FrameState::Huge,
        }
    }
}
