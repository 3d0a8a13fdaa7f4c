ghost use Rattle.std.specs.Prelude.{⊤, ◌≡◌, ◌==◌, [], ◌∷◌, codes};
ghost use Rattle.frame_core.specs.PageFlags.{is_unmovable, is_dirty, page_flags};

use bitflags::{Flag, Flags, bitflag_items};

/// What a zone notes of a page. UNMOVABLE is set where the page was mapped as unmovable, and DIRTY once it was stored to.
#[derive(Clone, Copy, Debug, PartialEq, Eq)]
pub struct PageFlags(u8);

bitflag_items! {
    impl PageFlags: u8 {
        const UNMOVABLE = 1;
        const DIRTY = 2;
    }
}

impl Flags for PageFlags {
    type Bits = u8;

    ghost exact = { ⊤ };

    ghost table = { (codes "UNMOVABLE", 1) ∷ (codes "DIRTY", 2) ∷ [] };

    ghost set_of = { λ p. p.0 };

    fn flags<'a>() -> &'a [Flag<PageFlags>] {
        PageFlags::FLAGS
    }

    fn bits(&self) -> u8 {
        self.0
    }

    fn from_bits_retain(bits: u8) -> PageFlags {
        PageFlags(bits)
    }
}

impl PageFlags {
    /// The flags of a page that was mapped as unmovable or not, and that was stored to or not.
    pub fn of(unmovable: bool, dirty: bool) -> Self
        ensures flags { result ≡ page_flags unmovable dirty }
        ensures unmovable { is_unmovable result ≡ unmovable }
        ensures dirty { is_dirty result ≡ dirty }
    {
        match (unmovable, dirty) {
            (false, false) => PageFlags(0),
            (true, false) => PageFlags::UNMOVABLE,
            (false, true) => PageFlags::DIRTY,
            (true, true) => PageFlags::UNMOVABLE.union(PageFlags::DIRTY),
        }
    }

    /// Whether the page was mapped as unmovable.
    pub fn is_unmovable(self) -> bool
        ensures { result ≡ is_unmovable self }
    {
        self.contains(PageFlags::UNMOVABLE)
    }

    /// Whether the page was stored to since it was mapped.
    pub fn is_dirty(self) -> bool
        ensures { result ≡ is_dirty self }
    {
        self.contains(PageFlags::DIRTY)
    }
}
