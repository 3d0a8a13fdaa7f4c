//! A moving page in the hands of a worker.

ghost use Rattle.std.specs.Prelude.{◌≡◌};
ghost use Rattle.worker_threads.specs.Hands.{AreOf};

use crate::identity::MemoryIdentity;
use row_core::{Half, Row};
use std::marker::{Model, PhantomData};
use zone_tables::Move;

/// A moving page that a worker carries, without the zone: half of the right to the words that it leaves, which can be read and which
/// nobody writes, and the row that it goes to. The zone keeps the other half. Where it is dropped, the page is on its way for ever.
#[derive(Drop)]
pub struct PageInHand<K: MemoryIdentity, const W: usize> {
    place: usize,
    way: Move,
    from: Half,
    to: Row,
    of: PhantomData<K>,
}

impl<K: MemoryIdentity, const W: usize> Model for PageInHand<K, W> {
    ghost use Rattle.std.specs.Coded.{codes};
    ghost use Rattle.worker_threads.specs.Hands.{AreOf, PageInHand as Seen};

    ghost Value = { Seen };

    ghost coded = { Prim.hlevel codes };

    ghost view = { λ p. record { place = p.place; way = p.way; from = p.from.words; to = p.to.words } };

    ghost invariant = { λ p. AreOf K.memory W p.way p.from p.to };
}

impl<K: MemoryIdentity, const W: usize> PageInHand<K, W> {
    /// A page with its rows, whose other half has this place under the lock.
    pub(crate) fn new(place: usize, way: Move, from: Half, to: Row) -> Self
        requires { AreOf K.memory W way from to }
        ensures { result ≡ record { place = place; way = way; from = from.words; to = to.words } }
    {
        PageInHand {
            place,
            way,
            from,
            to,
            of: PhantomData,
        }
    }

    /// The place under the lock where the other half is.
    pub(crate) fn place(&self) -> usize
        ensures { result ≡ self.now.place }
    {
        self.place
    }

    /// Its number and serial, and the two frames.
    pub fn way(&self) -> Move
        ensures { result ≡ self.now.way }
    {
        self.way
    }

    /// Copies the words of the frame that it leaves into the one that it goes to.
    pub fn copy(self) -> CopiedPage<K, W>
        ensures { result ≡ record self { to = self.from } }
    {
        let PageInHand { mut to, from, .. } = self;
        to.words_mut().copy_from_slice(from.words());
        CopiedPage {
            page: PageInHand { to, from, ..self },
        }
    }

    /// Both rows.
    pub(crate) fn into_rows(self) -> (Half, Row)
        ensures lie { AreOf K.memory W self.way result.0 result.1 }
        ensures words { (result.0.words ≡ self.from) × (result.1.words ≡ self.to) }
    {
        (self.from, self.to)
    }
}

/// The same after the copy: the words of both frames are the same.
#[derive(Drop)]
pub struct CopiedPage<K: MemoryIdentity, const W: usize> {
    page: PageInHand<K, W>,
}

impl<K: MemoryIdentity, const W: usize> Model for CopiedPage<K, W> {
    ghost use Rattle.std.specs.Prelude.{◌≡◌};
    ghost use Rattle.std.specs.Coded.{codes};
    ghost use Rattle.worker_threads.specs.Hands.{PageInHand as Seen};

    ghost Value = { Seen };

    ghost coded = { Prim.hlevel codes };

    ghost view = { λ p. p.page };

    ghost invariant = { λ p. p.page.to ≡ p.page.from };
}

impl<K: MemoryIdentity, const W: usize> CopiedPage<K, W> {
    /// The page.
    pub fn page(&self) -> &PageInHand<K, W>
        ensures { result.now ≡ self.now }
    {
        &self.page
    }

    /// The page without what is known of its copy.
    pub(crate) fn into_page(self) -> PageInHand<K, W>
        ensures page { result ≡ self }
        ensures same { result.to ≡ result.from }
    {
        self.page
    }
}
