use std::marker::{Model, PhantomData};

/// A value as it was at one moment, for contracts alone. It has no bytes and owns nothing.
///
/// No memory fixes it. That `of` makes it of what the reference shows is proved by hand (`proofs/seen/Seen/of`), and so is that any
/// thread may have one. std has such a type too (`Snapshot`), but what holds one of those isn't found to be fit for threads.
pub(crate) struct Seen<T> {
    marker: PhantomData<T>,
    pub(crate) ghost value: { T },
}

impl<T> Model for Seen<T> {
    ghost use Rattle.std.specs.Borrow.{ftrue};

    ghost also_owns = { λ _. ftrue };
}

impl<T> Seen<T> {
    ghost use Rattle.std.specs.Prelude.{◌≡◌};

    /// What the reference shows now.
    pub(crate) fn of(shown: &T) -> Seen<T>
        ensures { result.value ≡ shown.now }
    {
        Seen {
            marker: PhantomData,
        }
    }
}

// It has no bytes, so any thread may have it.
unsafe impl<T> Send for Seen<T> {}

unsafe impl<T> Sync for Seen<T> {}

impl<T> Drop for Seen<T> {
    fn drop(self) {
        let Self { marker: _ } = self;
    }
}
