//! A lock whose release calls a thread that waits.

use std::ops::{Deref, DerefMut};
use std::sync::{Condvar, MutexGuard};

/// What is under a lock for which a thread waits until there is something to do.
pub trait Calling {
    /// Whether the thread has something to do.
    fn is_calling(&self) -> bool;
}

/// A lock, as long as it is held, and what is under it. A thread that waits is called when the lock is given back, where it has something
/// to do then.
pub struct CallingGuard<'a, T: Calling> {
    held: MutexGuard<'a, T>,
    called: &'a Condvar,
}

impl<'a, T: Calling> CallingGuard<'a, T> {
    /// The lock, and by what the thread is called.
    pub(crate) fn new(held: MutexGuard<'a, T>, called: &'a Condvar) -> Self {
        CallingGuard { held, called }
    }
}

impl<T: Calling> Deref for CallingGuard<'_, T> {
    type Target = T;

    fn deref(&self) -> &T {
        &self.held
    }
}

impl<T: Calling> DerefMut for CallingGuard<'_, T> {
    fn deref_mut(&mut self) -> &mut T {
        &mut self.held
    }
}

impl<T: Calling> Drop for CallingGuard<'_, T> {
    fn drop(self) {
        let CallingGuard { held, called } = self;
        if held.is_calling() {
            called.notify_all();
        }
    }
}
