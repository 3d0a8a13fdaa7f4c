//! What is told of the steps of workers.

/// A gate is told each time before a worker copies the pages that it has. The worker calls it, holding no lock.
pub trait Gate: Sync {
    /// The worker with this number, from 0 on, has so many pages, which are isolated.
    fn copies(&self, worker: usize, pages: usize);
}

/// The gate that does nothing.
#[derive(Clone, Copy, Debug)]
pub struct NoGate;

impl Gate for NoGate {
    fn copies(&self, _worker: usize, _pages: usize) {}
}
