/// A step of a page.
#[derive(Clone, Copy, Debug, PartialEq, Eq)]
pub enum Point {
    /// The scanner isolated it.
    Isolated,
    /// A copier took it from the queue.
    Taken,
    /// The copier made its copy.
    Copied,
    /// Its copy was brought to the zone.
    Ended,
}

/// A gate is told of each step of a page. The thread that made the step calls it, holding no lock, after the step and
/// before the page's next one.
pub trait Gate: Sync {
    /// `who` is 0 for the scanner, 1 to 4 for a copier, and 5 for the committer.
    fn at(&self, point: Point, who: usize);
}

/// The gate that does nothing.
#[derive(Clone, Copy, Debug)]
pub struct NoGate;

impl Gate for NoGate {
    fn at(&self, _point: Point, _who: usize) {}
}

/// The number by which a gate knows the scanner.
pub(crate) const SCANNER: usize = 0;

/// The number by which a gate knows the committer.
pub(crate) const COMMITTER: usize = 5;

/// Tells the gate that this many pages made a step.
pub(crate) fn tell_all<G: Gate>(gate: &G, point: Point, who: usize, pages: usize) {
    for _page in 0..pages {
        gate.at(point, who);
    }
}
