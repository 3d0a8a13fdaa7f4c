//! Tests of the hand-over of pages and copies between threads, by the public calls of `hand_core` alone.
#![tactic(auto)]

#[cfg(test)]
mod tests;
