//! Tests of workers that move the pages of a zone in memory of its caller, by the public calls of `worker_threads` alone.
#![tactic(auto)]

#[cfg(test)]
mod tests;
