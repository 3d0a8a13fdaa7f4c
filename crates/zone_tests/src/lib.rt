//! Tests of zones and worlds, by the public calls of `zone_core`, `machine_core` and the crates below them alone.
#![tactic(auto)]

#[cfg(test)]
mod tests;
