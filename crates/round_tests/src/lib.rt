//! Tests of rounds on threads, of clients beside them and of collectors, by the public calls of `round_core`, `client_core` and
//! `huge_core` alone.
#![tactic(auto)]

#[cfg(test)]
mod tests;
