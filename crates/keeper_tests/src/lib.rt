//! Tests of a keeper in a thread of its own, beside clients, by the public calls of `keeper_thread` alone.
#![tactic(auto)]

#[cfg(test)]
mod tests;
