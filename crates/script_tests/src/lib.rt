//! Tests of scripts, of the program that reads them and of the words that it is started with, by the public calls of
//! `script_core`.
#![tactic(auto)]

#[cfg(test)]
mod tests;
