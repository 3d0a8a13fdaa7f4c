//! Tests of sets of numbers, of rows of words, and of the words of frames, by the public calls of `number_set`, `row_core` and `frame_core`
//! alone.
#![tactic(auto)]

#[cfg(test)]
mod tests;
