//! The tests of chunks, of the output of batches, of requests, and of the whole program.
#![tactic(auto)]

#[cfg(test)]
mod tests;
