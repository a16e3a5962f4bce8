//! The tests of `encodings` and `encoding_vectors`, over their public calls alone.
#![tactic(auto)]

#[cfg(test)]
mod tests;
