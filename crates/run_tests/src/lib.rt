//! The tests of `set_run`, over its public calls alone.
#![tactic(auto)]

#[cfg(test)]
mod tests;
