//! The tests of `lanes`, `dealt_lanes` and `line_lane`, over their public calls alone.
#![tactic(auto)]

#[cfg(test)]
mod tests;
