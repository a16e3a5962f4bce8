//! The tests of `lig_kern`, `prepared_font`, `set_line` and `line_records`, over their public calls alone.
#![tactic(auto)]

#[cfg(test)]
mod tests;
