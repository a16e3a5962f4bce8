//! Failed allocations of single calls of `tfm_tables`, `lig_kern`, `set_line` and `line_records`.
#![tactic(auto)]

#[cfg(test)]
mod tests;
