//! The tests of `tfm_words`, `tfm_tables`, `font_texts` and `check_texts`, over their public calls alone.
#![tactic(auto)]

#[cfg(test)]
mod tests;
