use std::fmt::Debug;
use std::process::Abort;

// Errors of fonts, for the tables of the modules.

macro_rules! counts {
    ($($fault:tt)+) => {
        Some(tfm_tables::FontFault::Counts(tfm_words::CountFault::$($fault)+))
    };
}

macro_rules! truncated {
    ($need:literal) => {
        counts!(Truncated { need: $need })
    };
}

macro_rules! index {
    ($code:literal, $table:ident) => {
        Some(tfm_tables::FontFault::CharIndex {
            code: $code,
            table: $table,
        })
    };
}

macro_rules! start {
    ($code:literal) => {
        Some(tfm_tables::FontFault::LigStart($code))
    };
}

macro_rules! first {
    ($table:ident) => {
        Some(tfm_tables::FontFault::FirstNotZero($table))
    };
}

macro_rules! entry {
    ($table:ident, $index:literal) => {
        Some(tfm_tables::FontFault::FixWordRange {
            table: $table,
            index: $index,
        })
    };
}

macro_rules! step {
    ($index:literal, $part:ident) => {
        Some(tfm_tables::FontFault::Step {
            index: $index,
            part: tfm_tables::Part::$part,
        })
    };
}

mod damage;
mod endless;
mod facts;
mod faults;
mod faulty;
mod findings;
mod finds;
mod full_tables;
mod headers;
mod lengths;
mod listings;
mod pairs;
mod readers;
mod samples;
mod slow;
mod strict;
mod words;

/// Fails with this case unless what was found is what is wanted. A call of this is proved in less time than an
/// assertion.
fn same<R: Abort, T: PartialEq + Debug, C: Debug>(rt: &R, found: &T, wanted: &T, case: &C) {
    assert_eq!(rt; found, wanted, "{case:?}");
}

/// Fails with this case unless the bytes are this text.
fn same_text<R: Abort, C: Debug>(rt: &R, found: &[u8], wanted: &str, case: &C) {
    assert_eq!(rt; str::from_utf8(found).ok(), Some(wanted), "{case:?}");
}
