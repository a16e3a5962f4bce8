/// The rows of a table.
macro_rules! table {
    ($($($part:expr),+;)+) => {
        [$(($($part),+)),+]
    };
}

mod collectors;
mod meeting;
mod memory;
mod readers;
mod runs;
mod slow;
mod starting;
mod stopping;
mod waking;
