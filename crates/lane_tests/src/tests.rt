/// The rows of a table.
macro_rules! table {
    ($($($part:expr),+;)+) => {
        [$(($($part),+)),+]
    };
}

mod call_by_call;
mod dealt;
mod lane;
mod memory;
mod numbers;
mod threads;
