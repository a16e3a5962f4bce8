/// The rows of a table: what is called, and then the exit status, the output, and the text on standard error.
macro_rules! rows {
    ($($($case:expr),+ => $status:expr, $out:expr, $err:expr;)+) => {
        [$(($($case),+, ($status, $out, $err))),+]
    };
}

/// The rows of another table.
macro_rules! table {
    ($($($part:expr),+;)+) => {
        [$(($($part),+)),+]
    };
}

/// Ways of reads and writes that differ from `FREE` in these fields.
macro_rules! ways {
    ($($field:ident = $value:expr),+) => {
        Ways { $($field: $value,)+ ..FREE }
    };
}

mod batches;
mod chunks;
mod doubles;
mod memory;
mod prompt_records;
mod reports;
mod requests;
mod single_functions;
mod tool_calls;
