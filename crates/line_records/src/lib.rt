//! Sets lines, of bytes or in UTF-8, and writes their records. For each byte of a line that needs nothing else,
//! the text of what the byte adds is copied from a table of texts.
#![tactic(auto)]

pub use formats::RecordFormat;
pub use line_writer::LineWriter;
pub use record_of::{RecordOf, SourceLine};
pub use result::{LineResult, Sums};

mod adding;
mod cells;
mod keeping;
mod line_state;
mod line_writer;
mod making;
mod measuring;
mod record_of;
mod refusing;
mod result;
mod stepping;
mod table;
mod text_entry;
mod writing;
