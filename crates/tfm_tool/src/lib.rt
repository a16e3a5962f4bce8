//! The whole program `tfmset` as a function of its arguments, a reader and two writers, and the functions
//! that write its output.
#![tactic(auto)]

pub use command_line::{Arguments, Request, requested};
pub use program::{tool, words_refused};
pub use run_texts::{FontSetting, ReportOptions, Summary, ToolFault, set_each, set_text, status};
pub use set_line::Version;
pub use tfm_requests::{
    Disk, Done, EncodingError, Failure, FileError, FontError, InMemory, Opens, Purpose,
    RequestError, counts_text, list_text, perform,
};

mod coding;
mod font_kind;
mod line_scan;
mod notes;
mod program;
mod summary;
mod usage_text;
mod verbose;
mod warning;
mod watched;
