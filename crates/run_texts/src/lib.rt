//! Writes the output of batches: the records and end lines of sources, either kept until the batch is done,
//! or written as the results arrive.
#![tactic(auto)]

pub use fault::ToolFault;
pub use font_setting::{FontSetting, terms_of, with_terms};
pub use options::OutputOptions;
pub use reporting::{ReportOptions, set_each, set_text};
pub use setting::set_readers;
pub use streaming::stream_readers;
pub use summary::{Summary, status};
pub use writing::write_text;

mod buffer;
mod chunk_run;
mod fault;
mod font_setting;
mod lane_text;
mod options;
mod record;
mod record_count;
mod reporting;
mod run_summary;
mod run_text;
mod setting;
mod stream;
mod streaming;
mod summary;
mod writing;
