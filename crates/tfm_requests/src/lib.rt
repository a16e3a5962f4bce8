//! Carries out requests: reads their fonts and encoding vectors, opens their files, and writes their output.
#![tactic(auto)]

pub use any_arguments::AnyArguments;
pub use failures::done::Done;
pub use failures::errors::{EncodingError, FileError, FontError, JobError, RequestError};
pub use failures::failure::Failure;
pub use files::opening::{Disk, InMemory, Opens, Purpose};
pub use performing::perform;
pub use texts::{counts_text, list_text};

mod any_arguments;
mod batches;
mod checking;
mod failures;
mod files;
mod font_list;
mod performing;
mod texts;
