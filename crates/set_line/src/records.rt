//! Writes the record of a result, in each format.

mod digits;
pub(crate) mod items_text;
pub(crate) mod record_number;
pub(crate) mod record_text;
pub(crate) mod text_refusal;
pub(crate) mod writing;
