//! Functions that no request calls alone, and messages that no request shows.
use super::doubles::{COUNTS, check};
use std::io;
use std::io::ErrorKind;
use test_support::FailingWriter;
use test_support::fonts::files::NO_CHARACTERS;
use tfm_tables::Font;
use tfm_tool::{Done, counts_text, list_text, words_refused};

const NOT_UTF_8: &str = "error: invalid UTF-8 was detected in one or more arguments\n";

const NO_MEMORY: &str = "tfmset: out of memory\n";

#[test]
fn messages(rt: HostRuntime) {
    let table = [
        (ErrorKind::InvalidData, 2, NOT_UTF_8),
        (ErrorKind::OutOfMemory, 5, NO_MEMORY),
    ];
    for (kind, status, message) in table {
        let mut err = Vec::new(rt.alloc());
        let seen = words_refused(&io::Error::from(kind), &mut err);
        let holds = seen == status && err.as_slice() == message.as_bytes();
        check(&rt, holds, message, usize::from(seen));
    }
    let abandoned = Done::LaneAbandoned.message() == Some(NO_MEMORY);
    let none = Done::AllSet.message().is_none() && Done::SomeRefused.message().is_none();
    check(&rt, abandoned && none, "messages", 0);
}

/// The listing of the font without characters.
pub const EMPTY_LISTING: &str = "checksum 0\ndesign 327680\nsize 327680\nright none\nleft none\n";

#[test]
fn counts_and_a_listing_are_written(rt: HostRuntime) {
    let font = Font::read(rt.alloc(), &NO_CHARACTERS, None).expect(&rt, "a font");
    for (writes, written) in [(usize::MAX, true), (5, false)] {
        let mut counts = FailingWriter::new(rt.alloc(), 10, writes, true);
        let mut listing = FailingWriter::new(rt.alloc(), 10, writes, true);
        let done = counts_text(rt.alloc(), &NO_CHARACTERS, &mut counts).is_ok() == written
            && list_text(rt.alloc(), &font, &mut listing).is_ok() == written;
        let whole = counts.text.as_slice() == COUNTS.as_bytes()
            && listing.text.as_slice() == EMPTY_LISTING.as_bytes();
        check(&rt, done && whole == written, "writes", writes);
    }
}
