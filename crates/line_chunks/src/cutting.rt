//! Searches line feeds.
ghost use Rattle.std.specs.Prelude.{◌≡◌, ◌≤◌, drop, length, take};
ghost use Rattle.set_line.specs.Lines.{HasNoFeed};
ghost use Rattle.line_chunks.specs.Pending.{EndsWithFeed, feeds_in};

use memchr::memrchr;

/// Returns the number of bytes up to the last line feed of a text, with it, or 0 if there is none.
pub(crate) fn up_to_last_feed(text: &[u8]) -> usize
    ensures within { result ≤ length text.now }
    ensures whole { EndsWithFeed (take result text.now) }
    ensures rest { HasNoFeed (drop result text.now) }
{
    match memrchr(b'\n', text) {
        Some(feed) => feed + 1,
        None => 0,
    }
}

/// Returns the number of line feeds in a text.
pub(crate) fn count_feeds(text: &[u8]) -> u64
    ensures { result ≡ feeds_in text.now }
{
    let mut count = 0;
    for byte in text {
        count += u64::from(*byte == b'\n');
    }
    count
}
