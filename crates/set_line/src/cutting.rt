ghost use Rattle.std.specs.Prelude.{◌≡◌, ◌<◌, ◌++◌, ◌∷◌, [], length, IfOk, IfSome, MatchOption};
ghost use Rattle.set_line.specs.Lines.{HasNoFeed, lines_of};
ghost use Rattle.set_line.specs.Returns.{before_feed, lines_in};

use crate::{Line, OutOfMemory};
use memchr::memchr;
use std::alloc::{AllocError, Global};

/// Cuts a text into its lines: the bytes between its line feeds. The bytes after the last line feed are a
/// line unless there are none.
pub fn lines(alloc: Global, bytes: &[u8]) -> Result<Vec<Line>, OutOfMemory>
    ensures { IfOk result (λ lines. lines.items ≡ lines_of bytes.now) }
{
    match cut_lines(alloc, bytes) {
        Ok(lines) => Ok(lines),
        Err(_) => Err(OutOfMemory),
    }
}

/// Splits a text at its first line feed: returns the bytes before it and those after it.
pub fn at_first_feed(text: &[u8]) -> Option<(&[u8], &[u8])>
    ensures { MatchOption result (HasNoFeed text.now)
        (λ cut. HasNoFeed cut.0.now × (text.now ≡ cut.0.now ++ 10 ∷ cut.1.now)) }
{
    let feed = memchr(b'\n', text)?;
    Some((&text[..feed], &text[feed + 1..]))
}

/// Cuts the first line off a text: returns the line without its line ending, and the text after it. Each line feed
/// ends a line; if `crlf` is true, one carriage return before it belongs to the line ending, too. Returns `None`
/// for an empty text.
pub fn next_line(bytes: &[u8], crlf: bool) -> Option<(&[u8], &[u8])>
    ensures cut { MatchOption result (lines_in crlf bytes.now ≡ [])
        (λ cut. lines_in crlf bytes.now ≡ cut.0.now ∷ lines_in crlf cut.1.now) }
    ensures shorter { IfSome result (λ cut. length cut.1.now < length bytes.now) }
{
    if bytes.is_empty() {
        return None;
    }
    match at_first_feed(bytes) {
        Some((line, rest)) => Some((before_ending(line, crlf), rest)),
        None => Some((bytes, &bytes[bytes.len()..])),
    }
}

/// Returns a line that was before a line feed: if `crlf` is true, without the carriage return at its end, if it has
/// one.
fn before_ending(line: &[u8], crlf: bool) -> &[u8]
    ensures { result.now ≡ before_feed crlf line.now }
{
    match line {
        [front @ .., b'\r'] if crlf => front,
        _ => line,
    }
}

fn cut_lines(alloc: Global, bytes: &[u8]) -> Result<Vec<Line>, AllocError>
    ensures { IfOk result (λ lines. lines.items ≡ lines_of bytes.now) }
{
    let mut lines = Vec::new(alloc);
    let mut rest = bytes;
    while let Some((line, more)) = next_line(rest, false) {
        lines.push(Line::new(Vec::from_slice(alloc, line)?))?;
        rest = more;
    }
    Ok(lines)
}
