//! Finds the tokens of a text.
ghost use Rattle.std.specs.Prelude.{◌≡◌, ◌<◌, ◌≤◌, ◌+◌, ◌∷◌, [], length, get_or, drop, true, false, IfSome, MatchOption};
ghost use Rattle.encoding_vectors.specs.Tokens.{in_comment as in_comment_after, token_len};
ghost use Rattle.encoding_vectors.specs.Reading.{is_blank as is_blank_after, token_between, tokens_at};

use crate::bytes::{ends_line, is_continued, is_regular, is_white};

/// Returns whether a byte is in a comment, if the byte before it is or isn't.
fn in_comment(before: bool, byte: u8) -> bool
    ensures { result ≡ in_comment_after before byte }
{
    (before || byte == b'%') && !ends_line(byte)
}

/// Returns whether a byte is in a comment or is white space, if the byte before it is or isn't in a comment.
fn is_blank(before: bool, byte: u8) -> bool
    ensures { result ≡ is_blank_after before byte }
{
    in_comment(before, byte) || is_white(byte)
}

/// Returns the offset of the first byte from `at` on that is neither in a comment nor white space, or the
/// length of the text. The byte at `at` isn't in a comment that begins before it.
fn skip_blank(text: &[u8], at: usize) -> usize
    requires { at ≤ length text.now }
    ensures within { result ≤ length text.now }
    ensures same { tokens_at text.now at ≡ tokens_at text.now result }
    ensures found { result < length text.now → is_blank_after false (get_or text.now result 0) ≡ false }
{
    let mut at = at;
    let mut comment = false;
    while at < text.len() && is_blank(comment, text[at]) {
        comment = in_comment(comment, text[at]);
        at += 1;
    }
    at
}

/// Returns the offset after the token that begins at this offset.
fn token_end(text: &[u8], start: usize) -> usize
    requires { start < length text.now }
    ensures within { result ≤ length text.now }
    ensures end { result ≡ start + token_len (drop start text.now) }
{
    let mut end = start + 1;
    if is_continued(text[start]) {
        while end < text.len() && is_regular(text[end]) {
            end += 1;
        }
    }
    end
}

/// Returns the offsets of the first byte of the first token from `at` on, and of the byte after this token,
/// or `None` if there is no further token. No token or comment that begins before `at` continues there.
pub(crate) fn next_token(text: &[u8], at: usize) -> Option<(usize, usize)>
    requires { at ≤ length text.now }
    ensures within { IfSome result (λ token. (token.0 < token.1) × (token.1 ≤ length text.now)) }
    ensures tokens { MatchOption result (tokens_at text.now at ≡ []) (λ token.
        tokens_at text.now at ≡ token_between text.now token.0 token.1 ∷ tokens_at text.now token.1) }
{
    let start = skip_blank(text, at);
    if start == text.len() {
        return None;
    }
    Some((start, token_end(text, start)))
}
