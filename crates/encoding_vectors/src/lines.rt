//! The numbers of lines.
ghost use Rattle.std.specs.Prelude.{◌≡◌, ◌<◌, ◌≤◌, ◌+◌, drop, length, get_or};
ghost use Rattle.encoding_vectors.specs.Vectors.{ends_one as ends_one_byte, line_after as line_after_bytes, line_ends as line_ends_in};

/// Returns whether a line ends with the byte at this offset. A CR LF ends a line with its LF.
fn ends_one(text: &[u8], at: usize) -> bool
    requires { at < length text.now }
    ensures { result ≡ ends_one_byte (get_or text.now at 0) (drop (at + 1) text.now) }
{
    text[at] == b'\n' || (text[at] == b'\r' && text.get(at + 1) != Some(&b'\n'))
}

/// Returns the number of lines that end in a text.
fn line_ends(text: &[u8]) -> usize
    ensures count { result ≡ line_ends_in text.now }
    ensures few { result ≤ length text.now }
{
    let mut count = 0;
    for at in 0..text.len() {
        count += usize::from(ends_one(text, at));
    }
    count
}

/// Returns the number of the line on which so many bytes at the front of a text end, starting at 1.
#[tactic(auto, unfolding(crate::specs::Vectors::line_after))]
pub(crate) fn line_after(text: &[u8], offset: usize) -> usize
    requires { offset ≤ length text.now }
    ensures { result ≡ line_after_bytes text.now offset }
{
    line_ends(&text[..offset]) + 1
}
