//! The names of glyphs in a vector that have no character.
ghost use Rattle.std.specs.Prelude.{◌≡◌, ◌≤◌, drop, length, map, IfOk};
ghost use Rattle.encoding_vectors.specs.Reading.{tokens_at};
ghost use Rattle.encoding_vectors.specs.Unknown.{is_unknown as is_unknown_name, unknown_names as unknown_names_of};

use crate::names::character_of;
use crate::scanning::next_token;
use std::alloc::{AllocError, Global};

/// Returns whether a name is that of a glyph, but has no character.
#[tactic(auto, unfolding(crate::specs::Unknown::is_unknown))]
fn is_unknown(name: &[u8]) -> bool
    ensures { result ≡ is_unknown_name name.now }
{
    name != b".notdef".as_slice() && character_of(name).is_none()
}

/// Returns the offset after the next token, or the length of the text if there is none.
fn after_token(text: &[u8], at: usize) -> usize
    requires { at ≤ length text.now }
    ensures within { result ≤ length text.now }
    ensures rest { tokens_at text.now result ≡ drop 1 (tokens_at text.now at) }
{
    match next_token(text, at) {
        Some((_, end)) => end,
        None => text.len(),
    }
}

/// Returns the names in a vector that have no character, in the order of their codes, each as often as it is
/// there. `.notdef`, which stands for no glyph, isn't one of them. `text` is the text of a vector: of any other
/// text, the 256 tokens after the first two count as names. Fails if an allocation fails.
pub fn unknown_names(alloc: Global, text: &[u8]) -> Result<Vec<&[u8]>, AllocError>
    ensures { IfOk result (λ names. map (λ name. name.now) names.items ≡ unknown_names_of text.now) }
{
    let mut names = Vec::new(alloc);
    let mut at = after_token(text, after_token(text, 0));
    for _code in 0..256_usize {
        let Some((start, end)) = next_token(text, at) else {
            return Ok(names);
        };
        let name = &text[start + 1..end];
        if is_unknown(name) {
            names.push(name)?;
        }
        at = end;
    }
    Ok(names)
}
