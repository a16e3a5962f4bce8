//! Reads an encoding vector.
ghost use Rattle.std.specs.Prelude.{◌≡◌, ◌<◌, ◌≤◌, ◌∷◌, [], None, Some, length, replicate, slice_range, IfErr, IfOk, OnOk};
ghost use Rattle.encoding_vectors.specs.Names.{character_of};
ghost use Rattle.encoding_vectors.specs.Reading.{IsMisfit, IsRead, characters_at};
ghost use Rattle.encoding_vectors.specs.Tokens.{tokens_of};
ghost use Rattle.encoding_vectors.specs.Vectors.{characters_of, fault_line, first_misfit, is_name as is_name_token, is_word, line_after as line_after_bytes, vector_form};

use crate::VectorFault;
use crate::lines::line_after;
use crate::names::character_of;
use crate::scanning::next_token;

/// The largest number of bytes of an encoding vector.
pub const MOST_BYTES: usize = 65_536;

/// Returns whether a token is a literal name: a slash and at least one character.
fn is_name(token: &[u8]) -> bool
    ensures { result ≡ is_name_token token.now }
{
    token.len() > 1 && token[0] == b'/'
}

/// Returns the offsets of a name and of the byte after it, if the next token is a literal name. Otherwise
/// returns the offset of this token, or of the end of the text.
fn name_after(text: &[u8], at: usize) -> Result<(usize, usize), usize>
    requires { at ≤ length text.now }
    ensures name { IfOk result (λ name. (name.0 ≤ name.1) × (name.1 ≤ length text.now)) }
    ensures read { IfOk result (λ name. IsRead (is_name_token ∷ []) text.now at name.1) }
    ensures character { IfOk result (λ name.
        characters_at text.now at 1 ≡ character_of (slice_range text.now name.0 name.1) ∷ []) }
    ensures fault { IfErr result (IsMisfit (is_name_token ∷ []) text.now at) }
{
    match next_token(text, at) {
        Some((start, end)) => {
            if is_name(&text[start..end]) {
                return Ok((start + 1, end));
            }
            Err(start)
        }
        None => Err(text.len()),
    }
}

/// Returns the offset after the next token, if it is this one. Otherwise returns the offset of the next
/// token, or of the end of the text.
fn word_after(text: &[u8], at: usize, word: &[u8]) -> Result<usize, usize>
    requires { at ≤ length text.now }
    ensures read { IfOk result (IsRead (is_word word.now ∷ []) text.now at) }
    ensures fault { IfErr result (IsMisfit (is_word word.now ∷ []) text.now at) }
{
    match next_token(text, at) {
        Some((start, end)) => {
            if &text[start..end] == word {
                return Ok(end);
            }
            Err(start)
        }
        None => Err(text.len()),
    }
}

/// Reads as many literal names as there is room, and writes their characters. Returns the offset after them.
/// If there are too few, returns the offset of the first token that isn't a name, or of the end of the text.
fn read_names(text: &[u8], at: usize, characters: &mut [Option<char>]) -> Result<usize, usize>
    requires { at ≤ length text.now }
    ensures read { IfOk result (IsRead (replicate (length characters.old) is_name_token) text.now at) }
    ensures characters { OnOk result (characters.new ≡ characters_at text.now at (length characters.old)) }
    ensures fault { IfErr result (IsMisfit (replicate (length characters.old) is_name_token) text.now at) }
{
    let mut at = at;
    for index in 0..characters.len() {
        let (start, end) = name_after(text, at)?;
        characters[index] = character_of(&text[start..end]);
        at = end;
    }
    Ok(at)
}

/// Reads a vector, and writes the characters of its names. Returns the offset of the first token that doesn't
/// belong to a vector, or of the end of the text, if there are too few tokens.
fn read_all(text: &[u8], characters: &mut [Option<char>]) -> Result<(), usize>
    requires { length characters.old ≡ 256 }
    ensures read { OnOk result (first_misfit (length text.now) vector_form (tokens_of text.now) ≡ None) }
    ensures characters { OnOk result (characters.new ≡ characters_of text.now) }
    ensures fault { IfErr result (λ offset.
        first_misfit (length text.now) vector_form (tokens_of text.now) ≡ Some offset) }
{
    let (_, at) = name_after(text, 0)?;
    let at = word_after(text, at, b"[")?;
    let at = read_names(text, at, characters)?;
    let at = word_after(text, at, b"]")?;
    word_after(text, at, b"def")?;
    Ok(())
}

/// Returns the characters of the 256 codes in an encoding vector of dvips, which is the contents of a file
/// `.enc`.
///
/// A vector is `/NAME [`, 256 names of glyphs with a slash each, and `] def` (manual of dvips, section
/// 6.3.1.5). What follows `def` isn't read, as by dvips. Comments begin with `%` and end with their line,
/// also those with ligatures for afm2tfm; a line ends with LF, CR or CR LF. White space and names are those
/// of PostScript (PostScript Language Reference, section 3.2), except that a name has at least one character.
///
/// The character of a name is that of the Adobe Glyph List, if the list gives it one character; that of TeX
/// for fourteen names, such as `dotlessj`, and `Delta`, which is Δ; or the one whose number is in the name,
/// such as `uni20AC` or `u1F600`. Any other name, such as `.notdef`, has none.
///
/// A text that isn't a vector is refused. A text of more than [`MOST_BYTES`] bytes is refused first, whatever
/// its tokens are.
pub fn read_vector(text: &[u8]) -> Result<[Option<char>; 256], VectorFault>
    ensures read { OnOk result (fault_line text.now ≡ None) }
    ensures characters { IfOk result (λ characters. characters ≡ characters_of text.now) }
    ensures fault { IfErr result (λ fault. fault_line text.now ≡ Some fault.line) }
{
    if text.len() > MOST_BYTES {
        return Err(fault_at(text, MOST_BYTES));
    }
    let mut characters = [None; 256];
    match read_all(text, &mut characters) {
        Ok(()) => Ok(characters),
        Err(offset) => Err(fault_at(text, offset)),
    }
}

/// Returns the fault at an offset.
fn fault_at(text: &[u8], offset: usize) -> VectorFault
    requires { offset ≤ length text.now }
    ensures { result.line ≡ line_after_bytes text.now offset }
{
    VectorFault {
        line: line_after(text, offset),
    }
}
