//! The list of fonts that `--files-from` names.
ghost use Rattle.std.specs.Prelude.{◌≡◌, ◌⊎◌, ◌∷◌, [], List, Option, false, Bool, IfErr, IfOk, IfSome, ℕ};
ghost use Rattle.tfm_requests.specs.Checking.{AddsFonts, AreIn, AreListed, AreNames, is_input as is_input_name, separator_of, without_empty};
ghost use Rattle.tfm_requests.specs.Kept.{kept_of};

use crate::checking::{Fonts, write_font};
use crate::failures::errors::{FileError, ReadFault};
use crate::files::opening::{Opens, Purpose};
use crate::files::reading::{file_bytes, opened};
use check_texts::Tally;
use run_texts::ToolFault;
use std::alloc::Global;
use std::io::{BufRead, BufReader, ErrorKind, Read, Write};
use std::str;

/// The list of fonts of a request.
#[derive(Drop)]
pub(crate) enum FontList<T> {
    /// There is none.
    None,
    /// It is standard input.
    Input,
    /// It is this file.
    File(T),
}

/// Returns whether the list of this name is standard input.
pub(crate) fn is_input(list: Option<&str>) -> bool
    ensures { result ≡ is_input_name list.entry }
{
    match list {
        Some(file) => file == "-",
        None => false,
    }
}

/// Opens the list of this name. In the error it is file number 1.
pub(crate) fn open_list<F: Opens>(
    files: &F,
    list: Option<&str>,
) -> Result<FontList<F::File>, FileError>
    ensures { (input : Option (List ℕ)) (separator : ℕ) (ended : Bool) (names : List (List ℕ))
        → IfOk result (λ opened. AreIn F.File.remaining input opened separator ended names
        → AreListed (F.known files.now) input list.entry separator ended names) }
{
    if is_input(list) {
        return Ok(FontList::Input);
    }
    match list {
        None => Ok(FontList::None),
        Some(file) => match opened(files, file, Purpose::List) {
            Ok(file) => Ok(FontList::File(file)),
            Err(ReadFault::NotRead) => Err(FileError::NotOpened(1)),
            Err(ReadFault::OutOfMemory) => Err(FileError::OutOfMemory),
        },
    }
}

/// Returns the byte after each name of a list.
fn separator(null: bool) -> u8
    ensures { result ≡ separator_of null }
{
    if null { b'\0' } else { b'\n' }
}

/// Reads the fonts of a list, whose names end with a zero byte if the flag is set, and writes the text of each. Returns
/// the numbers of all fonts, and whether the list was read to its end. `first` has the numbers of the fonts before, and
/// whether `input` was read for one of them, in which case it isn't read as the list.
pub(crate) fn check_list<F, I, O>(
    fonts: &Fonts<'_, F>,
    list: (FontList<F::File>, bool),
    first: (Tally, bool),
    input: &mut I,
    out: &mut O,
) -> Result<(Tally, bool), ToolFault>
where
    F: Opens,
    I: Read,
    O: Write,
    ensures text { (start : Option (List ℕ)) → (first.1 ≡ false → I.remaining input.old ≡ start)
        → IfOk result (λ done. (names : List (List ℕ))
        × AreIn F.File.remaining start list.0 (separator_of list.1) done.1 names
        × AddsFonts fonts.now.layout (F.known fonts.now.files.now) names
        (O.contents out.old) first.0 (O.contents out.new) done.0) }
    ensures fault { IfErr result (λ fault. (fault ≡ ToolFault.OutOfMemory) ⊎ (fault ≡ ToolFault.Write)) }
{
    let ((list, null), (tally, is_read)) = (list, first);
    let separator = separator(null);
    match list {
        FontList::None => Ok((tally, true)),
        FontList::Input if is_read => Ok((tally, false)),
        FontList::Input => check_named(fonts, input, separator, tally, out),
        FontList::File(file) => check_named(fonts, file, separator, tally, out),
    }
}

/// Reads the fonts whose names are in `list`, each with `separator` after it, and writes the text of each before it
/// reads the next name. Returns what `check_list` does.
fn check_named<F, L, O>(
    fonts: &Fonts<'_, F>,
    list: L,
    separator: u8,
    tally: Tally,
    out: &mut O,
) -> Result<(Tally, bool), ToolFault>
where
    F: Opens,
    L: Read + Drop,
    O: Write,
    ensures text { IfOk result (λ done. (names : List (List ℕ)) × AreNames separator (L.remaining list) done.1 names
        × AddsFonts fonts.now.layout (F.known fonts.now.files.now) names
        (O.contents out.old) tally (O.contents out.new) done.0) }
    ensures fault { IfErr result (λ fault. (fault ≡ ToolFault.OutOfMemory) ⊎ (fault ≡ ToolFault.Write)) }
{
    let mut tally = tally;
    let Ok(list) = BufReader::new(fonts.alloc, list) else {
        return Err(ToolFault::OutOfMemory);
    };
    for name in list.split(fonts.alloc, separator) {
        match name {
            Ok(name) => tally = check_name(fonts, name.as_slice(), tally, out)?,
            Err(error) if error.kind() == ErrorKind::OutOfMemory => {
                return Err(ToolFault::OutOfMemory);
            }
            Err(_) => return Ok((tally, false)),
        }
    }
    Ok((tally, true))
}

/// Reads the font in the file of this name, and writes its text, unless the name is empty. Returns the numbers of all
/// fonts, of which `tally` has those before.
fn check_name<F, O>(
    fonts: &Fonts<'_, F>,
    name: &[u8],
    tally: Tally,
    out: &mut O,
) -> Result<Tally, ToolFault>
where
    F: Opens,
    O: Write,
    ensures text { IfOk result (λ all. AddsFonts fonts.now.layout (F.known fonts.now.files.now)
        (without_empty (name.now ∷ [])) (O.contents out.old) tally (O.contents out.new) all) }
    ensures fault { IfErr result (λ fault. (fault ≡ ToolFault.OutOfMemory) ⊎ (fault ≡ ToolFault.Write)) }
{
    if name.is_empty() {
        return Ok(tally);
    }
    let bytes = named_bytes(fonts.alloc, fonts.files, name);
    write_font(fonts, (name, bytes), tally, out)
}

/// Reads the file of this name as `file_bytes` does. A file whose name isn't UTF-8 isn't read, since a path of the
/// toolchain is text.
fn named_bytes<F: Opens>(alloc: Global, files: &F, name: &[u8]) -> Result<Vec<u8>, ReadFault>
    ensures { IfOk result (λ bytes.
        IfSome (F.known files.now name.now) (λ all. bytes.items ≡ kept_of all)) }
{
    match str::from_utf8(name) {
        Ok(name) => file_bytes(alloc, files, name, Purpose::Font),
        Err(_) => {
            files.note_name(name);
            Err(ReadFault::NotRead)
        }
    }
}
