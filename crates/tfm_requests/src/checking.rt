//! The subcommand `check`: writes the text of each font, and a summary.
ghost use Rattle.std.specs.Prelude.{◌≡◌, ◌⊎◌, ◌∷◌, ℕ, [], List, Option, false, map, IfErr, IfOk, IfSome, OnOk};
ghost use Rattle.std.specs.Io.KnownBytes.{Appends};
ghost use Rattle.check_texts.specs.Tallies.{tally_of};
ghost use Rattle.tfm_requests.specs.Causes.{IsCheckCause, IsErrorOfCheck};
ghost use Rattle.tfm_requests.specs.Checking.{AddsFonts, AreChecked, IsFound, check_status, dashes_in, summary_text, text_shown};
ghost use Rattle.tfm_requests.specs.Kept.{HaveSameFont};
ghost use Rattle.tfm_requests.specs.Known.{font_bytes_of};
ghost use Rattle.tfm_requests.specs.Status.{done_status, is_stop};

use crate::batches::delivery::flush;
use crate::failures::done::Done;
use crate::failures::errors::{ReadFault, RequestError};
use crate::failures::failure::Failure;
use crate::files::opening::Opens;
use crate::files::reading::font_bytes;
use crate::font_list::{check_list, is_input, open_list};
use check_texts::{Tally, Verdict, summary_line, verdict_text};
use command_line::{CheckLayout, Checking};
use run_texts::{ToolFault, write_text};
use std::alloc::{AllocError, Global};
use std::io::{Read, Write};

/// Does what `check` requests: reads each font in order, first those in the arguments and then those in the list, and
/// writes what is found, and then the line of `--summary` if it is requested. At most one name in the
/// arguments may be `-`.
pub(crate) fn check<F, I, O>(
    alloc: Global,
    files: &F,
    asked: &Checking<'_>,
    input: &mut I,
    out: &mut O,
) -> Result<Done, Failure>
where
    F: Opens,
    I: Read,
    O: Write,
    ensures text { IfOk result (λ done. AreChecked (F.known files.now) (I.remaining input.old)
        asked.now (O.contents out.old) (O.contents out.new) (done_status done)) }
    ensures untouched { IfErr result (λ failure. is_stop failure ≡ false → out.new ≡ out.old) }
    ensures cause { IfErr result (IsCheckCause (F.known files.now) asked.now) }
{
    only_one_input(asked)?;
    let list = open_list(files, asked.list)?;
    let fonts = Fonts {
        alloc,
        files,
        layout: asked.layout,
    };
    let first = check_fonts(&fonts, asked.fonts.as_slice(), input, out)?;
    let (tally, ended) = check_list(&fonts, (list, asked.null), first, input, out)?;
    write_summary(alloc, asked.layout, tally, out)?;
    flush(out)?;
    Ok(done_of(tally, ended))
}

/// Returns an error if more than one of the fonts and the list is to be read from standard input.
fn only_one_input(asked: &Checking<'_>) -> Result<(), RequestError>
    ensures { IfErr result (IsErrorOfCheck asked.now) }
{
    let dashes = dashes(asked.fonts.as_slice());
    if dashes > 1 {
        return Err(RequestError::TwoFonts);
    }
    if dashes > 0 && is_input(asked.list) {
        return Err(RequestError::FontAndList);
    }
    Ok(())
}

/// Returns the number of these names that are `-`.
fn dashes(names: &[&str]) -> usize
    ensures { result ≡ dashes_in names.now }
{
    names.iter().filter(|name| **name == "-").count()
}

/// Returns how a check of fonts with these numbers ended, by whether the list of fonts was read to its end.
fn done_of(tally: Tally, ended: bool) -> Done
    ensures { done_status result ≡ check_status ended tally }
{
    if !ended {
        return Done::FileNotEnded;
    }
    if tally.unread > 0 {
        return Done::FontNotRead;
    }
    if tally.reported > 0 {
        return Done::SomeRefused;
    }
    Done::AllSet
}

/// What the fonts of a request are read and printed with.
#[derive(Drop)]
pub(crate) struct Fonts<'a, F> {
    pub alloc: Global,
    pub files: &'a F,
    pub layout: CheckLayout,
}

/// Reads the fonts of these names in order, and writes the text of each. Returns their numbers, and whether `input` was
/// read, which a font of the name `-` does.
fn check_fonts<F, I, O>(
    fonts: &Fonts<'_, F>,
    names: &[&str],
    input: &mut I,
    out: &mut O,
) -> Result<(Tally, bool), ToolFault>
where
    F: Opens,
    I: Read,
    O: Write,
    ensures text { IfOk result (λ done. AddsFonts fonts.now.layout
        (font_bytes_of (F.known fonts.now.files.now) (I.remaining input.old)) (map (λ name. name.now) names.now)
        (O.contents out.old) (tally_of []) (O.contents out.new) done.0) }
    ensures unread { IfOk result (λ done. done.1 ≡ false → input.new ≡ input.old) }
    ensures fault { IfErr result (λ fault. (fault ≡ ToolFault.OutOfMemory) ⊎ (fault ≡ ToolFault.Write)) }
{
    let (mut tally, mut is_read) = (Tally::new(), false);
    for name in names {
        let bytes = bytes_once(fonts, name, &mut is_read, input);
        tally = write_font(fonts, (name.as_bytes(), bytes), tally, out)?;
    }
    Ok((tally, is_read))
}

/// Reads the font of this name as `font_bytes` does, and notes that `input` was read. A second font in `input`, which
/// `only_one_input` excludes, would not be read.
fn bytes_once<F, I>(
    fonts: &Fonts<'_, F>,
    name: &str,
    is_read: &mut bool,
    input: &mut I,
) -> Result<Vec<u8>, ReadFault>
where
    F: Opens,
    I: Read,
    ensures bytes { (start : Option (List ℕ)) → (is_read.old ≡ false → I.remaining input.old ≡ start)
        → IfOk result (λ bytes. IfSome (font_bytes_of (F.known fonts.now.files.now) start name.now)
        (λ all. HaveSameFont bytes.items all)) }
    ensures unread { is_read.new ≡ false → (is_read.old ≡ false) × (input.new ≡ input.old) }
{
    if name == "-" {
        if *is_read {
            return Err(ReadFault::NotRead);
        }
        *is_read = true;
    }
    font_bytes(fonts.alloc, fonts.files, name, input)
}

/// Returns the verdict on a font of which these bytes were kept. Fails if an allocation fails or failed.
fn verdict_of(
    alloc: Global,
    bytes: Result<Vec<u8>, ReadFault>,
    strict: bool,
) -> Result<Verdict, AllocError>
    ensures { (known : Option (List ℕ)) → IfOk bytes (λ bytes. IfSome known (λ all. HaveSameFont bytes.items all))
        → IfOk result (λ verdict. IfSome known (λ all. IsFound strict all verdict)) }
{
    match bytes {
        Ok(bytes) => Verdict::check(alloc, bytes.as_slice(), strict),
        Err(ReadFault::NotRead) => Ok(Verdict::NotRead),
        Err(ReadFault::OutOfMemory) => Err(AllocError),
    }
}

/// Writes the text of a font with this name, of which these bytes were kept, unless it is accepted without warnings and
/// `--quiet` is given. Returns the numbers of all fonts, of which `tally` has those before.
pub(crate) fn write_font<F, O>(
    fonts: &Fonts<'_, F>,
    font: (&[u8], Result<Vec<u8>, ReadFault>),
    tally: Tally,
    out: &mut O,
) -> Result<Tally, ToolFault>
where
    F: Opens,
    O: Write,
    ensures text { (known : List ℕ → Option (List ℕ))
        → IfOk font.entry.1 (λ bytes. IfSome (known font.entry.0.now) (λ all. HaveSameFont bytes.items all))
        → IfOk result (λ all. AddsFonts fonts.now.layout known (font.entry.0.now ∷ [])
        (O.contents out.old) tally (O.contents out.new) all) }
    ensures fault { IfErr result (λ fault. (fault ≡ ToolFault.OutOfMemory) ⊎ (fault ≡ ToolFault.Write)) }
{
    let (name, bytes) = font;
    let verdict = verdict_of(fonts.alloc, bytes, fonts.layout.strict)?;
    if matches!(verdict, Verdict::Refused(_)) {
        fonts.files.note_refused();
    }
    write_shown(fonts.alloc, fonts.layout, (name, &verdict), out)?;
    Ok(tally.with(&verdict))
}

/// Writes the text of a font with this name and this verdict, if it is shown.
fn write_shown<O: Write>(
    alloc: Global,
    layout: CheckLayout,
    row: (&[u8], &Verdict),
    out: &mut O,
) -> Result<(), ToolFault>
    ensures text { OnOk result (Appends (O.contents out.old) (O.contents out.new)
        (text_shown layout (row.entry.0.now, row.entry.1.now))) }
    ensures fault { IfErr result (λ fault. (fault ≡ ToolFault.OutOfMemory) ⊎ (fault ≡ ToolFault.Write)) }
{
    let (name, verdict) = row;
    let text = if layout.quiet && verdict.is_plain() {
        Vec::new(alloc)
    } else {
        verdict_text(alloc, layout.format, name, verdict)?
    };
    write_text(text.as_slice(), out)
}

/// Writes the line of `--summary` for these numbers, if it is requested.
fn write_summary<O: Write>(
    alloc: Global,
    layout: CheckLayout,
    tally: Tally,
    out: &mut O,
) -> Result<(), ToolFault>
    ensures text { OnOk result (Appends (O.contents out.old) (O.contents out.new)
        (summary_text layout tally)) }
    ensures fault { IfErr result (λ fault. (fault ≡ ToolFault.OutOfMemory) ⊎ (fault ≡ ToolFault.Write)) }
{
    if !layout.summary {
        return Ok(());
    }
    let line = summary_line(alloc, layout.format, tally)?;
    write_text(line.as_bytes(), out)
}
