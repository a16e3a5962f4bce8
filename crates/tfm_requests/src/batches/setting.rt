//! The subcommands `set` and `stream`.
ghost use Rattle.std.specs.Prelude.{◌≡◌, ◌≢◌, ◌≤◌, [], ◌∷◌, codes, false, map, IfErr, IfOk, vec_len};
ghost use Rattle.std.specs.Arc.{arc_value};
ghost use Rattle.std.specs.List.{AllZip};
ghost use Rattle.run_texts.specs.Setting.{HasTerms};
ghost use Rattle.tfm_requests.specs.Causes.{IsFontError, IsSettingCause};
ghost use Rattle.tfm_requests.specs.Jobs.{AreTermsFor, IsSourceWith, told_with_terms};
ghost use Rattle.tfm_requests.specs.Known.{file_bytes_of, font_bytes_of, stream_bytes_of};
ghost use Rattle.tfm_requests.specs.Requests.{IsSetFrom};
ghost use Rattle.tfm_requests.specs.Status.{done_status, is_stop};
ghost use Rattle.tfm_requests.specs.Told.{told_reader};

use crate::batches::delivery::{Delivery, Output, set_readers};
use crate::batches::jobs::font_terms;
use crate::failures::done::Done;
use crate::failures::errors::{FileError, FontError, RequestError};
use crate::failures::failure::Failure;
use crate::files::opening::Opens;
use crate::files::reading::font_bytes;
use crate::files::sources::open_each;
use crate::files::vectors::encoding_of;
use batch::MOST_SOURCES;
use command_line::{Layout, Setting};
use run_texts::with_terms;
use set_line::Terms;
use std::alloc::{AllocError, Global};
use std::io::{Read, Write};
use std::sync::{Arc, Wait};
use std::thread::Threads;

/// What the arguments of `set` or `stream` request, and when the output is written.
#[derive(Clone, Copy)]
pub(crate) struct Batch<'a> {
    /// The font, the files and the options.
    pub setting: &'a Setting<'a>,
    /// The file with the encoding vector, if the arguments name one.
    pub vector: Option<&'a str>,
    /// When the output is written.
    pub delivery: Delivery,
}

impl<'a> Batch<'a> {
    /// Returns what these arguments request.
    pub fn new(setting: &'a Setting<'a>, vector: Option<&'a str>, delivery: Delivery) -> Self
        ensures { result ≡ record { setting = setting.entry; vector = vector.entry; delivery = delivery } }
    {
        Batch {
            setting,
            vector,
            delivery,
        }
    }
}

/// Reads the font of a request, and returns the settings of its lines.
fn setting_terms<F, I>(
    alloc: Global,
    files: &F,
    setting: &Setting<'_>,
    input: &mut I,
) -> Result<Arc<Terms>, FontError>
where
    F: Opens,
    I: Read,
    ensures terms { IfOk result (λ terms. AreTermsFor
        (font_bytes_of (F.known files.now) (I.remaining input.old) setting.now.font.now)
        setting.now.layout setting.now.limit (arc_value terms)) }
    ensures cause { IfErr result (IsFontError
        (font_bytes_of (F.known files.now) (I.remaining input.old) setting.now.font.now)) }
    ensures unread { setting.now.font.now ≢ codes "-" → input.new ≡ input.old }
{
    let bytes = font_bytes(alloc, files, setting.font, input)?;
    font_terms(alloc, bytes.as_slice(), &setting.layout, setting.limit)
}

/// Returns these names in order, each paired with the settings. Fails if an allocation fails.
fn with_shared<'a>(
    alloc: Global,
    names: &[&'a str],
    terms: &Arc<Terms>,
) -> Result<Vec<(&'a str, Arc<Terms>)>, AllocError>
    ensures { IfOk result (λ named. AllZip (HasTerms (arc_value terms.now)) names.now named.items) }
{
    let names = Vec::from_slice(alloc, names)?;
    with_terms(alloc, names, terms)
}

/// Opens the files of a request in order, and returns each with these settings.
fn open_all<F: Opens>(
    alloc: Global,
    files: &F,
    setting: &Setting<'_>,
    terms: &Arc<Terms>,
) -> Result<Vec<(F::File, Arc<Terms>)>, FileError>
    ensures { IfOk result (λ readers. AllZip (IsSourceWith setting.now.layout (arc_value terms.now))
        (file_bytes_of (F.known files.now) setting.now.files.items)
        (map (told_with_terms (told_reader F.File.remaining setting.now.layout.crlf)) readers.items)) }
{
    match with_shared(alloc, setting.files.as_slice(), terms) {
        Ok(named) => open_each(alloc, files, named, &setting.layout),
        Err(_) => Err(FileError::OutOfMemory),
    }
}

/// Does what `set` requests, or `stream` if it names files: reads the font and the encoding vector, opens the
/// files, sets their lines, and writes the output.
pub(crate) fn set_files<R, F, I, O>(
    rt: &R,
    files: &F,
    batch: &Batch<'_>,
    input: &mut I,
    out: &mut O,
) -> Result<Done, Failure>
where
    R: AllocGlobal + Threads + Wait + Sync,
    F: Opens,
    I: Read,
    O: Write,
    ensures text { IfOk result (λ done. IsSetFrom (F.known files.now) (I.remaining input.old)
        (O.contents out.old) (O.contents out.new) batch.now.delivery
        (file_bytes_of (F.known files.now) batch.now.setting.now.files.items)
        batch.now.setting.now batch.now.vector (done_status done)) }
    ensures untouched { IfErr result (λ failure. is_stop failure ≡ false → out.new ≡ out.old) }
    ensures cause { IfErr result (IsSettingCause (F.known files.now)
        (font_bytes_of (F.known files.now) (I.remaining input.old) batch.now.setting.now.font.now)
        batch.now.setting.now batch.now.vector) }
{
    let setting = batch.setting;
    if setting.files.len() > MOST_SOURCES {
        return Err(Failure::Request(RequestError::TooManyFiles));
    }
    let terms = setting_terms(rt.alloc(), files, setting, input)?;
    let encoding = encoding_of(rt.alloc(), files, batch.vector, setting.layout.encoding)?;
    let readers = open_all(rt.alloc(), files, setting, &terms)?;
    let output = Output {
        layout: &setting.layout,
        encoding,
        delivery: batch.delivery,
        counts: files.counts(),
    };
    Ok(set_readers(rt, readers, &output, out)?)
}

/// Returns this reader as the only one, with these settings. Fails if an allocation fails.
fn only_reader<T: Drop>(
    alloc: Global,
    reader: T,
    terms: Arc<Terms>,
) -> Result<Vec<(T, Arc<Terms>)>, FileError>
    ensures { IfOk result (λ readers. readers.items ≡ (reader, terms) ∷ []) }
{
    let mut readers = Vec::new(alloc);
    let Ok(()) = readers.push((reader, terms)) else {
        return Err(FileError::OutOfMemory);
    };
    Ok(readers)
}

/// Does what `stream` requests. If no file is named, the lines are those of standard input, and the font must
/// be in a file.
pub(crate) fn stream<R, F, I, O>(
    rt: &R,
    files: &F,
    batch: &Batch<'_>,
    input: &mut I,
    out: &mut O,
) -> Result<Done, Failure>
where
    R: AllocGlobal + Threads + Wait + Sync,
    F: Opens,
    I: Read + Send,
    O: Write,
    ensures text { IfOk result (λ done. IsSetFrom (F.known files.now) (I.remaining input.old)
        (O.contents out.old) (O.contents out.new) batch.now.delivery
        (stream_bytes_of (F.known files.now) (I.remaining input.old) batch.now.setting.now.files.items)
        batch.now.setting.now batch.now.vector (done_status done)) }
    ensures untouched { IfErr result (λ failure. is_stop failure ≡ false → out.new ≡ out.old) }
    ensures cause { IfErr result (IsSettingCause (F.known files.now)
        (font_bytes_of (F.known files.now) (I.remaining input.old) batch.now.setting.now.font.now)
        batch.now.setting.now batch.now.vector) }
{
    let setting = batch.setting;
    if !setting.files.is_empty() {
        return set_files(rt, files, batch, input, out);
    }
    if setting.font == "-" {
        return Err(Failure::Request(RequestError::FontAndText));
    }
    let terms = setting_terms(rt.alloc(), files, setting, input)?;
    let encoding = encoding_of(rt.alloc(), files, batch.vector, setting.layout.encoding)?;
    let readers = only_reader(rt.alloc(), input, terms)?;
    let output = Output {
        layout: &setting.layout,
        encoding,
        delivery: batch.delivery,
        counts: files.counts(),
    };
    Ok(set_readers(rt, readers, &output, out)?)
}
