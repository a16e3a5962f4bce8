//! The files with lines of a request.
ghost use Rattle.std.specs.Prelude.{IfOk};
ghost use Rattle.std.specs.List.{AllZip};
ghost use Rattle.line_chunks.specs.Reading.{told_unread};
ghost use Rattle.tfm_requests.specs.Jobs.{IsOpenedWith};
ghost use Rattle.tfm_requests.specs.Told.{IsSourceOf, told_reader};

use crate::failures::errors::{FileError, ReadFault};
use crate::files::opening::{Opens, Purpose};
use crate::files::reading::opened;
use command_line::Layout;
use set_line::Terms;
use std::alloc::Global;
use std::sync::Arc;

/// Opens the file of this name. `number` is the number of the file in the error.
#[tactic(auto, using(crate::proofs::SourceLemmas::sources))]
fn open_file<F: Opens>(
    files: &F,
    number: usize,
    name: &str,
    layout: &Layout,
) -> Result<F::File, FileError>
    ensures { IfOk result (λ file. IsSourceOf layout.now.crlf (F.known files.now name.now)
        (told_unread layout.now.crlf (F.File.remaining file))) }
{
    match opened(files, name, Purpose::Lines) {
        Ok(file) => Ok(file),
        Err(ReadFault::NotRead) => Err(FileError::NotOpened(number)),
        Err(ReadFault::OutOfMemory) => Err(FileError::OutOfMemory),
    }
}

/// Opens the files of these names in order, and returns each with the settings of its name. The error is that of
/// the first file that isn't opened, or that an allocation failed.
pub(crate) fn open_each<F: Opens>(
    alloc: Global,
    files: &F,
    jobs: Vec<(&str, Arc<Terms>)>,
    layout: &Layout,
) -> Result<Vec<(F::File, Arc<Terms>)>, FileError>
    ensures { IfOk result (λ readers. AllZip (IsOpenedWith (F.known files.now) layout.now
        (told_reader F.File.remaining layout.now.crlf)) jobs.entry.items readers.items) }
{
    let mut readers = Vec::new(alloc);
    for (name, terms) in jobs {
        let file = open_file(files, readers.len() + 1, name, layout)?;
        readers
            .push((file, terms))
            .map_err(|_| FileError::OutOfMemory)?;
    }
    Ok(readers)
}
