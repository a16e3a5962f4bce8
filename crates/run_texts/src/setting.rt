//! Batches whose output is kept until the batch is done.
ghost use Rattle.std.specs.Prelude.{◌≡◌, ◌⊎◌, ◌<◌, ◌≤◌, List, Err, IfOk, vec_len};
ghost use Rattle.formats.specs.Records.{version_of};
ghost use Rattle.line_chunks.specs.Reading.{Told};
ghost use Rattle.set_run.specs.declared.report.LaneReport.{LaneReport as Lane};
ghost use Rattle.batch.specs.declared.run_fault.RunFault.{RunFault as Fault};
ghost use Rattle.batch.specs.declared.run_fault.RunFault.TheVariants.{TooManySources, OutOfMemory as NoMemory, Thread};
ghost use Rattle.tfm_tables.specs.declared.fault.FontFault.{FontFault as Refusal};
ghost use Rattle.run_texts.specs.ChunkLanes.{AreReadReports};
ghost use Rattle.run_texts.specs.RunText.{style_of};
ghost use Rattle.run_texts.specs.Setting.{IsWritten};

use crate::chunk_run::chunk_sources;
use crate::run_summary::{all_refused, summary_of};
use crate::run_text::{BatchShape, RunTexts};
use crate::{OutputOptions, Summary, ToolFault};
use batch::{Gate, MOST_SOURCES, RunFault, run_items};
use set_line::Terms;
use std::alloc::Global;
use std::io::{Read, Write};
use std::marker::Brand;
use std::sync::{Arc, Wait};
use std::thread::Threads;

/// Sets the lines of all readers in one batch, keeps its output, and writes it when the batch is done.
fn set_and_write<R, T, G, W, K>(
    rt: &R,
    alloc: Global,
    readers: Vec<(T, Arc<Terms>)>,
    options: &OutputOptions<'_, G>,
    out: &mut W,
) -> Result<Summary, ToolFault>
where
    R: Threads + Wait + Sync,
    T: Read + Send + Drop,
    G: Gate + Sync,
    W: Write,
    K: BatchShape,
    requires lanes { K.lanes ≡ vec_len readers }
    requires version { K.version ≡ version_of options.now.format }
    ensures text { IfOk result (λ summary. (reports : List (Lane Told))
        × AreReadReports T.remaining options.now.crlf readers.items reports
        × IsWritten (style_of options.now) reports (W.contents out.old) (W.contents out.new) summary) }
    ensures few { vec_len readers ≤ 64 → (fault : Fault) → result ≡ Err (ToolFault.Run fault)
        → (fault ≡ NoMemory) ⊎ (fault ≡ Thread) }
    ensures run { (fault : Fault) → result ≡ Err (ToolFault.Run fault) → out.new ≡ out.old }
    ensures font { (fault : Refusal) → result ≡ Err (ToolFault.Font fault) → ⊥ }
{
    let Ok(texts) = RunTexts::<K>::new(alloc, readers.len(), options.format.version()) else {
        return Err(ToolFault::Run(RunFault::OutOfMemory));
    };
    let Ok(sources) = chunk_sources(alloc, readers, options) else {
        return Err(ToolFault::Run(RunFault::OutOfMemory));
    };
    let (texts, ran) = run_items(rt, alloc, sources, options.batch(), texts);
    let run = match ran {
        Ok(run) => run,
        Err(fault) => return Err(ToolFault::Run(fault)),
    };
    // The collector fails only for lack of memory, and nothing is written yet.
    if let Some(_) = run.refusal {
        return Err(ToolFault::Run(RunFault::OutOfMemory));
    }
    let refused = all_refused(texts.lanes.as_slice());
    let summary = summary_of(refused, run.lanes.as_slice());
    options.store(texts.lines);
    texts.write(alloc, out)?;
    Ok(summary)
}

/// Sets the lines of all readers, each with its settings, in one batch, and writes the output when the batch
/// is done: the first line of the record format, if it has one, and then, for each reader in order, its
/// records and its end line. Returns the summary.
///
/// The error is `Run` if the batch failed, with `TooManySources` exactly if there are more than 64 readers;
/// `OutOfMemory` if an allocation fails after the batch; or `Write` if the writer fails. It is never `Font`.
/// After `Run` nothing was written. After `Write` or `OutOfMemory` nothing is stated about how much was
/// written.
pub fn set_readers<R, T, G, W>(
    rt: &R,
    alloc: Global,
    readers: Vec<(T, Arc<Terms>)>,
    options: &OutputOptions<'_, G>,
    out: &mut W,
) -> Result<Summary, ToolFault>
where
    R: Threads + Wait + Sync,
    T: Read + Send + Drop,
    G: Gate + Sync,
    W: Write,
    ensures text { IfOk result (λ summary. (reports : List (Lane Told))
        × AreReadReports T.remaining options.now.crlf readers.items reports
        × IsWritten (style_of options.now) reports (W.contents out.old) (W.contents out.new) summary) }
    ensures many { 64 < vec_len readers → result ≡ Err (ToolFault.Run TooManySources) }
    ensures few { vec_len readers ≤ 64 → (fault : Fault) → result ≡ Err (ToolFault.Run fault)
        → (fault ≡ NoMemory) ⊎ (fault ≡ Thread) }
    ensures run { (fault : Fault) → result ≡ Err (ToolFault.Run fault) → out.new ≡ out.old }
    ensures font { (fault : Refusal) → result ≡ Err (ToolFault.Font fault) → ⊥ }
{
    if readers.len() > MOST_SOURCES {
        return Err(ToolFault::Run(RunFault::TooManySources));
    }
    set_and_write::<R, T, G, W, Brand>(rt, alloc, readers, options, out)
}
