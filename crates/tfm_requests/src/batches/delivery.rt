//! Sets the lines of the sources of a request in one batch, and writes the output.
ghost use Rattle.std.specs.Prelude.{◌≡◌, ◌≤◌, List, map, Err, IfErr, IfOk, OnOk, vec_len};
ghost use Rattle.std.specs.Io.KnownBytes.{Keeps};
ghost use Rattle.set_run.specs.declared.report.LaneReport.{LaneReport as Lane};
ghost use Rattle.batch.specs.declared.run_fault.RunFault.{RunFault as Fault};
ghost use Rattle.line_chunks.specs.Reading.{Told};
ghost use Rattle.run_texts.specs.ChunkLanes.{AreReadReports};
ghost use Rattle.run_texts.specs.Endings.{summary_status};
ghost use Rattle.run_texts.specs.ReportText.{summary_of_run};
ghost use Rattle.tfm_requests.specs.Jobs.{told_with_terms};
ghost use Rattle.tfm_requests.specs.Requests.{IsDelivered, IsPrinted, style_of};
ghost use Rattle.tfm_requests.specs.Status.{done_status, tool_status};
ghost use Rattle.tfm_requests.specs.Told.{told_reader};

use crate::failures::done::Done;
use batch::NoGate;
use command_line::Layout;
use encodings::Encoding;
use line_chunks::LineCounts;
use run_texts::{OutputOptions, Summary, ToolFault, status, stream_readers};
use set_line::Terms;
use std::cell::Cell;
use std::io::{Read, Write};
use std::sync::{Arc, Wait};
use std::thread::Threads;

/// The time at which the output of a batch is written.
#[derive(Clone, Copy)]
pub(crate) enum Delivery {
    /// The output is written when the batch is done, in the order of the sources.
    AtTheEnd,
    /// The output is written as the results arrive.
    AsTheyCome,
}

/// How the lines of a batch are read, and its output is written.
#[derive(Clone, Copy)]
pub(crate) struct Output<'a> {
    /// The options of the request, except for its encoding.
    pub layout: &'a Layout,
    /// The encoding, if the lines are in UTF-8.
    pub encoding: Option<Encoding<'static>>,
    /// When the output is written.
    pub delivery: Delivery,
    /// A cell for the numbers of lines that were set and refused.
    pub counts: Option<&'a Cell<LineCounts>>,
}

/// Sets the lines of all readers, each with its settings, in one batch, and writes the output. Returns the
/// summary.
fn deliver<R, T, O>(
    rt: &R,
    readers: Vec<(T, Arc<Terms>)>,
    output: &Output<'_>,
    out: &mut O,
) -> Result<Summary, ToolFault>
where
    R: AllocGlobal + Threads + Wait + Sync,
    T: Read + Send + Drop,
    O: Write,
    requires { vec_len readers ≤ 64 }
    ensures text { IfOk result (λ summary. (reports : List (Lane Told))
        × AreReadReports T.remaining output.now.layout.now.crlf readers.items reports
        × IsDelivered output.now.delivery (style_of output.now) reports (O.contents out.old) (O.contents out.new)
        × (summary ≡ summary_of_run output.now.encoding reports)) }
    ensures run { (fault : Fault) → result ≡ Err (ToolFault.Run fault) → out.new ≡ out.old }
    ensures status { IfErr result (λ fault. tool_status fault ≡ 5) }
{
    let layout = output.layout;
    let options = OutputOptions {
        plan: layout.plan,
        format: layout.format,
        encoding: output.encoding,
        crlf: layout.crlf,
        whole_reads: layout.whole_reads,
        gate: &NoGate,
        counts: output.counts,
    };
    match output.delivery {
        Delivery::AtTheEnd => run_texts::set_readers(rt, rt.alloc(), readers, &options, out),
        Delivery::AsTheyCome => stream_readers(rt, rt.alloc(), readers, &options, out),
    }
}

/// Sets the lines of all readers, each with its settings, in one batch, writes the output, and flushes it.
/// There must be at most 64 readers. After an error of the batch, nothing was written.
pub(crate) fn set_readers<R, T, O>(
    rt: &R,
    readers: Vec<(T, Arc<Terms>)>,
    output: &Output<'_>,
    out: &mut O,
) -> Result<Done, ToolFault>
where
    R: AllocGlobal + Threads + Wait + Sync,
    T: Read + Send + Drop,
    O: Write,
    requires { vec_len readers ≤ 64 }
    ensures text { IfOk result (λ done. IsPrinted output.now.delivery
        (map (told_with_terms (told_reader T.remaining output.now.layout.now.crlf)) readers.items)
        (style_of output.now) (O.contents out.old) (O.contents out.new) (done_status done)) }
    ensures run { (fault : Fault) → result ≡ Err (ToolFault.Run fault) → out.new ≡ out.old }
    ensures status { IfErr result (λ fault. tool_status fault ≡ 5) }
{
    let summary = deliver(rt, readers, output, out)?;
    flush(out)?;
    Ok(done_of(&summary))
}

/// Flushes the output. The error is `Write` if the flush fails.
pub(crate) fn flush<O: Write>(out: &mut O) -> Result<(), ToolFault>
    ensures kept { Keeps (O.contents out.old) (O.contents out.new) }
    ensures fault { IfErr result (λ fault. fault ≡ ToolFault.Write) }
{
    match out.flush() {
        Ok(()) => Ok(()),
        Err(_) => Err(ToolFault::Write),
    }
}

/// Returns how a batch with this summary ended.
fn done_of(summary: &Summary) -> Done
    ensures { done_status result ≡ summary_status summary.now }
{
    match status(summary) {
        0 => Done::AllSet,
        1 => Done::SomeRefused,
        4 => Done::FileNotEnded,
        _ => Done::LaneAbandoned,
    }
}
