//! Batches whose output is written as the results arrive.
ghost use Rattle.std.specs.Prelude.{◌≡◌, true, ◌<◌, ◌≤◌, ◌⊎◌, ⊤, List, [], Err, None, length, map, sum_by, IfErr, IfOk, OnOk, vec_len};
ghost use Rattle.std.specs.Io.KnownBytes.{Appends};
ghost use Rattle.set_run.specs.declared.report.LaneReport.{LaneReport as Lane};
ghost use Rattle.batch.specs.declared.run_fault.RunFault.{RunFault as Fault};
ghost use Rattle.batch.specs.declared.run_fault.RunFault.TheVariants.{TooManySources, OutOfMemory as NoMemory, Thread};
ghost use Rattle.batch.specs.Closed.{IsWhole};
ghost use Rattle.line_chunks.specs.Reading.{Told};
ghost use Rattle.run_texts.specs.ChunkLanes.{AreReadReports, IsCollectedIn, fault_told, lines_told, told_lane, told_readers};
ghost use Rattle.tfm_tables.specs.declared.fault.FontFault.{FontFault as FontRefusal};
ghost use Rattle.run_texts.specs.ReportText.{summary_of_lanes, summary_of_run};
ghost use Rattle.run_texts.specs.RunText.{style_of};
ghost use Rattle.run_texts.specs.Endings.{is_text_fault};
ghost use Rattle.run_texts.specs.Streaming.{IsStreamed};
ghost use Rattle.run_texts.specs.StreamState.{IsStreamOf};

use crate::chunk_run::chunk_sources;
use crate::record_count::RecordCount;
use crate::run_summary::{all_refused, summary_of};
use crate::stream::{Stream, first_buffer, no_answers, write_buffer};
use crate::{OutputOptions, Summary, ToolFault};
use batch::{Collector, Gate, MOST_SOURCES, Refusal, RunEnd, RunFault, run_items};
use lanes::LaneEnd;
use line_chunks::{ChunkReader, ChunkText, LineCounts};
use set_line::Terms;
use std::alloc::Global;
use std::io::{Read, Write};
use std::marker::{Brand, PhantomData};
use std::sync::{Arc, Wait};
use std::thread::Threads;

/// For the proof: the state of a stream at its start.
pub(crate) trait StreamBeginning {
    ghost use Rattle.run_texts.specs.StreamState.{StreamStart};

    /// The state at the start.
    ghost start: { StreamStart };
}

/// A placeholder: the proof of the caller chooses the start.
impl StreamBeginning for Brand {
    ghost use Rattle.std.specs.Prelude.{None};
    ghost use Rattle.run_plan.specs.declared.version.Version.TheVariants.{One};
    ghost use Rattle.formats.specs.declared.record_format.RecordFormat.TheVariants.{Items};

    ghost start = { record {
      before = None;
      name = 0;
      style = record { encoding = None; format = Items One };
      lanes = 0;
    } };
}

/// The stream of a batch. For the proof: `K` has the state in which it began.
#[derive(Drop)]
struct BatchStream<'a, W, K> {
    stream: Stream<'a, W>,
    of: PhantomData<K>,
}

impl<W: Write, K: StreamBeginning> Collector for BatchStream<'_, W, K> {
    type Item = ChunkText;

    ghost lanes = { λ begun. length begun.stream.counts.items };

    ghost given = { λ begun events. IsStreamOf W.contents K.start begun.stream events };

    ghost refused = { λ begun refusal. ⊤ };

    ghost quiet = { λ begun. begun.stream.buffer.items ≡ [] };

    fn take(&mut self, lane: usize, chunk: ChunkText) -> Result<(), Refusal> {
        self.stream.take(lane, &chunk)
    }

    fn end(&mut self, lane: usize, end: LaneEnd) -> Result<(), Refusal> {
        self.stream.end(lane, end)
    }

    fn about_to_wait(&mut self) -> Result<(), Refusal> {
        self.stream.flush()
    }
}

/// Sets the lines of all readers in one batch that writes to a stream. Returns the stream, and the end of the
/// batch or the reason why it failed. If it failed, the stream is unchanged.
fn run_over<'a, R, T, G, W, K>(
    rt: &R,
    alloc: Global,
    readers: Vec<(T, Arc<Terms>)>,
    options: &OutputOptions<'_, G>,
    stream: Stream<'a, W>,
) -> (Stream<'a, W>, Result<RunEnd<ChunkReader<T>>, RunFault>)
where
    R: Threads + Wait + Sync,
    T: Read + Send + Drop,
    G: Gate + Sync,
    W: Write,
    K: StreamBeginning,
    requires { vec_len readers ≤ length stream.counts.items }
    ensures collected { IfOk result.1 (λ run. IsCollectedIn lines_told fault_told (style_of options.now)
        (IsStreamOf W.contents K.start) (told_readers T.remaining options.now.crlf readers.items)
        (map (told_lane T.remaining) run.lanes.items) stream.entry result.0) }
    ensures whole { IfOk result.1 (λ run. IsWhole run) }
    ensures fault { IfErr result.1 (λ fault. result.0 ≡ stream.entry) }
    ensures few { vec_len readers ≤ 64
        → IfErr result.1 (λ fault. (fault ≡ NoMemory) ⊎ (fault ≡ Thread)) }
{
    let begun: BatchStream<'a, W, K> = BatchStream {
        stream,
        of: PhantomData,
    };
    match chunk_sources(alloc, readers, options) {
        Ok(sources) => {
            let (begun, ran) = run_items(rt, alloc, sources, options.batch(), begun);
            (begun.stream, ran)
        }
        Err(_) => (begun.stream, Err(RunFault::OutOfMemory)),
    }
}

/// Writes the contents of the buffer, and returns the summary of a batch with this end. If an allocation
/// failed, the lines before the failure are written first, and the error is `OutOfMemory`. If the writer
/// fails, or failed before, the error is `Write`.
#[tactic(auto, using(crate::proofs::StreamLemmas::moved_out))]
fn finish<W: Write, S>(
    buffer: &mut Vec<u8>,
    counts: &[RecordCount],
    out: &mut W,
    run: &RunEnd<S>,
) -> Result<Summary, ToolFault>
    ensures text { OnOk result (Appends (W.contents out.old) (W.contents out.new) buffer.old.items) }
    ensures whole { OnOk result (run.now.refusal ≡ None) }
    ensures summary { IfOk result (λ summary.
        summary ≡ summary_of_lanes (sum_by (λ count. count.refused) counts.now)
        run.now.lanes.items) }
    ensures fault { IfErr result (λ fault. is_text_fault fault ≡ true) }
{
    if run.refusal == Some(Refusal::Output) {
        return Err(ToolFault::Write);
    }
    write_buffer(buffer, out).map_err(|_| ToolFault::Write)?;
    match run.refusal {
        None => Ok(summary_of(all_refused(counts), run.lanes.as_slice())),
        Some(_) => Err(ToolFault::OutOfMemory),
    }
}

/// Sets the lines of all readers, each with its settings, in one batch, and writes the output as the results
/// arrive: the first line of the record format, if it has one, and then the records and end lines. The
/// records of a source are in the order of its lines, and its end line follows its last record; lines of
/// other sources may be between them. Returns the summary.
///
/// The error is `Run` if the batch failed, with `TooManySources` exactly if there are more than 64 readers;
/// `OutOfMemory` if an allocation fails; or `Write` if the writer fails. It is never `Font`. After `Run`
/// nothing was written. After `Write` or `OutOfMemory` nothing is stated about how much was written.
pub fn stream_readers<R, T, G, W>(
    rt: &R,
    alloc: Global,
    readers: Vec<(T, Arc<Terms>)>,
    options: &OutputOptions<'_, G>,
    out: &mut W,
) -> Result<Summary, ToolFault>
where
    R: Threads + Wait + Sync,
    T: Read + Send + Drop,
    G: Gate + Sync,
    W: Write,
    ensures text { IfOk result (λ summary. (reports : List (Lane Told))
        × AreReadReports T.remaining options.now.crlf readers.items reports
        × IsStreamed (style_of options.now) reports (W.contents out.old) (W.contents out.new)
        × (summary ≡ summary_of_run options.now.encoding reports)) }
    ensures many { 64 < vec_len readers → result ≡ Err (ToolFault.Run TooManySources) }
    ensures few { vec_len readers ≤ 64 → (fault : Fault) → result ≡ Err (ToolFault.Run fault)
        → (fault ≡ NoMemory) ⊎ (fault ≡ Thread) }
    ensures run { (fault : Fault) → result ≡ Err (ToolFault.Run fault) → out.new ≡ out.old }
    ensures font { (fault : FontRefusal) → result ≡ Err (ToolFault.Font fault) → ⊥ }
{
    if readers.len() > MOST_SOURCES {
        return Err(ToolFault::Run(RunFault::TooManySources));
    }
    let version = options.format.version();
    let buffer = first_buffer(alloc, version)?;
    let counts = no_answers(alloc, readers.len())?;
    let stream = Stream {
        out,
        buffer,
        counts,
        lines: LineCounts::default(),
        version,
    };
    let (stream, ran) = run_over::<R, T, G, W, Brand>(rt, alloc, readers, options, stream);
    let Stream {
        out: writer,
        mut buffer,
        counts,
        lines,
        version: _,
    } = stream;
    options.store(lines);
    match ran {
        Ok(run) => finish(&mut buffer, counts.as_slice(), writer, &run),
        Err(fault) => Err(ToolFault::Run(fault)),
    }
}
