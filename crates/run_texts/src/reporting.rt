//! The output of a batch of any sources of lines, from its report.
ghost use Rattle.std.specs.Prelude.{◌≡◌, ◌⊎◌, ◌+◌, ◌<◌, ◌≤◌, ◌++◌, List, Err, Some, IfErr, IfOk, OnOk, count_by, vec_len};
ghost use Rattle.std.specs.List.{AllZip};
ghost use Rattle.std.specs.declared.alloc.Global.{Global as Heap};
ghost use Rattle.std.specs.declared.sync.Arc.{Arc as Shared};
ghost use Rattle.set_line.specs.Terms.{TermsValue as Settings};
ghost use Rattle.set_run.specs.declared.report.LaneReport.{LaneReport as Lane};
ghost use Rattle.batch.specs.declared.run_fault.RunFault.{RunFault as Fault};
ghost use Rattle.batch.specs.declared.run_fault.RunFault.TheVariants.{TooManySources, OutOfMemory as NoMemory, Thread};
ghost use Rattle.tfm_tables.specs.declared.fault.FontFault.{FontFault as Refusal};
ghost use Rattle.tfm_tables.specs.Acceptance.{font_fault_of};
ghost use Rattle.tfm_tables.specs.Font.{FontValue, IsFontOf};
ghost use Rattle.line_records.specs.Results.{is_refusal};
ghost use Rattle.run_texts.specs.ReportText.{lanes_text, run_text};
ghost use Rattle.run_texts.specs.RunText.{bytes_style, lane_text, records_from, why_of};
ghost use Rattle.run_texts.specs.Setting.{AreOwnReports, HasTerms, IsWritten};

use crate::font_setting::with_font;
use crate::record::{push_end_line, push_head};
use crate::record_count::RefusedCount;
use crate::run_summary::{all_refused, summary_of};
use crate::{FontSetting, Summary, ToolFault, write_text};
use batch::Gate;
use run_plan::Plan;
use set_line::{Answer, OutOfMemory, Outcome, Terms, Version, record};
use set_run::{LaneReport, LineSource, run};
use std::alloc::Global;
use std::io::Write;
use std::sync::{Arc, Wait};
use std::thread::Threads;

/// The options of a batch of lines and of its output.
#[derive(Drop)]
pub struct ReportOptions<'a, G> {
    pub plan: Plan,
    /// The record format.
    pub version: Version,
    /// The start barrier of the threads.
    pub gate: &'a G,
}

/// Returns the number of refused lines among these results.
fn count_refused(answers: &[Answer]) -> u64
    ensures { result ≡ count_by (λ answer. is_refusal answer.outcome) answers.now }
{
    let mut count = 0;
    for answer in answers {
        count += u64::from(matches!(answer.outcome(), Outcome::Refused(_)));
    }
    count
}

impl<S> RefusedCount for LaneReport<S> {
    ghost use Rattle.std.specs.Prelude.{None};
    ghost use Rattle.run_texts.specs.RunText.{refused_lines};

    ghost refused = { λ lane. refused_lines None lane.answers };

    #[tactic(auto, using(crate::proofs::LawLemmas::of_bytes))]
    fn refused(&self) -> u64 {
        count_refused(self.answers.as_slice())
    }
}

/// Appends the records of the results of the source with this number.
fn append_records(
    source: u64,
    answers: &[Answer],
    version: Version,
    text: &mut Vec<u8>,
) -> Result<(), OutOfMemory>
    ensures { OnOk result (text.new.items
        ≡ text.old.items ++ records_from source 1 (bytes_style version) answers.now) }
{
    let mut place = 0;
    for answer in answers {
        place += 1;
        record(source, place, answer, version, text)?;
    }
    Ok(())
}

/// Appends the records and the end line of the source with this number.
fn append_lane<S>(
    source: u64,
    lane: &LaneReport<S>,
    version: Version,
    text: &mut Vec<u8>,
) -> Result<(), OutOfMemory>
    ensures { OnOk result (text.new.items
        ≡ text.old.items ++ lane_text source (bytes_style version) lane.now.answers (why_of lane.now.end)) }
{
    let answers = lane.answers.as_slice();
    append_records(source, answers, version, text)?;
    push_end_line(source, version, lane.end, answers.len() as u64, text)?;
    Ok(())
}

/// Appends the records and the end lines of sources, which are numbered from 1.
fn append_lanes<S>(
    lanes: &[LaneReport<S>],
    version: Version,
    text: &mut Vec<u8>,
) -> Result<(), OutOfMemory>
    ensures { OnOk result (text.new.items
        ≡ text.old.items ++ lanes_text 1 (bytes_style version) lanes.now) }
{
    let mut source = 0;
    for lane in lanes {
        source += 1;
        append_lane(source, lane, version, text)?;
    }
    Ok(())
}

/// Returns the output for a report.
fn report_text<S>(
    alloc: Global,
    lanes: &[LaneReport<S>],
    version: Version,
) -> Result<Vec<u8>, ToolFault>
    ensures text { IfOk result (λ text. text.items ≡ run_text (bytes_style version) lanes.now) }
    ensures fault { IfErr result (λ fault. fault ≡ ToolFault.OutOfMemory) }
{
    let mut text = Vec::new(alloc);
    match push_head(version, &mut text) {
        Ok(()) => (),
        Err(_) => return Err(ToolFault::OutOfMemory),
    }
    match append_lanes(lanes, version, &mut text) {
        Ok(()) => Ok(text),
        Err(_) => Err(ToolFault::OutOfMemory),
    }
}

/// Sets the lines of all sources of lines, each with its settings, by [`run`], and writes the output for its report:
/// the first line of the record format, if it has one, and then, for each source in order, its records and its end
/// line. Returns the summary.
///
/// The error is `Run` if the batch failed, with `TooManySources` exactly if there are more than 64 sources;
/// `OutOfMemory` if an allocation fails after the batch; or `Write` if the writer fails. It is never `Font`.
/// After `Run` nothing was written. After `Write` or `OutOfMemory` nothing is stated about how much was
/// written.
pub fn set_each<R, S, G, W>(
    rt: &R,
    alloc: Global,
    sources: Vec<(S, Arc<Terms>)>,
    options: &ReportOptions<'_, G>,
    out: &mut W,
) -> Result<Summary, ToolFault>
where
    R: Threads + Wait + Sync,
    S: LineSource + Send + Drop,
    G: Gate + Sync,
    W: Write,
    ensures text { IfOk result (λ summary. (reports : List (Lane S))
        × AreOwnReports S.to_come S.failed S.origin sources.items reports
        × IsWritten (bytes_style options.now.version) reports (W.contents out.old) (W.contents out.new) summary) }
    ensures many { 64 < vec_len sources → result ≡ Err (ToolFault.Run TooManySources) }
    ensures few { vec_len sources ≤ 64 → (fault : Fault) → result ≡ Err (ToolFault.Run fault)
        → (fault ≡ NoMemory) ⊎ (fault ≡ Thread) }
    ensures run { (fault : Fault) → result ≡ Err (ToolFault.Run fault) → out.new ≡ out.old }
    ensures font { (fault : Refusal) → result ≡ Err (ToolFault.Font fault) → ⊥ }
{
    let report = run(rt, alloc, sources, options.plan, options.gate).map_err(ToolFault::Run)?;
    let text = report_text(alloc, report.lanes(), options.version)?;
    write_text(text.as_slice(), out)?;
    let refused = all_refused(report.lanes());
    Ok(summary_of(refused, report.lanes()))
}

/// Reads a font, sets the lines of all sources with it in one batch, and writes the output as `set_each`
/// does. The error is `Font`, with the first font error, exactly if the font isn't accepted. Otherwise the
/// errors are those of `set_each`; `OutOfMemory` is also returned if an allocation fails before the batch.
/// After `Font` or `Run` nothing was written. After `Write` or `OutOfMemory` nothing is stated about how much
/// was written.
pub fn set_text<R, S, G, W>(
    rt: &R,
    font: &FontSetting<'_>,
    sources: Vec<S>,
    options: &ReportOptions<'_, G>,
    out: &mut W,
) -> Result<Summary, ToolFault>
where
    R: AllocGlobal + Threads + Wait + Sync,
    S: LineSource + Send + Drop,
    G: Gate + Sync,
    W: Write,
    ensures text { IfOk result (λ summary. (f : FontValue) × (pairs : List (S × Shared Settings Heap)) × (reports : List (Lane S))
        × IsFontOf font.now.bytes.now font.now.size f
        × AllZip (HasTerms (record { font = f; limit = font.now.limit; policy = font.now.policy })) sources.items pairs
        × AreOwnReports S.to_come S.failed S.origin pairs reports
        × IsWritten (bytes_style options.now.version) reports (W.contents out.old) (W.contents out.new) summary) }
    ensures font { (fault : Refusal) → result ≡ Err (ToolFault.Font fault)
        → (font_fault_of font.now.bytes.now ≡ Some fault) × (out.new ≡ out.old) }
    ensures refused { (fault : Refusal) → font_fault_of font.now.bytes.now ≡ Some fault
        → result ≡ Err (ToolFault.Font fault) }
    ensures many { 64 < vec_len sources → (result ≡ Err (ToolFault.Run TooManySources))
        ⊎ (result ≡ Err ToolFault.OutOfMemory)
        ⊎ ((fault : Refusal) × (result ≡ Err (ToolFault.Font fault))) }
    ensures few { vec_len sources ≤ 64 → (fault : Fault) → result ≡ Err (ToolFault.Run fault)
        → (fault ≡ NoMemory) ⊎ (fault ≡ Thread) }
    ensures run { (fault : Fault) → result ≡ Err (ToolFault.Run fault) → out.new ≡ out.old }
{
    let sources = with_font(rt.alloc(), font, sources)?;
    set_each(rt, rt.alloc(), sources, options, out)
}
