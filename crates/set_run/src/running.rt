//! A batch that returns a report of all results.
ghost use Rattle.std.specs.Prelude.{◌≡◌, ◌<◌, ◌≤◌, ◌⊎◌, [], All, Err, IfOk, IfErr, IsSome, MatchResult, map, vec_len};
ghost use Rattle.batch.specs.declared.run_fault.RunFault.TheVariants.{TooManySources, OutOfMemory as NoMemory, Thread};
ghost use Rattle.lanes.specs.declared.ending.LaneEnd.TheVariants.{Complete};
ghost use Rattle.batch.specs.Closed.{AreBack};
ghost use Rattle.set_run.specs.Reports.{AreAnswered, AreReported, AreReportsOf};

use crate::answer_lists::AnswerLists;
use crate::sources::LineItems;
use crate::{Answers, LaneReport, LineSource, Report};
use batch::{ClosedLane, Gate, ItemOptions, MOST_SOURCES, Plan, RunFault, run_items};
use line_lane::LineMaker;
use set_line::Terms;
use std::alloc::{AllocError, Global};
use std::sync::{Arc, Wait};
use std::thread::Threads;

/// Returns a source of lines as a source of items, with the maker of its answers.
fn item_source<S: Drop>(pair: (S, Arc<Terms>)) -> (LineItems<S>, LineMaker)
    ensures { result ≡ pair }
{
    let (source, terms) = pair;
    (LineItems::new(source), LineMaker::new(terms))
}

/// Returns each source as a source of items. The error means that an allocation failed.
fn item_sources<S: Drop>(
    alloc: Global,
    sources: Vec<(S, Arc<Terms>)>,
) -> Result<Vec<(LineItems<S>, LineMaker)>, AllocError>
    ensures { IfOk result (λ made. made.items ≡ sources.items) }
{
    let mut made = Vec::with_capacity(alloc, sources.len())?;
    for pair in sources {
        made.push(item_source(pair))?;
    }
    Ok(made)
}

/// Returns the reports of lanes that have all ended, each with its results. The error means that an
/// allocation failed.
fn reports_of<S: Drop>(
    alloc: Global,
    lanes: Vec<ClosedLane<LineItems<S>>>,
    lists: Vec<Answers>,
) -> Result<Vec<LaneReport<S>>, AllocError>
    requires ended { All (λ lane. IsSome lane.end) lanes.items }
    requires lists { vec_len lists ≡ vec_len lanes }
    ensures { IfOk result (λ reports. AreReportsOf lanes.items lists.items reports.items) }
{
    let (mut lanes, mut lists) = (lanes, lists);
    let Some(lane) = lanes.pop() else {
        return Ok(Vec::new(alloc));
    };
    let Some(answers) = lists.pop() else {
        unreachable!()
    };
    let ClosedLane { source, end } = lane;
    let source = source.into_source();
    let Some(end) = end else { unreachable!() };
    let mut reports = reports_of(alloc, lanes, lists)?;
    reports.push(LaneReport {
        source,
        answers,
        end,
    })?;
    Ok(reports)
}

/// Sets the lines of up to 64 sources, each with its settings, and returns a report of each source. There are
/// one lane and one thread per source, and at most as many workers as the plan states; the calling thread is
/// the collecting thread. It may wait for its threads, for a source and for the start barrier.
///
/// If an allocation fails in a setter, its lane is abandoned and the others continue.
///
/// Errors: `TooManySources`, checked first; `OutOfMemory`, if an allocation fails in the calling thread;
/// `Thread`, if a thread can't be started. After an error all started threads have been joined, and the
/// sources and results are dropped. Without sources the report is empty, and the only possible error is
/// `OutOfMemory`.
#[tactic(auto, using(crate::proofs::FinishedLemmas::answered))]
pub fn run<R: Threads + Wait + Sync, S: LineSource + Send + Drop, G: Gate + Sync>(
    rt: &R,
    alloc: Global,
    sources: Vec<(S, Arc<Terms>)>,
    plan: Plan,
    gate: &G,
) -> Result<Report<S>, RunFault>
    ensures lanes { IfOk result (λ report. AreReported S.to_come S.failed sources.items report) }
    ensures sources { IfOk result (λ report.
        AreBack S.origin sources.items (map (λ lane. lane.source) report)) }
    ensures finished { IfOk result (λ report. All (λ lane. lane.end ≡ Complete) report
        → AreAnswered S.to_come sources.items report) }
    ensures none { vec_len sources ≡ 0
        → MatchResult result (λ report. report ≡ []) (λ fault. fault ≡ NoMemory) }
    ensures many { 64 < vec_len sources → result ≡ Err TooManySources }
    ensures few { vec_len sources ≤ 64
        → IfErr result (λ fault. (fault ≡ NoMemory) ⊎ (fault ≡ Thread)) }
{
    if sources.len() > MOST_SOURCES {
        return Err(RunFault::TooManySources);
    }
    let lists = AnswerLists::new(alloc, sources.len())?;
    let made = item_sources(alloc, sources)?;
    let lanes = 1;
    let options = ItemOptions { plan, gate, lanes };
    let (lists, ended) = run_items(rt, alloc, made, options, lists);
    let ended = ended?;
    if ended.refusal.is_some() {
        return Err(RunFault::OutOfMemory);
    }
    let reports = reports_of(alloc, ended.lanes, lists.lists)?;
    Ok(Report::new(reports))
}
