//! Failed allocations of `counts_text`, `list_text`, `set_each`, `set_text` and `perform`. If every allocation succeeds, the whole output is written. The
//! toolchain's option `--fail-alloc` lets one allocation fail. The first allocations make the arguments of the call. If
//! a later one fails, nothing is written; or a lane is abandoned, and the whole output has an end line that says so; or
//! `stream` ends with a whole line; or the memory only saves time. The text that is printed states which case it was.
use super::doubles::COUNTS;
use super::requests::{LINES, SKIPPED, vector};
use super::single_functions::EMPTY_LISTING;
use batch::NoGate;
use batch_support::{small_plan, with_terms};
use command_line::{Layout, Setting};
use line_records::RecordFormat;
use run_texts::{ReportOptions, set_each, terms_of};
use set_line::{Limit, Policy, Version};
use set_run::ReaderSource;
use std::alloc::Global;
use std::process::Abort;
use std::sync::Wait;
use std::test::Fail;
use std::thread::Threads;
use test_support::fonts::files::{NO_CHARACTERS, PLAIN};
use test_support::{FailingWriter, TricklingReader};
use tfm_tables::Font;
use tfm_tool::{
    Arguments, Done, Failure, FontSetting, InMemory, Request, Summary, ToolFault, counts_text,
    list_text, perform, set_text, status,
};

/// Whether a line of a source is an end line for memory that was lacking, and counts this many records.
fn is_early_end(line: &str, records: usize) -> bool {
    let (_, end) = line.split_once(" end ").unwrap_or(("", ""));
    let (reason, count) = end.split_once(" ").unwrap_or(("", ""));
    matches!(reason, "memory" | "gave-up") && count.parse::<usize>() == Ok(records)
}

/// How many sources have no end line, and how many an end line for memory that was lacking. The other ones were read
/// to their ends.
type Ends = (usize, usize);

/// Every source was read to its end.
const COMPLETE: Option<Ends> = Some((0, 0));

/// One source ends early, and the other ones were read to their ends.
const ONE_EARLY: Option<Ends> = Some((0, 1));

/// How many lines of a text belong to the source with this whole output, and how they end. `None` means that a line
/// isn't the next one of the whole output, nor an early end, or that it follows the end.
fn end_of(text: &str, whole: &str) -> Option<(usize, Ends)> {
    let number = whole.chars().next()?;
    let mut rest = whole.lines();
    let mut count = 0usize;
    let mut ends = (1, 0);
    for line in text.lines() {
        if !line.starts_with(number) {
            continue;
        }
        if ends.0 == 0 {
            return None;
        }
        if rest.next() != Some(line) {
            if !is_early_end(line, count) {
                return None;
            }
            ends = (0, 1);
        } else if line.contains(" end complete ") {
            ends = (0, 0);
        }
        count = count.wrapping_add(1);
    }
    Some((count, ends))
}

/// Returns how the sources end in a text of whole lines. Each source has its first records, and then at most one
/// end line. The whole output of each source is given, and its number has one digit. Returns `None` for any other
/// text. Nothing is allocated.
fn ends_of(text: &str, wholes: &[&str]) -> Option<Ends> {
    let mut lines = 0usize;
    let mut ends = (0usize, 0usize);
    for whole in wholes {
        let (count, end) = end_of(text, whole)?;
        lines = lines.wrapping_add(count);
        ends = (ends.0.wrapping_add(end.0), ends.1.wrapping_add(end.1));
    }
    let cut = !text.is_empty() && !text.ends_with('\n');
    (!cut && lines == text.lines().count()).then_some(ends)
}

/// The output for two sources, each of them: for `ab` and `c`, and for `a`.
static OF_TWO: [&str; 2] = [
    "1:1 set 491520 c97=327680 c98=163840\n1:2 set 491520 c99=491520\n1 end complete 2\n",
    "2:1 set 327680 c97=327680\n2 end complete 1\n",
];

/// Calls `set_each` or `set_text` for two sources. `None` means that an allocation of the arguments failed.
fn set_two<R: Threads + Wait + Sync + AllocGlobal>(
    rt: &R,
    each: bool,
    out: &mut Vec<u8>,
) -> Option<Result<Summary, ToolFault>> {
    out.reserve(256).ok()?;
    let mut sources = Vec::new(rt.alloc());
    for bytes in [b"ab\nc".as_slice(), b"a"] {
        let reader = TricklingReader::new(bytes, 1, usize::MAX);
        sources.push(ReaderSource::new(rt.alloc(), reader)).ok()?;
    }
    let font = FontSetting {
        bytes: &PLAIN,
        size: None,
        limit: Limit::new(100)?,
        policy: Policy::Refuse,
    };
    let options = ReportOptions {
        plan: small_plan()?,
        version: Version::One,
        gate: &NoGate,
    };
    if !each {
        return Some(set_text(rt, &font, sources, &options, out));
    }
    let terms = terms_of(rt.alloc(), &font).ok()?;
    let sources = with_terms(rt.alloc(), &terms, sources)?;
    Some(set_each(rt, rt.alloc(), sources, &options, out))
}

/// Calls `set_each` or `set_text`, and prints how the call ended.
fn report_of_two<R: Abort + Threads + Wait + Sync + AllocGlobal + Print>(
    rt: &R,
    each: bool,
) -> Result<(), Fail> {
    let mut out = Vec::new(rt.alloc());
    let done = set_two(rt, each, &mut out);
    let ends = ends_of(str::from_utf8(out.as_slice()).unwrap_or(""), &OF_TWO);
    let told = match done {
        None => "no memory for the arguments",
        Some(Ok(summary)) if summary.memory && ends == ONE_EARLY => "a lane ended early",
        Some(Ok(summary)) if status(&summary) == 0 && ends == COMPLETE => "whole",
        Some(Err(ToolFault::OutOfMemory)) if out.is_empty() => "out of memory",
        Some(Err(ToolFault::Run(_))) if out.is_empty() => "the run is refused",
        Some(_) => panic!(rt; "another outcome"),
    };
    Ok(println!(rt; "{told}")?)
}

#[test]
fn a_refused_request_of_a_text(rt: HostRuntime) -> Result<(), Fail> {
    report_of_two(&rt, false)
}

#[test]
fn a_refused_request_of_a_report(rt: HostRuntime) -> Result<(), Fail> {
    report_of_two(&rt, true)
}

/// Calls `list_text` or `counts_text` for the font without characters. `None` means that an allocation of the arguments
/// failed.
fn write_font<R: AllocGlobal>(
    rt: &R,
    lists: bool,
    out: &mut Vec<u8>,
) -> Option<Result<(), ToolFault>> {
    out.reserve(256).ok()?;
    if !lists {
        return Some(counts_text(rt.alloc(), &NO_CHARACTERS, out));
    }
    let font = Font::read(rt.alloc(), &NO_CHARACTERS, None).ok()?;
    Some(list_text(rt.alloc(), &font, out))
}

/// Calls `list_text` or `counts_text`, whose output is this one, and prints how the call ended.
fn report_of_font<R: Abort + AllocGlobal + Print>(
    rt: &R,
    lists: bool,
    wanted: &str,
) -> Result<(), Fail> {
    let mut out = Vec::new(rt.alloc());
    let told = match write_font(rt, lists, &mut out) {
        None => "no memory for the arguments",
        Some(Ok(())) if out.as_slice() == wanted.as_bytes() => "whole",
        Some(Err(ToolFault::OutOfMemory)) if out.is_empty() => "out of memory",
        Some(_) => panic!(rt; "another outcome"),
    };
    Ok(println!(rt; "{told}")?)
}

#[test]
fn a_refused_request_of_counts(rt: HostRuntime) -> Result<(), Fail> {
    report_of_font(&rt, false, COUNTS)
}

#[test]
fn a_refused_request_of_a_listing(rt: HostRuntime) -> Result<(), Fail> {
    report_of_font(&rt, true, EMPTY_LISTING)
}

/// Returns the request to stream two files, or to set the lines of a file with the encoding of a vector. `None` means
/// that an allocation failed.
fn requested_of(alloc: Global, streams: bool) -> Option<Arguments<'static>> {
    let files = if streams {
        ["ab", "a"].as_slice()
    } else {
        &["lines"]
    };
    let layout = Layout {
        size: None,
        plain_size: false,
        policy: Policy::Skip,
        crlf: false,
        encoding: None,
        plan: small_plan()?,
        whole_reads: false,
        format: RecordFormat::Items(Version::One),
        verbose: false,
    };
    let setting = Setting {
        font: "plain",
        limit: Limit::new(100)?,
        files: Vec::from_slice(alloc, files).ok()?,
        layout,
    };
    let (request, vector) = if streams {
        (Request::Stream(setting), None)
    } else {
        (Request::Set(setting), Some("v.enc"))
    };
    Some(Arguments { request, vector })
}

/// Carries out a request. `None` means that an allocation of the arguments failed.
fn carry_out<R: Threads + Wait + Sync + AllocGlobal>(
    rt: &R,
    streams: bool,
    out: &mut FailingWriter,
) -> Option<Result<Done, Failure>> {
    out.text.reserve(256).ok()?;
    let vector = vector(rt.alloc()).ok()?;
    let requested = requested_of(rt.alloc(), streams)?;
    let files = [
        ("plain", PLAIN.as_slice()),
        ("v.enc", vector.as_slice()),
        ("lines", LINES),
        ("ab", b"ab\nc\n"),
        ("a", b"a"),
    ];
    let mut input = b"".as_slice();
    Some(perform(rt, &InMemory::new(&files), &requested, &mut input, out))
}

/// How a request ended with this output, if its sources have these whole outputs.
fn told_of(done: &Option<Result<Done, Failure>>, text: &str, wholes: &[&str]) -> &'static str {
    let ends = ends_of(text, wholes);
    match done {
        None => "no memory for the arguments",
        Some(Ok(Done::AllSet)) if ends == COMPLETE => "whole",
        Some(Ok(Done::LaneAbandoned)) if ends == ONE_EARLY => "a lane ended early",
        Some(Err(Failure::Tool(ToolFault::Write))) if ends == COMPLETE => "output failed",
        Some(Err(Failure::Tool(ToolFault::Write))) if ends == ONE_EARLY => {
            "a lane ended early, and output failed"
        }
        Some(Err(Failure::Tool(ToolFault::Run(_)))) if text.is_empty() => "the run is refused",
        Some(Err(failure)) if text.is_empty() && failure.status() == 5 => "out of memory",
        Some(Err(Failure::Tool(ToolFault::OutOfMemory))) if matches!(ends, Some((_, 0))) => {
            "out of memory after whole lines"
        }
        Some(_) => "another outcome",
    }
}

/// Carries out a request, and returns how it ended. The output can be flushed if `streams` is true.
fn outcome<R: Abort + Threads + Wait + Sync + AllocGlobal>(rt: &R, streams: bool) -> &'static str {
    let mut out = FailingWriter::new(rt.alloc(), usize::MAX, usize::MAX, streams);
    let done = carry_out(rt, streams, &mut out);
    let text = str::from_utf8(out.text.as_slice()).unwrap_or("");
    let wholes = if streams {
        OF_TWO.as_slice()
    } else {
        &[SKIPPED]
    };
    let told = told_of(&done, text, wholes);
    assert!(rt; told != "another outcome");
    told
}

#[test]
fn a_refused_request_of_a_stream(rt: HostRuntime) -> Result<(), Fail> {
    Ok(println!(rt; "{}", outcome(&rt, true))?)
}

// Mutants of `tfm_requests`: `read_encoding` returns `NotRead` after a failed allocation; `set_sources` returns before
// it flushes the output if a lane was abandoned.
#[test]
fn a_refused_request_of_a_set_that_is_not_flushed(rt: HostRuntime) -> Result<(), Fail> {
    Ok(println!(rt; "{}", outcome(&rt, false))?)
}
