//! Batches of `run_texts` over readers: several readers, reads that fail, many lines, failing writers, the layout of a
//! batch, the number of workers and the start barrier.
use super::doubles::{FREE, Interrupted, Ways, check, reader};
use batch::{Plan, RunFault};
use batch_support::{CountingGate, plan, with_terms};
use line_records::RecordFormat;
use run_texts::{OutputOptions, ReportOptions, set_readers, stream_readers, terms_of};
use set_line::{Limit, Policy, Version};
use set_run::ReaderSource;
use std::process::Abort;
use std::sync::Wait;
use std::thread::Threads;
use test_support::fonts::files::PLAIN;
use test_support::{FailingWriter, TricklingReader, lines_of_source};
use tfm_tool::{FontSetting, Summary, ToolFault, set_text};

/// The functions that set the lines of a batch, here with the font `plain`, and write their output. The first one takes
/// sources of lines, and no option `crlf`; it calls `set_each`.
const FUNCTIONS: [&str; 3] = ["set_text", "set_readers", "stream_readers"];

/// A function, and the options of its batches. The policy is that of the font `plain`.
#[derive(Drop)]
struct Batch<'a> {
    function: &'static str,
    plan: Plan,
    whole_reads: bool,
    crlf: bool,
    policy: Policy,
    gate: &'a CountingGate,
}

/// The capacity, the block, the number of workers, and whether chunks have all lines of a read.
type Layout = (usize, usize, usize, bool);

static LAYOUTS: [Layout; 5] = table! {
    1, 1, 1, false; 16, 8, 2, true; 1, 8, 3, false; 16, 1, 16, true; 1, 3, 16, false;
};

/// Returns a function with these options. Lines with characters that the font doesn't have are refused.
fn batch_of<'a, R: Abort>(
    rt: &R,
    function: &'static str,
    (capacity, block, workers, whole_reads): Layout,
    gate: &'a CountingGate,
) -> Batch<'a> {
    Batch {
        function,
        plan: plan(capacity, block, workers).expect(rt, "a plan"),
        whole_reads,
        crlf: false,
        policy: Policy::Refuse,
        gate,
    }
}

impl Batch<'_> {
    /// Whether the function takes readers.
    fn reads(&self) -> bool {
        self.function != "set_text"
    }
}

type BatchReader<'a> = Interrupted<TricklingReader<'a>>;

/// Calls `set_text` for these readers.
fn report<R: Abort + Threads + Wait + Sync + AllocGlobal>(
    rt: &R,
    batch: &Batch<'_>,
    font: &FontSetting<'_>,
    readers: Vec<BatchReader<'_>>,
    out: &mut FailingWriter,
) -> Result<Summary, ToolFault> {
    let mut sources = Vec::new(rt.alloc());
    for reader in readers {
        let source = ReaderSource::new(rt.alloc(), reader);
        sources.push(source).expect(rt, "memory");
    }
    let options = ReportOptions {
        plan: batch.plan,
        version: Version::One,
        gate: batch.gate,
    };
    set_text(rt, font, sources, &options, out)
}

/// Calls the function for these readers.
fn deliver<R: Abort + Threads + Wait + Sync + AllocGlobal>(
    rt: &R,
    batch: &Batch<'_>,
    readers: Vec<BatchReader<'_>>,
    out: &mut FailingWriter,
) -> Result<Summary, ToolFault> {
    let font = FontSetting {
        bytes: &PLAIN,
        size: None,
        limit: Limit::new(100).expect(rt, "a limit"),
        policy: batch.policy,
    };
    if !batch.reads() {
        return report(rt, batch, &font, readers, out);
    }
    let options = OutputOptions {
        plan: batch.plan,
        format: RecordFormat::Items(Version::One),
        encoding: None,
        crlf: batch.crlf,
        whole_reads: batch.whole_reads,
        gate: batch.gate,
        counts: None,
    };
    let terms = terms_of(rt.alloc(), &font).expect(rt, "the settings");
    let readers = with_terms(rt.alloc(), &terms, readers).expect(rt, "memory");
    if batch.function == "set_readers" {
        set_readers(rt, rt.alloc(), readers, &options, out)
    } else {
        stream_readers(rt, rt.alloc(), readers, &options, out)
    }
}

/// The output of the function for these readers is this one; that of a stream has the lines of each reader in order.
/// Returns the summary.
fn has_output<R: Abort + Threads + Wait + Sync + AllocGlobal>(
    rt: &R,
    batch: &Batch<'_>,
    readers: Vec<BatchReader<'_>>,
    wanted: &str,
) -> Option<Summary> {
    let count = readers.len();
    let mut out = FailingWriter::new(rt.alloc(), usize::MAX, usize::MAX, true);
    let done = deliver(rt, batch, readers, &mut out);
    let text = str::from_utf8(out.text.as_slice()).unwrap_or("");
    if batch.function != "stream_readers" {
        check(rt, text == wanted, batch.function, count);
        return done.ok();
    }
    check(rt, text.len() == wanted.len(), batch.function, count);
    for number in 1..count.saturating_add(1) {
        let own = lines_of_source(rt.alloc(), text, number).expect(rt, "memory");
        let due = lines_of_source(rt.alloc(), wanted, number).expect(rt, "memory");
        check(rt, own.as_str() == due.as_str(), batch.function, number);
    }
    done.ok()
}

/// Returns readers of these texts, of which a read has one byte, and one fails after this many.
fn failing_readers<R: Abort + AllocGlobal>(
    rt: &R,
    given: &[(&'static str, usize)],
) -> Vec<BatchReader<'static>> {
    let mut readers = Vec::new(rt.alloc());
    for (text, reads) in given {
        let ways = Ways {
            reads: *reads,
            ..ways!(step = 1)
        };
        readers
            .push(reader(text.as_bytes(), &ways))
            .expect(rt, "memory");
    }
    readers
}

const ALL: usize = usize::MAX;

/// Texts, each with the number of reads after which one fails; their output; and the number of refused lines, and
/// whether a read failed.
static CASES: [(&[(&str, usize)], &str, u64, bool); 5] = table! {
    &[], "", 0, false;
    &[("", ALL), ("abc", ALL), ("ab\n\nad\n", ALL)],
        "1 end complete 0\n\
         2:1 set 983040 c97=327680 c98=163840 c99=491520\n2 end complete 1\n\
         3:1 set 491520 c97=327680 c98=163840\n3:2 set 0\n3:3 refused missing 1 100\n3 end complete 3\n", 1, false;
    // A read fails: in the second line; at the end of the first and the second line, and before the first.
    &[("ab\nc", 4), ("a", ALL)],
        "1:1 set 491520 c97=327680 c98=163840\n1 end read 1\n\
         2:1 set 327680 c97=327680\n2 end complete 1\n", 0, true;
    &[("d\nab\n", 4), ("", 0), ("c\nd\n", 4), ("", ALL)],
        "1:1 refused missing 0 100\n1 end read 1\n2 end read 0\n\
         3:1 set 491520 c99=491520\n3:2 refused missing 0 100\n3 end read 2\n4 end complete 0\n", 2, true;
    &[("a\nc\nb", 1), ("a\nc\nb", 2), ("a\nc\nb", 3), ("a\nc\nb", 4), ("a\nc\nb", 5)],
        "1 end read 0\n2:1 set 327680 c97=327680\n2 end read 1\n3:1 set 327680 c97=327680\n3 end read 1\n\
         4:1 set 327680 c97=327680\n4:2 set 491520 c99=491520\n4 end read 2\n\
         5:1 set 327680 c97=327680\n5:2 set 491520 c99=491520\n5 end read 2\n", 0, true;
};

/// If there are readers, the thread of each, each worker and the collecting thread passes the start barrier once. A
/// source of lines has one lane, and there is at most one worker for each lane.
#[test]
fn each_reader_has_its_records_and_its_end(rt: HostRuntime) {
    for function in FUNCTIONS {
        for layout in &LAYOUTS {
            for (given, text, refused, read_failed) in &CASES {
                let gate = CountingGate::new();
                let batch = batch_of(&rt, function, *layout, &gate);
                let wanted = Summary {
                    refused: *refused,
                    read_failed: *read_failed,
                    memory: false,
                };
                let summary = has_output(&rt, &batch, failing_readers(&rt, given), text);
                check(&rt, summary == Some(wanted), text, layout.2);
                let most = if batch.reads() { 16 } else { given.len() };
                let entered = gate.was_entered_by(given.len(), layout.2.min(most));
                check(&rt, given.is_empty() || entered, text, layout.2);
            }
        }
    }
}

/// Texts with and without carriage returns before line feeds and elsewhere, with empty lines, and with bytes that the
/// font doesn't have.
static TEXTS: [&[u8]; 16] = table! {
    b""; b"\n"; b"ab\n\nc"; b"ab\n"; b"\r"; b"\r\n"; b"\n\r"; b"\r\r\n"; b"ab\rcd\r\n\r\nef"; b"a\r\n\rb\r";
    b"\r\r\r\n\n\r\n\r\r"; b"\r\n\r\n\r"; b"\x0b\x0c\x0e\x8d\x8a\r\x0b\r\x8a";
    b"\x0b\x0d\x0a\x8d\x0a\x8a\x0d\x0a\x0a\x0d"; b"a b\r\n\r\r\nabc\r"; b"\r\nd\0\xff\n\n\nabcabcabcabc\r\n";
};

/// Ways of reads, one for each layout.
const PIECES: [Ways; 5] = table! {
    ways!(step = 1); ways!(step = 2, interruptions = 1); ways!(step = 3); ways!(step = 7, interruptions = 2);
    ways!(step = 4096);
};

/// Returns readers of these texts.
fn readers_of<'a, R: Abort + AllocGlobal>(
    rt: &R,
    texts: &[&'a [u8]],
    ways: &Ways,
) -> Vec<BatchReader<'a>> {
    let mut readers = Vec::new(rt.alloc());
    for text in texts {
        readers.push(reader(text, ways)).expect(rt, "memory");
    }
    readers
}

/// Returns the width of a character of the font `plain`, which is 0 if the font doesn't have it.
fn width_of(byte: u8) -> u64 {
    match byte {
        b'a' => 327_680,
        b'b' => 163_840,
        b'c' => 491_520,
        b' ' => 218_453,
        _ => 0,
    }
}

/// Appends the record of this line, in which characters that the font doesn't have are skipped.
fn push_record<R: Abort>(rt: &R, text: &mut String, (source, number): (usize, u64), line: &[u8]) {
    if line.len() > 65_535 {
        let length = line.len();
        write!(text, "{source}:{number} refused too-long {length}\n").expect(rt, "memory");
        return;
    }
    let mut width = 0u64;
    for byte in line {
        width = width.wrapping_add(width_of(*byte));
    }
    write!(text, "{source}:{number} set {width}").expect(rt, "memory");
    for byte in line {
        match (*byte, width_of(*byte)) {
            (b' ', width) => write!(text, " s{width}"),
            (code, 0) => write!(text, " m{code}"),
            (code, width) => write!(text, " c{code}={width}"),
        }
        .expect(rt, "memory");
    }
    text.push('\n').expect(rt, "memory");
}

/// Appends the records of the lines of this text, which is that of the source with this number. If `crlf` is true,
/// one carriage return before a line feed belongs to the line ending. Returns the number of lines.
fn push_records<R: Abort + AllocGlobal>(
    rt: &R,
    records: &mut String,
    (source, text): (usize, &[u8]),
    crlf: bool,
) -> u64 {
    let mut line = Vec::new(rt.alloc());
    let mut number = 1u64;
    for byte in text {
        if *byte != b'\n' {
            line.push(*byte).expect(rt, "memory");
            continue;
        }
        if crlf && line.last() == Some(&b'\r') {
            let _return = line.pop();
        }
        push_record(rt, records, (source, number), &line);
        line.clear();
        number = number.wrapping_add(1);
    }
    if line.is_empty() {
        return number.wrapping_sub(1);
    }
    push_record(rt, records, (source, number), &line);
    number
}

/// Returns the output for these texts if characters that the font doesn't have are skipped.
fn output_of<R: Abort + AllocGlobal>(rt: &R, texts: &[&[u8]], crlf: bool) -> String {
    let mut output = String::new(rt.alloc());
    let mut source = 0usize;
    for text in texts {
        source = source.wrapping_add(1);
        let count = push_records(rt, &mut output, (source, text), crlf);
        write!(output, "{source} end complete {count}\n").expect(rt, "memory");
    }
    output
}

/// The output of all functions for these texts is the one that is made by hand, with each layout and in any pieces.
fn are_set<R: Abort + Threads + Wait + Sync + AllocGlobal>(rt: &R, texts: &[&[u8]], crlf: bool) {
    let gate = CountingGate::new();
    let wanted = output_of(rt, texts, crlf);
    for function in FUNCTIONS {
        for (layout, ways) in LAYOUTS.iter().zip(&PIECES) {
            let batch = Batch {
                policy: Policy::Skip,
                crlf,
                ..batch_of(rt, function, *layout, &gate)
            };
            if batch.reads() || !crlf {
                let done = has_output(rt, &batch, readers_of(rt, texts, ways), &wanted);
                check(rt, done.is_some(), function, ways.step);
            }
        }
    }
}

// Mutant of `line_chunks`: a carriage return is stripped at the end of a reader.
#[test]
fn lines_end_with_line_feeds_or_with_cr_lf(rt: HostRuntime) {
    are_set(&rt, &TEXTS, false);
    are_set(&rt, &TEXTS, true);
}

/// Functions, and numbers of writes after which the output isn't complete, for readers of 2,400, 5, 0 and 9 lines. The
/// output that is kept has two buffers of the first reader, and one of each other reader, a report has one, and a stream
/// has two parts at least.
static WRITES: [(&str, usize); 3] = table! {
    "set_text", 1; "set_readers", 5; "stream_readers", 2;
};

#[test]
fn long_outputs_and_many_readers(rt: HostRuntime) {
    let gate = CountingGate::new();
    let text = "ab\n".repeat(rt.alloc(), 2_400).expect(&rt, "memory");
    let texts = [
        text.as_bytes(),
        &text.as_bytes()[..15],
        b"",
        &text.as_bytes()[..27],
    ];
    let output = output_of(&rt, &texts, false);
    let many = [b"ab".as_slice(); 65];
    let output_of_many = output_of(&rt, &many[..64], false);
    for (function, needed) in &WRITES {
        let batch = batch_of(&rt, function, (16, 8, 2, false), &gate);
        let done = has_output(&rt, &batch, readers_of(&rt, &texts, &FREE), &output);
        check(&rt, done.is_some(), function, 4);
        let done = has_output(
            &rt,
            &batch,
            readers_of(&rt, &many[..64], &FREE),
            &output_of_many,
        );
        check(&rt, done.is_some(), function, 64);
        for writes in 0..*needed {
            let mut out = FailingWriter::new(rt.alloc(), usize::MAX, writes, true);
            let done = deliver(&rt, &batch, readers_of(&rt, &texts, &FREE), &mut out);
            check(&rt, matches!(done, Err(ToolFault::Write)), function, writes);
        }
        let mut out = FailingWriter::new(rt.alloc(), usize::MAX, usize::MAX, true);
        let done = deliver(&rt, &batch, readers_of(&rt, &many, &FREE), &mut out);
        let refused = matches!(done, Err(ToolFault::Run(RunFault::TooManySources)));
        check(&rt, refused && out.text.is_empty(), function, 65);
    }
}

/// The third of three readers has 100 lines, of which line 50 is too long.
#[test]
fn blocks_of_a_reader_with_a_line_that_is_too_long(rt: HostRuntime) {
    let gate = CountingGate::new();
    let before = "ab\n".repeat(rt.alloc(), 49).expect(&rt, "memory");
    let long = "a".repeat(rt.alloc(), 65_536).expect(&rt, "memory");
    let text = format!(in rt.alloc(); "{before}{long}\n{before}ab\n").expect(&rt, "memory");
    let texts = [b"".as_slice(), b"abc", text.as_bytes()];
    let wanted = output_of(&rt, &texts, false);
    for function in FUNCTIONS {
        for block in [1usize, 3, 8] {
            let batch = batch_of(&rt, function, (1, block, 2, false), &gate);
            let done = has_output(&rt, &batch, readers_of(&rt, &texts, &FREE), &wanted);
            check(
                &rt,
                done.map(|seen| seen.refused) == Some(1),
                function,
                block,
            );
        }
    }
}
