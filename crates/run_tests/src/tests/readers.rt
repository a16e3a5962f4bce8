//! Lines of readers, alone and in a batch.
use batch::NoGate;
use batch_support::plan;
use lanes::{LaneEnd, SourceFault};
use set_line::{Line, lines};
use set_run::{LineSource, ReaderSource, run};
use std::process::Abort;
use std::sync::Wait;
use std::test::Fail;
use std::thread::Threads;
use test_support::terms::plain_terms;
use test_support::{ReadCounts, TricklingReader};

/// More reads than any text takes.
const ALL: usize = usize::MAX;

/// How a reader ends.
type End = Result<(), SourceFault>;

/// The next lines of a source are these, and then it returns this, each time.
fn gives<R: Abort, S: LineSource>(rt: &R, case: &str, source: &mut S, wanted: &[Line], end: End) {
    for line in wanted {
        match source.next_line() {
            Ok(Some(found)) => assert!(rt; found.bytes() == line.bytes(), "{case}"),
            _ => panic!(rt; "a line is missing, {case}"),
        }
    }
    for _ in 0..2 {
        match source.next_line() {
            Ok(Some(_)) => panic!(rt; "it goes on, {case}"),
            Ok(None) => assert!(rt; end == Ok(()), "{case}"),
            Err(fault) => assert!(rt; end == Err(fault), "{case}"),
        }
    }
}

/// The batch of this source, with blocks of this many lines, has the results of these lines and this end.
fn is_run<R: Threads + Wait + Abort + AllocGlobal + Sync, S: LineSource + Send + Drop>(
    rt: &R,
    case: &str,
    source: S,
    block: usize,
    (wanted, end): (&[Line], End),
) {
    let mut sources = Vec::new(rt.alloc());
    let terms = plain_terms(rt.alloc()).expect(rt, "memory");
    sources.push((source, terms)).expect(rt, "memory");
    let plan = plan(1, block, 2).expect(rt, "a plan");
    let report = run(rt, rt.alloc(), sources, plan, &NoGate).expect(rt, case);
    for lane in report.lanes() {
        let due = match end {
            Ok(()) => LaneEnd::Complete,
            Err(fault) => LaneEnd::SourceFailed(fault),
        };
        let answers = lane.answers.as_slice();
        assert!(rt; lane.end == due && answers.len() == wanted.len(), "{case}");
        for (answer, line) in answers.iter().zip(wanted) {
            assert!(rt; answer.line().bytes() == line.bytes(), "{case}");
        }
    }
}

/// Numbers of bytes of a read.
const STEPS: &[usize] = &[1, 2, 3, 4096];

const BLOCKS: &[usize] = &[1, 8];

/// A text, which has a part several times and then another one; the bytes of each read, and after how many reads one
/// fails; how many lines of the text are returned, and what follows them; and the blocks of the batches of this reader.
type Row = (
    &'static str,
    usize,
    &'static str,
    &'static [usize],
    usize,
    usize,
    End,
    &'static [usize],
);

static TEXTS: [Row; 18] = table! {
    "", 1, "ab\n\nc", STEPS, ALL, 3, Ok(()), BLOCKS;
    "", 1, "ab\n", STEPS, ALL, 1, Ok(()), BLOCKS;
    "", 1, "", STEPS, ALL, 0, Ok(()), BLOCKS;
    "", 1, "\n", STEPS, ALL, 1, Ok(()), BLOCKS;
    "", 1, "\n\n", STEPS, ALL, 2, Ok(()), BLOCKS;
    "", 1, "ab\n\n", STEPS, ALL, 2, Ok(()), BLOCKS;
    "", 1, "\nab", STEPS, ALL, 2, Ok(()), BLOCKS;
    "", 1, "a \r\nbcabc\nabca\n", STEPS, ALL, 3, Ok(()), BLOCKS;
    "", 1, "ab\n\nabc\nad\n b\nc", STEPS, ALL, 6, Ok(()), BLOCKS;
    // More bytes than two reads return.
    "ab\n\nabcabcabcabc\n", 600, "ab", &[1, 7, 4095, 4096], ALL, 1801, Ok(()), BLOCKS;
    // A reader fails at each of its reads.
    "", 1, "ab\nc\nb", &[1], 0, 0, Err(SourceFault::Read), BLOCKS;
    "", 1, "ab\nc\nb", &[1], 1, 0, Err(SourceFault::Read), BLOCKS;
    "", 1, "ab\nc\nb", &[1], 2, 0, Err(SourceFault::Read), BLOCKS;
    "", 1, "ab\nc\nb", &[1], 3, 1, Err(SourceFault::Read), BLOCKS;
    "", 1, "ab\nc\nb", &[1], 4, 1, Err(SourceFault::Read), BLOCKS;
    "", 1, "ab\nc\nb", &[1], 5, 2, Err(SourceFault::Read), BLOCKS;
    "", 1, "ab\nc\nb", &[1], 6, 2, Err(SourceFault::Read), BLOCKS;
    "", 1, "ab\nc\nb", &[1], 7, 3, Ok(()), BLOCKS;
};

/// The longest line that one byte a read can have, and one more byte.
static LONG: [Row; 3] = table! {
    "a", 1_048_575, "\n", &[1], ALL, 1, Ok(()), &[];
    "a", 1_048_575, "", &[1], ALL, 1, Ok(()), &[];
    "a", 1_048_576, "\n", &[1], ALL, 0, Err(SourceFault::ReadBound), &[1];
};

/// The readers of a row have the lines of their text up to their end or error.
fn is_read<R: Threads + Wait + Abort + AllocGlobal + Sync>(rt: &R, row: &Row) {
    let (part, times, last, steps, good_reads, count, end, blocks) = row;
    let mut text = part.repeat(rt.alloc(), *times).expect(rt, "memory");
    text.push_str(last).expect(rt, "memory");
    let cut = lines(rt.alloc(), text.as_bytes()).expect(rt, "memory");
    let wanted = cut.get(..*count).expect(rt, "lines");
    for step in *steps {
        let length = text.len();
        let case = format!(in rt.alloc(); "{length} bytes, step {step}, {good_reads} good reads");
        let case = case.expect(rt, "memory");
        let reader = TricklingReader::new(text.as_bytes(), *step, *good_reads);
        let mut source = ReaderSource::new(rt.alloc(), reader);
        gives(rt, &case, &mut source, wanted, *end);
        for block in *blocks {
            let reader = TricklingReader::new(text.as_bytes(), *step, *good_reads);
            let source = ReaderSource::new(rt.alloc(), reader);
            is_run(rt, &case, source, *block, (wanted, *end));
        }
    }
}

#[test]
fn a_reader_has_the_lines_of_its_text_up_to_its_end_or_an_error(rt: HostRuntime) {
    for row in &TEXTS {
        is_read(&rt, row);
    }
}

#[test]
fn a_line_is_read_by_1048576_reads(rt: HostRuntime) {
    for row in &LONG {
        is_read(&rt, row);
    }
}

/// How many reads were made after each line of `ab`, `c`, `b` and at the end, by the bytes of a read.
static READS: [(usize, [u32; 4]); 4] = table! {
    1, [3, 5, 7, 7]; 2, [2, 3, 4, 4]; 3, [1, 2, 3, 3]; 4096, [1, 1, 2, 2];
};

/// Each read requests 4,096 bytes. None is made while a whole line is in the buffer, and none after the end.
#[test]
fn a_reader_is_read_when_its_next_line_needs_it(rt: HostRuntime) -> Result<(), Fail> {
    for (step, wanted) in &READS {
        let counts = ReadCounts::new();
        let reader = TricklingReader::counted(b"ab\nc\nb", *step, &counts);
        let mut source = ReaderSource::new(rt.alloc(), reader);
        assert_eq!(&rt; counts.counts(), (0, 0), "step {step}");
        for reads in wanted {
            let _line = source.next_line()?;
            assert_eq!(&rt; counts.counts(), (*reads, 0), "step {step}");
        }
        gives(&rt, "behind the end", &mut source, &[], Ok(()));
        assert_eq!(&rt; counts.counts(), (wanted[3], 0), "step {step}");
    }
    Ok(())
}
