//! The chunks of a reader: when they are given, which lines they have, and how a reader ends.
use super::doubles::{FREE, Ways, check, many_lines, reader};
use batch::ItemSource;
use lanes::SourceFault;
use line_chunks::{ChunkReader, ChunkText, RecordMaker};
use line_records::RecordFormat;
use set_line::Version;
use std::io::Read;
use std::process::Abort;
use test_support::terms::plain_terms;
use test_support::{ReadCounts, TricklingReader};

/// Returns a maker of records with the font `plain`, which refuses other characters.
fn maker_of<R: Abort + AllocGlobal>(rt: &R) -> RecordMaker {
    let terms = plain_terms(rt.alloc()).expect(rt, "the settings");
    RecordMaker::new(rt.alloc(), terms, 1, RecordFormat::Items(Version::One))
}

/// Returns the records of the next chunk.
fn next_text<R: Abort + AllocGlobal, T: Read>(
    rt: &R,
    source: &mut ChunkReader<T>,
    maker: &mut RecordMaker,
) -> Result<Option<ChunkText>, SourceFault> {
    let Some(chunk) = source.next_item()? else {
        return Ok(None);
    };
    match maker.make(rt.alloc(), chunk) {
        Ok(text) => Ok(Some(text)),
        Err(_) => panic!(rt; "memory"),
    }
}

/// What a call returns: whether the source was ready before it, the number of lines, which is 0 at the end, and the
/// number of reads up to then.
type Call = (bool, u64, u32);

/// A text, the number of bytes of each read, the most lines of a chunk, and the calls.
static CALLS: [(&str, usize, usize, &[Call]); 10] = table! {
    // One read completes two lines.
    "a\nb\nc", 4, 1, &[(false, 1, 1), (true, 1, 1), (false, 1, 3), (false, 0, 3)];
    "a\nb\nc", 4, 8, &[(false, 2, 1), (false, 1, 3), (false, 0, 3)];
    // One read has a line and a part of the next one.
    "a\nb\n", 3, 1, &[(false, 1, 1), (false, 1, 2), (false, 0, 3)];
    "a\nb\n", 3, 8, &[(false, 1, 1), (false, 1, 2), (false, 0, 3)];
    // One read has all lines.
    "a\nb\nc\n", 80, 2, &[(false, 2, 1), (true, 1, 1), (false, 0, 2)];
    "a\nb\n", 80, 0, &[(false, 1, 1), (true, 1, 1), (false, 0, 2)];
    // Lines are read in pieces.
    "abc\nb", 1, 8, &[(false, 1, 4), (false, 1, 6), (false, 0, 6)];
    "abc\n\na\nb\n", 5, 8, &[(false, 2, 1), (false, 2, 2), (false, 0, 3)];
    "ab\n\n\nc", 2, 8, &[(false, 2, 2), (false, 1, 3), (false, 1, 4), (false, 0, 4)];
    // Nothing is read after the end.
    "", 80, 2, &[(false, 0, 1), (false, 0, 1)];
};

/// The most lines of a chunk, and the calls, of 2,500 lines `a`, of which the first read has 2,048.
static MANY: [(usize, &[Call]); 2] = table! {
    131_072, &[(false, 2048, 1), (false, 452, 2), (false, 0, 3)];
    1000, &[(false, 1000, 1), (true, 1000, 1), (true, 48, 1), (false, 452, 2), (false, 0, 3)];
};

/// The chunks of a text are given as stated, and each read requests 4,096 bytes.
fn are_given<R: Abort + AllocGlobal>(
    rt: &R,
    text: &str,
    (step, most): (usize, usize),
    wanted: &[Call],
) {
    let mut maker = maker_of(rt);
    let counts = ReadCounts::new();
    let input = TricklingReader::counted(text.as_bytes(), step, &counts);
    let mut source = ChunkReader::new(rt.alloc(), input, false, most);
    for (number, (ready, lines, reads)) in wanted.iter().enumerate() {
        let was_ready = source.is_ready();
        let count = match next_text(rt, &mut source, &mut maker) {
            Ok(Some(chunk)) => chunk.lines(),
            Ok(None) => 0,
            Err(_) => u64::MAX,
        };
        let holds = was_ready == *ready && count == *lines && counts.counts() == (*reads, 0);
        check(rt, holds, text, number);
    }
}

// Mutants of `ChunkReader`: a chunk waits for more lines, or has a line more than stated; a read is made while there are
// whole lines, or after the end. Of `is_ready`: it is always true, or always false.
#[test]
fn a_chunk_has_the_lines_that_a_read_completed(rt: HostRuntime) {
    for (text, step, most, wanted) in &CALLS {
        are_given(&rt, text, (*step, *most), wanted);
    }
    let (text, _) = many_lines(&rt);
    for (most, wanted) in &MANY {
        are_given(&rt, &text, (usize::MAX, *most), wanted);
    }
}

/// Returns the records of all chunks of a reader, up to its end or its error.
fn all_records<R: Abort + AllocGlobal, T: Read>(
    rt: &R,
    source: &mut ChunkReader<T>,
) -> (Vec<u8>, Option<SourceFault>) {
    let mut maker = maker_of(rt);
    let mut text = Vec::new(rt.alloc());
    for _ in 0..10_000u32 {
        match next_text(rt, source, &mut maker) {
            Ok(Some(chunk)) => text.extend_from_slice(chunk.text()).expect(rt, "memory"),
            Ok(None) => return (text, None),
            Err(fault) => return (text, Some(fault)),
        }
    }
    panic!(rt; "too many chunks")
}

const A: &str = "1:1 set 327680 c97=327680\n";

const A_B: &str = "1:1 set 327680 c97=327680\n1:2 set 163840 c98=163840\n";

/// Texts, each with the number of bytes of a read, the number of reads after which one fails, the most lines of a chunk,
/// and the records before the error.
static FAILING: [(&str, usize, usize, usize, &str); 6] = table! {
    "a\nb\nc", 80, 0, 8, "";
    "a\nb\nc", 80, 1, 1, A_B;
    "a\nb\nc", 80, 1, 8, A_B;
    "a\nb\nc\n", 3, 1, 8, A;
    "a\nb\nc", 3, 2, 1, A_B;
    "abc\n", 1, 3, 8, "";
};

/// The records before a read that fails are these, and each later call returns the same error.
fn fails<R: Abort + AllocGlobal>(rt: &R, (text, wanted): (&str, &str), ways: &Ways, most: usize) {
    let mut source = ChunkReader::new(rt.alloc(), reader(text.as_bytes(), ways), false, most);
    for before in [wanted, "", ""] {
        let (records, fault) = all_records(rt, &mut source);
        let holds = records.as_slice() == before.as_bytes() && fault == Some(SourceFault::Read);
        check(rt, holds, wanted, most);
    }
}

// Mutants of `ChunkReader`: the lines of the last read are lost with the error, or the beginning of the next line is
// a line.
#[test]
fn lines_of_earlier_reads_come_before_an_error(rt: HostRuntime) {
    for (text, step, reads, most, wanted) in &FAILING {
        let ways = Ways {
            step: *step,
            reads: *reads,
            ..FREE
        };
        fails(&rt, (text, wanted), &ways, *most);
    }
    let long = "d".repeat(rt.alloc(), 70_000).expect(&rt, "memory");
    for reads in [15usize, 17] {
        fails(&rt, (&long, ""), &Ways { reads, ..FREE }, 8);
    }
}

/// Numbers of bytes `d`, with an ending, of a line after the line `c`; whether lines may end with CR LF; and the length
/// of the line. A read of 4,096 bytes ends after the carriage return if there are 65,533, 69,629 or 73,725 bytes.
static LENGTHS: [(usize, &str, bool, usize); 18] = table! {
    65_533, "\r\n", true, 65_533; 65_533, "\r\n", false, 65_534; 65_535, "\n", true, 65_535; 65_535, "\r\n", true, 65_535;
    65_535, "\r\n", false, 65_536; 65_535, "\r\r\n", true, 65_536; 65_535, "", false, 65_535; 65_535, "\r", true, 65_536;
    65_536, "\n", false, 65_536; 65_536, "\r\n", true, 65_536; 65_536, "", true, 65_536; 69_629, "\r\n", true, 69_629;
    70_000, "\n", true, 70_000; 70_000, "\r\n", false, 70_001; 70_000, "\r", true, 70_001; 73_725, "\r\n", true, 73_725;
    300_000, "\r\n", true, 300_000; 300_000, "", false, 300_000;
};

/// In a text the line `c` is followed by a line of this length, which is refused because of its length, or because of its
/// characters, and, if the text ends with `b`, by the lines `a`, an empty line and `b`: the records are theirs.
fn is_refused<R: Abort + AllocGlobal>(rt: &R, text: &str, crlf: bool, length: usize) {
    let mut wanted = String::new(rt.alloc());
    wanted
        .push_str("1:1 set 491520 c99=491520\n")
        .expect(rt, "memory");
    if length > 65_535 {
        write!(wanted, "1:2 refused too-long {length}\n").expect(rt, "memory");
    } else {
        wanted
            .push_str("1:2 refused missing 0 100\n")
            .expect(rt, "memory");
    }
    if text.ends_with('b') {
        let after = "1:3 set 327680 c97=327680\n1:4 set 0\n1:5 set 163840 c98=163840\n";
        wanted.push_str(after).expect(rt, "memory");
    }
    let mut source = ChunkReader::new(rt.alloc(), text.as_bytes(), crlf, 8);
    let (records, fault) = all_records(rt, &mut source);
    let holds = records.as_slice() == wanted.as_bytes() && fault.is_none();
    check(rt, holds, &wanted, length);
}

// Mutants of `line_chunks`: the length of a line that is too long has the carriage return at the end of the read before
// the line feed; after it the lines of the same read are lost.
#[test]
fn a_line_of_65536_bytes_is_refused_with_its_length(rt: HostRuntime) {
    for (count, ending, crlf, length) in &LENGTHS {
        let line = "d".repeat(rt.alloc(), *count).expect(&rt, "memory");
        let rest = if ending.ends_with('\n') { "a\n\nb" } else { "" };
        let text = format!(in rt.alloc(); "c\n{line}{ending}{rest}").expect(&rt, "memory");
        is_refused(&rt, &text, *crlf, *length);
    }
}

#[test]
fn a_line_of_65535_spaces_is_set(rt: HostRuntime) {
    let mut text = " ".repeat(rt.alloc(), 65_535).expect(&rt, "memory");
    text.push_str("\r\n").expect(&rt, "memory");
    let mut source = ChunkReader::new(rt.alloc(), text.as_bytes(), true, 8);
    let (records, fault) = all_records(&rt, &mut source);
    let holds = records.starts_with(b"1:1 set 14316317355 s218453 s218453 ") && fault.is_none();
    check(&rt, holds, "spaces", records.len());
}
