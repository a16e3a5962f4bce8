//! `tool` over readers and writers that fail or are interrupted, and what `--verbose` adds.
use super::doubles::{
    COUNTS, Ended, FREE, INTERRUPTED, LISTING, NO_FONT, NO_OUTPUT, NOT_ENDED, Ways, ends, font_file,
};
use std::env::Env;
use std::process::Abort;
use std::rt::Files;
use std::sync::Wait;
use std::thread::Threads;
use std::{fs, process};
use test_support::fonts::files::{NO_CHARACTERS, PLAIN};

const UNREAD: &str = "1 end read 0\n";

const AB: &str = "1:1 set 491520 c97=327680 c98=163840\n1 end read 1\n";

const AB_C: &str =
    "1:1 set 491520 c97=327680 c98=163840\n1:2 set 491520 c99=491520\n1 end complete 2\n";

const RECORDS: &str = "1:1 set 491520 c97=327680 c98=163840\n1:2 set 0\n1:3 set 491520 c99=491520\n\
    1 end complete 3\n";

const REFUSED: &str = "1:1 refused missing 0 0\n1 end complete 1\n";

/// The output fails when it is flushed, or at the first write.
const FIRST: &[Ways] = &[ways!(flushes = false), ways!(writes = 0)];

/// The output fails when it is flushed, or after up to seven writes of ten bytes.
const EIGHT: &[Ways] = &table! {
    ways!(flushes = false); ways!(step = 10, writes = 0); ways!(step = 10, writes = 1); ways!(step = 10, writes = 2);
    ways!(step = 10, writes = 3); ways!(step = 10, writes = 4); ways!(step = 10, writes = 5); ways!(step = 10, writes = 6);
    ways!(step = 10, writes = 7);
};

/// Neither output accepts a byte.
const SILENT: &[Ways] = &[ways!(writes = 0, flushes = false, errors = false)];

/// Standard error accepts no byte.
const UNHEARD: &[Ways] = &[ways!(errors = false)];

/// Small pieces.
const PIECES: &[Ways] = &table! {
    ways!(step = 1); ways!(step = 2); ways!(step = 3); ways!(step = 7); ways!(step = 80); ways!(step = 4096);
};

/// Four lines: two are set, and two, which end with a carriage return, are refused.
const LINES: &str = "ab\nad\r\n\r\nabc";

const NOTED: &str =
    "tfmset: standard input: line 2 ends with a carriage return, which is a character of the line; \
    to leave it out add --crlf\n\
    tfmset: 2 lines end with a carriage return\n\
    tfmset: 2 lines set, 2 refused: 2 missing\n";

/// Six lines, of which the fourth is the first one in UTF-8 with a character above 127: the second one is cut in a
/// character, and the third one has a byte that is none.
const TEXT: &[u8] = b"ab\n\xe2\x82\na\xff\n\xf0\x9d\x84\x9e\n\xc3\xa9\r\nb";

const INPUT_NOT_ENDED: &str = "tfmset: standard input: other error\n\
    tfmset: some file was not read to its end\n";

const OUTPUT_FAILED: &str = "tfmset: standard output: other error\ntfmset: output failed\n";

/// Arguments, standard input, the ways of reads and writes, and how the call ends.
type Row = (&'static str, &'static str, &'static [Ways], Ended<'static>);

// Mutants of `tool`: it ignores an error of the flush, or only with exit status 1 or 4. Of `refill` in set_run and of
// `read_once` in `reading.rt` of `tfm_requests`: an interrupted read is an error, or the end. Of `note` in `watched.rt`
// of `tfm_tool`: it is noted. Of `CrlfReader`: a carriage return before it is lost. Of `write_once` and `write_some` in
// `writing.rt` of `run_texts`: an interrupted write is an error of the output, or takes all bytes; after an
// interruption the first part is written again; only a few writes are made.
static CALLS: [Row; 43] = rows! {
    // A read fails, whichever it is.
    "counts -", "NO_CHARACTERS", &[
        ways!(step = 1, reads = 0), ways!(step = 1, reads = 30), ways!(step = 1, reads = 47),
        ways!(step = 1, reads = 48), ways!(step = 7, reads = 0), ways!(step = 7, reads = 6),
        ways!(step = 7, reads = 7), ways!(step = 48, reads = 1), ways!(reads = 0), ways!(reads = 1)
    ] => 4, "", NO_FONT;
    "counts -", "NO_CHARACTERS", &[
        ways!(step = 1, reads = 49), ways!(step = 7, reads = 8), ways!(step = 48, reads = 2), ways!(reads = 2)
    ] => 0, COUNTS, "";
    "check - no", "NO_CHARACTERS", &[ways!(reads = 0), ways!(reads = 1)] =>
        4, "-: not read\nno: not read\n",
        "tfmset: standard input: other error\n\
         tfmset: no: No such file or directory (os error 2)\n\
         tfmset: some font was not read\n";
    "stream FONT", "ab\nc", &[ways!(step = 1, reads = 0), ways!(step = 1, reads = 2)] => 4, UNREAD, INPUT_NOT_ENDED;
    "stream FONT", "ab\nc", &[ways!(step = 1, reads = 4)] => 4, AB, INPUT_NOT_ENDED;
    "stream FONT", "ab\nc", &[ways!(step = 1, reads = 5)] => 0, AB_C, "";
    // The output fails. Some of these calls would end with exit status 1 or 4.
    "counts -", "NO_CHARACTERS", EIGHT => 5, COUNTS, NO_OUTPUT;
    "list -", "PLAIN", EIGHT => 5, LISTING, NO_OUTPUT;
    "check no - .", "PLAIN", &[ways!(flushes = false)] => 5, "no: not read\n-: accepted\n.: not read\n",
        "tfmset: no: No such file or directory (os error 2)\n\
         tfmset: .: Is a directory (os error 21)\n\
         tfmset: standard output: other error\n\
         tfmset: output failed\n";
    "check no - .", "PLAIN", &[ways!(writes = 0)] => 5, "",
        "tfmset: no: No such file or directory (os error 2)\n\
         tfmset: standard output: other error\n\
         tfmset: output failed\n";
    "check FONT no", "", &[ways!(writes = 0)] => 5, "", OUTPUT_FAILED;
    "--help", "", FIRST => 5, "", NO_OUTPUT;
    "--version", "", FIRST => 5, "", NO_OUTPUT;
    "help counts", "", FIRST => 5, "", NO_OUTPUT;
    "stream FONT", "ab\nc", EIGHT => 5, AB_C, OUTPUT_FAILED;
    "stream FONT", "d", FIRST => 5, "1:1 refused missing 0 100\n1 end complete 1\n", OUTPUT_FAILED;
    "stream FONT .", "", FIRST => 5, UNREAD,
        "tfmset: .: Is a directory (os error 21)\n\
         tfmset: standard output: other error\n\
         tfmset: output failed\n";
    "set - FONT", "PLAIN", FIRST => 5, REFUSED, NO_OUTPUT;
    "set FONT .", "", FIRST => 5, UNREAD, NO_OUTPUT;
    "each FONT 9 FONT", "", FIRST => 5, REFUSED, NO_OUTPUT;
    "each FONT 9 .", "", FIRST => 5, UNREAD, NO_OUTPUT;
    // Nothing can be written.
    "", "", SILENT => 2, "", "";
    "list", "", SILENT => 2, "", "";
    "check", "", SILENT => 2, "", "";
    "check - -", "", SILENT => 2, "", "";
    "counts -", "", SILENT => 3, "", "";
    "counts no/such/font.tfm", "", SILENT => 4, "", "";
    // Interruptions change nothing.
    "list -", "PLAIN", INTERRUPTED => 0, LISTING, "";
    "check -", "PLAIN", INTERRUPTED => 0, "-: accepted\n", "";
    "counts -v -", "NO_CHARACTERS", INTERRUPTED => 0, COUNTS, "";
    "stream FONT", "ab\n\nc", INTERRUPTED => 0, RECORDS, "";
    "stream --crlf FONT", "ab\r\n\r\nc", INTERRUPTED => 0, RECORDS, "";
    // The causes have names, and an error of standard error changes nothing else.
    "list no -v", "", &[FREE] => 4, "",
        "tfmset: no: No such file or directory (os error 2)\ntfmset: font not read\n\
         \x20 tip: a font is given by the path of its file, such as \"$(kpsewhich cmr10.tfm)\"\n";
    "check --verbose . - n\\o", "PLAIN", &[FREE] => 4, ".: not read\n-: accepted\nn\\x5co: not read\n",
        "tfmset: .: Is a directory (os error 21)\n\
         tfmset: n\\x5co: No such file or directory (os error 2)\n\
         tfmset: some font was not read\n";
    "set -v - -", "PLAIN", &[FREE] => 4, "",
        "tfmset: -: No such file or directory (os error 2)\n\
         tfmset: -: this is the name of a file; /dev/stdin is standard input\n\
         tfmset: file 1 not read\n";
    "set -v --size 5 - .", "PLAIN", &[FREE] => 4, UNREAD,
        "tfmset: size 5 is 5 scaled points; for points write 5pt\n\
         tfmset: .: Is a directory (os error 21)\n\
         tfmset: 0 lines set, 0 refused\n\
         tfmset: some file was not read to its end\n";
    "counts -v -", "NO_CHARACTERS", UNHEARD => 0, COUNTS, "";
    "list no -v", "", UNHEARD => 4, "", "";
    "check --verbose . - n\\o", "PLAIN", UNHEARD => 4, ".: not read\n-: accepted\nn\\x5co: not read\n", "";
    "set -v - -", "PLAIN", UNHEARD => 4, "", "";
    "set -v --size 5 - .", "PLAIN", UNHEARD => 4, UNREAD, "";
    // The numbers of lines are the same in any pieces.
    "stream -v FONT", LINES, PIECES => 1,
        "1:1 set 491520 c97=327680 c98=163840\n\
         1:2 refused missing 1 100\n\
         1:3 refused missing 0 13\n\
         1:4 set 983040 c97=327680 c98=163840 c99=491520\n\
         1 end complete 4\n", NOTED;
    // So is what is said of the first lines.
    "stream FONT", "TEXT", PIECES => 1,
        "1:1 set 491520 c97=327680 c98=163840\n\
         1:2 refused missing 0 226\n\
         1:3 refused missing 1 255\n\
         1:4 refused missing 0 240\n\
         1:5 refused missing 0 195\n\
         1:6 set 163840 c98=163840\n\
         1 end complete 6\n",
        "tfmset: standard input: line 4 is UTF-8, but each byte is set as a code; for text in UTF-8 add --encoding\n\
         tfmset: standard input: line 5 ends with a carriage return, which is a character of the line; to leave it out add --crlf\n";
};

/// Returns the standard input of a row: one of two fonts, the long line, six lines of bytes, or this text.
fn input_of<'a>(text: &'a str, long: &'a str) -> &'a [u8] {
    match text {
        "NO_CHARACTERS" => &NO_CHARACTERS,
        "PLAIN" => &PLAIN,
        "LONG" => long.as_bytes(),
        "TEXT" => TEXT,
        _ => text.as_bytes(),
    }
}

/// There are at most 1,048,576 reads of a font, with those that are interrupted and that of the end.
static FONT_READS: [Row; 2] = rows! {
    "counts -", "NO_CHARACTERS", &[ways!(interruptions = 524_287)] => 0, COUNTS, "";
    "counts -", "NO_CHARACTERS", &[ways!(interruptions = 524_288)] => 4, "", NO_FONT;
};

/// The same for a line. The line of 70,000 bytes has 18 reads, and one more at its end.
static LINE_READS: [Row; 3] = rows! {
    "stream FONT", "", &[ways!(interruptions = 1_048_576)] => 4, "1 end bound 0\n", NOT_ENDED;
    "stream FONT", "LONG", &[ways!(interruptions = 55_187)] => 1, "1:1 refused too-long 70000\n1 end complete 1\n", "";
    "stream FONT", "LONG", &[ways!(interruptions = 55_188)] => 4, "1 end bound 0\n", NOT_ENDED;
};

/// The calls of a table end as stated.
fn all_end<R: Abort + Files + Env + Threads + Wait + Sync + AllocGlobal>(
    rt: &R,
    calls: &[Row],
    id: u32,
)
where
    R::File: Send,
{
    let font = font_file(rt, calls.len(), id);
    let long = "a".repeat(rt.alloc(), 70_000).expect(rt, "memory");
    for (words, input, all, wanted) in calls {
        ends(rt, (words, &font), input_of(input, &long), all, *wanted);
    }
    fs::remove_file(rt, font.as_str()).expect(rt, "a file");
}

#[test]
fn a_call_ends_as_stated_whichever_way_reads_and_writes_go(rt: HostRuntime) {
    all_end(&rt, &CALLS, process::id(rt.process()));
}

#[test]
fn a_font_has_at_most_1048576_reads(rt: HostRuntime) {
    all_end(&rt, &FONT_READS, process::id(rt.process()));
}

#[test]
fn a_line_has_at_most_1048576_reads(rt: HostRuntime) {
    all_end(&rt, &LINE_READS, process::id(rt.process()));
}
