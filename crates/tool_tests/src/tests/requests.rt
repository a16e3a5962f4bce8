//! `perform` with files in memory: the ends of requests, the order of their errors, and the openings of files.
use super::doubles::{
    COUNTS, Ended, FREE, INTERRUPTED, LISTING, NO_FONT, NO_OUTPUT, NOT_ENDED, NotedFiles,
    SOME_FONT, Ways, carry_out, check, is_ended, many_lines, reader, words_of, writer,
};
use std::alloc::{AllocError, Global};
use std::process::Abort;
use std::sync::Wait;
use std::thread::Threads;
use test_support::fonts::examples::{endless, left_boundary, right_boundary};
use test_support::fonts::files::{NO_CHARACTERS, PLAIN};
use tfm_tool::InMemory;

/// Two names and `def` are missing; the file has three line ends, so that it ends on line 4.
const SHORT: &[u8] = b"/Short [\n/A\n/B\n";

/// In place of the name of code 1, on line 3, is a word without a slash.
const WORD: &[u8] = b"/Word [\n/A\nB\n/C ] def\n";

/// Two lines: a space between two characters; and a character that the vector doesn't have.
pub const LINES: &[u8] = b"\xC3\x9F \xE2\x82\xAC\n\xC3\x9F\xC3\xA9\n";

/// The text of a vector with ß, þ and € at the codes 97, 98 and 99, those of a, b and c in the sample fonts.
/// No other code has a character.
pub fn vector(alloc: Global) -> Result<Vec<u8>, AllocError> {
    let mut text = Vec::new(alloc);
    text.reserve(4096)?;
    text.extend_from_slice(b"/Vector [\n")?;
    for code in 0..256 {
        text.extend_from_slice(match code {
            97 => b"/germandbls\n".as_slice(),
            98 => b"/thorn\n",
            99 => b"/uni20AC\n",
            _ => b"/.notdef\n",
        })?;
    }
    text.extend_from_slice(b"] def\n")?;
    Ok(text)
}

type NamedFile<'a> = (&'a str, &'a [u8]);

/// The files of the requests. Their numbers are those of `opened`, starting at 1; from 10 on they aren't noted. The fonts
/// `right` and `left` have boundaries, and `endless` inserts a between two of them without end.
fn files_with<'a>(
    vector: &'a [u8],
    long: &'a [u8],
    fonts: &'a [Vec<u8>; 3],
) -> [NamedFile<'a>; 18] {
    [
        ("plain", &PLAIN),
        ("cut", &NO_CHARACTERS[..47]),
        ("v.enc", vector),
        ("short.enc", SHORT),
        ("word.enc", WORD),
        ("lines", LINES),
        ("ab", b"ab\nc\n"),
        ("none", &NO_CHARACTERS),
        ("long", long),
        ("right", &fonts[0]),
        ("left", &fonts[1]),
        ("endless", &fonts[2]),
        ("aa", b"aa\na"),
        ("adb", b"adb\nad\nd a\na|b\n"),
        ("ada", b"ada"),
        ("empty", b"\n"),
        ("names", b"plain\ncut\n\nno\nplain"),
        ("zeros", b"cut\0plain\0"),
    ]
}

/// ß is 327,680 sp wide, € 491,520 sp and a space 218,453 sp. In record format 1 the steps aren't printed.
const RECORDS: &str = "1:1 set 1037653 c97=327680 s218453 c99=491520\n\
    1:2 refused uncoded 2 U+00E9\n1 end complete 2\n";

/// The output if uncoded characters are skipped.
pub const SKIPPED: &str = "1:1 set 1037653 c97=327680 s218453 c99=491520\n\
    1:2 set 327680 c97=327680 u00E9\n1 end complete 2\n";

/// The same if the read after the last line fails.
const SKIPPED_NOT_ENDED: &str = "1:1 set 1037653 c97=327680 s218453 c99=491520\n\
    1:2 set 327680 c97=327680 u00E9\n1 end read 2\n";

/// The output for the file `ab`, and if the read after its last line fails.
const AB: &str =
    "1:1 set 491520 c97=327680 c98=163840\n1:2 set 491520 c99=491520\n1 end complete 2\n";

const AB_NOT_ENDED: &str =
    "1:1 set 491520 c97=327680 c98=163840\n1:2 set 491520 c99=491520\n1 end read 2\n";

/// The fields of pairs. The font `plain` has no pairs.
const FIELDS: &str = "left,right,action,value,left_character,right_character,value_character\n";

/// The output for the file `ab` at twice the design size.
const DOUBLED: &str =
    "1:1 set 983040 c97=655360 c98=327680\n1:2 set 983040 c99=983040\n1 end complete 2\n";

const NOT_READ: &str = "tfmset: encoding not read\n";

const AT_LINE_4: &str = "tfmset: encoding refused: line 4\n";

const AT_LINE_3: &str = "tfmset: encoding refused: line 3\n";

const CUT: &str = "tfmset: font refused: 8 truncated, 48 bytes needed\n";

/// Arguments, what fails, as `ways_of` and `ends` have it, the openings, and how the request ends.
static REQUESTS: [(&str, &str, u64, Ended<'static>); 67] = rows! {
    // Whole outputs.
    "counts none", "", 0x8 => 0, COUNTS, "";
    "list -", "", 0 => 0, LISTING, "";
    "counts cut", "", 0x2 => 3, "", CUT;
    "set --size 1310720 plain ab", "", 0x17 => 0, DOUBLED, "";
    "each --size 1310720 plain 9 ab", "", 0x17 => 0, DOUBLED, "";
    "check plain cut", "", 0x12 => 1, "plain: accepted\ncut: refused: 8 truncated, 48 bytes needed\n", "";
    "check cut --files-from names", "", 0x212F1 => 4,
        "cut: refused: 8 truncated, 48 bytes needed\nplain: accepted\n\
         cut: refused: 8 truncated, 48 bytes needed\nno: not read\nplain: accepted\n", SOME_FONT;
    "check --null --files-from zeros --format json --summary", "", 0x21 => 1,
        "{\"font\":\"cut\",\"finding\":\"refused\",\"error\":8,\"words\":\"truncated, 48 bytes needed\"}\n\
         {\"font\":\"plain\",\"finding\":\"accepted\"}\n\
         {\"fonts\":2,\"accepted\":1,\"warned\":0,\"refused\":1,\"unread\":0}\n", "";
    "pairs --format csv --encoding v.enc plain", "", 0x13 => 0, FIELDS, "";
    "set plain ab", "", 0x17 => 0, AB, "";
    "stream - ab", "", 0x7 => 0, AB, "";
    "each plain 9 ab", "", 0x17 => 0, AB, "";
    "set --encoding v.enc plain lines", "", 0x136 => 1, RECORDS, "";
    "set --encoding v.enc - lines", "", 0x36 => 1, RECORDS, "";
    "set --encoding v.enc --missing skip plain lines", "", 0x136 => 0, SKIPPED, "";
    "stream --encoding=v.enc plain lines", "", 0x136 => 1, RECORDS, "";
    "stream --encoding v.enc plain", "", 0x13 => 1, RECORDS, "";
    "each --encoding v.enc plain 9 lines", "", 0x136 => 1, RECORDS, "";
    // The limit on steps, and skipped characters.
    "stream --limit 100 endless aa", "", 0 =>
        1, "1:1 refused steps 100\n1:2 set 327680 c97=327680\n1 end complete 2\n", "";
    "set --missing skip right adb", "", 0 => 0,
        "1:1 set 512000 c97=327680 m100 c98=163840 k20480\n\
         1:2 set 327680 c97=327680 m100\n\
         1:3 set 669013 m100 s218453 c97=327680 k-40960 c98=163840\n\
         1:4 set 512000 c97=327680 m124 c98=163840 k20480\n1 end complete 4\n", "";
    "stream --missing skip --record 2 left ada", "", 0 => 0,
        "records 2\n1:1 set 573440 steps 2 k-40960 c97=327680 m100 k-40960 c97=327680\n1 end complete 1\n", "";
    "each --record 2 plain 9 empty", "", 0x1 => 0, "records 2\n1:1 set 0 steps 0\n1 end complete 1\n", "";
    // Interruptions change nothing.
    "set --encoding v.enc --missing skip plain lines", "interrupted", 0x136 => 0, SKIPPED, "";
    "each --crlf plain 9 ab", "interrupted", 0x17 => 0, AB, "";
    // The output fails.
    "pairs --format csv plain", "output", 0x1 => 5, FIELDS, NO_OUTPUT;
    "check plain cut", "flush", 0x12 => 5, "", NO_OUTPUT;
    "set plain ab", "flush", 0x17 => 5, AB, NO_OUTPUT;
    "stream plain ab", "flush", 0x17 => 5, AB, NO_OUTPUT;
    "each plain 9 ab", "flush", 0x17 => 5, AB, NO_OUTPUT;
    // A read fails.
    "check plain cut", "plain", 0x12 =>
        4, "plain: not read\ncut: refused: 8 truncated, 48 bytes needed\n", SOME_FONT;
    "check --files-from names", "names", 0x12F => 4,
        "plain: accepted\ncut: refused: 8 truncated, 48 bytes needed\nno: not read\n", NOT_ENDED;
    "pairs --encoding v.enc plain", "v.enc", 0x13 => 4, "", NOT_READ;
    "set plain ab", "plain", 0x1 => 4, "", NO_FONT;
    "set - ab", "-", 0 => 4, "", NO_FONT;
    "set --encoding v.enc plain lines", "v.enc", 0x13 => 4, "", NOT_READ;
    "each plain 9 ab", "plain", 0x1 => 4, "", "tfmset: font 1 not read\n";
    "set plain ab", "ab", 0x17 => 4, AB_NOT_ENDED, NOT_ENDED;
    "stream plain ab", "ab", 0x17 => 4, AB_NOT_ENDED, NOT_ENDED;
    "each plain 9 ab", "ab", 0x17 => 4, AB_NOT_ENDED, NOT_ENDED;
    "stream --missing skip --encoding v.enc plain", "-", 0x13 => 4, SKIPPED_NOT_ENDED, NOT_ENDED;
    // An error of the vector alone.
    "set --encoding no.enc plain lines", "", 0x1F => 4, "", NOT_READ;
    "set --encoding short.enc plain lines", "", 0x14 => 3, "", AT_LINE_4;
    "set --encoding word.enc - lines", "", 0x5 => 3, "", AT_LINE_3;
    "stream --encoding word.enc plain", "", 0x15 => 3, "", AT_LINE_3;
    "each --encoding no.enc plain 9 lines", "", 0x1F => 4, "", NOT_READ;
    "pairs --encoding short.enc plain", "", 0x14 => 3, "", AT_LINE_4;
    // An error of a font: neither the vector nor a file is opened.
    "set --encoding no.enc cut lines", "", 0x2 => 3, "", CUT;
    "set --encoding short.enc cut no", "", 0x2 => 3, "", CUT;
    "set --encoding v.enc cut lines", "", 0x2 => 3, "", CUT;
    "stream --encoding no.enc cut", "", 0x2 => 3, "", CUT;
    "pairs --encoding word.enc cut", "", 0x2 => 3, "", CUT;
    "set --encoding short.enc no lines", "", 0xF => 4, "", NO_FONT;
    "stream --encoding v.enc no lines", "", 0xF => 4, "", NO_FONT;
    "pairs --encoding no.enc no", "", 0xF => 4, "", NO_FONT;
    "each --encoding no.enc plain 9 lines cut 9 lines", "", 0x12 =>
        3, "", "tfmset: font 2 refused: 8 truncated, 48 bytes needed\n";
    "each --encoding word.enc plain 9 no no 9 no", "", 0x1F => 4, "", "tfmset: font 2 not read\n";
    // An error of the vector before one of a file, which isn't opened; and an error of a file.
    "set --encoding short.enc plain no", "", 0x14 => 3, "", AT_LINE_4;
    "stream --encoding no.enc plain lines no", "", 0x1F => 4, "", NOT_READ;
    "each --encoding word.enc plain 9 no", "", 0x15 => 3, "", AT_LINE_3;
    "set --encoding v.enc plain lines no", "", 0x136F => 4, "", "tfmset: file 2 not read\n";
    "each --encoding v.enc plain 9 no plain 9 ab", "", 0x113F => 4, "", "tfmset: file 1 not read\n";
    "check plain --files-from no", "", 0xF => 4, "", "tfmset: file 1 not read\n";
    // An error of the arguments: nothing is opened.
    "check --files-from - -", "", 0 => 2, "", "tfmset: font and list both on standard input\n";
    "stream --encoding v.enc -", "", 0 => 2, "", "tfmset: font and text both on standard input\n";
    "check no - plain -", "", 0 => 2, "", "tfmset: two fonts on standard input\n";
    "each --encoding short.enc cut 9", "", 0 => 2, "", "tfmset: words not in threes\n";
    "each --encoding short.enc cut 9 ab no 0 ab", "", 0 => 2, "", "tfmset: limit 2 out of range\n";
};

/// Returns the ways of reads and writes if this fails: the output, its flush, or the second read of a file. Interruptions
/// don't fail.
fn ways_of(failing: &str) -> &'static [Ways] {
    match failing {
        "output" => &[ways!(writes = 0)],
        "flush" => &[ways!(flushes = false)],
        "interrupted" => INTERRUPTED,
        _ => &[ways!(reads = 1)],
    }
}

/// A request ends in this way, and with these openings. Standard input is the font `plain` if an argument is `-`, and
/// `LINES` otherwise. If reads fail, then only those of the file `failing`; `-` is standard input.
fn ends<'a, R: Abort + Threads + Wait + Sync + AllocGlobal>(
    rt: &R,
    list: &'a [NamedFile<'a>],
    (words, failing): (&'a str, &'a str),
    wanted: Ended<'_>,
    opened: u64,
) {
    let given = words_of(rt, words, "");
    let bytes = if given.contains(&"-") {
        PLAIN.as_slice()
    } else {
        LINES
    };
    for (number, ways) in ways_of(failing).iter().enumerate() {
        let files = NotedFiles::new(list, failing, ways);
        let mut input = reader(bytes, &ways.of("-", failing));
        let mut out = writer(rt.alloc(), ways);
        let (status, message) = carry_out(rt, &files, &given, &mut input, &mut out);
        let done = (status, out.inner.text.as_slice(), message.as_bytes());
        let holds = is_ended(done, wanted) && files.opened() == opened;
        check(rt, holds, words, number);
    }
}

// Mutants of `tfm_requests`: `read_encoding` returns `NotRead` for each file, `vector_encoding` for a text that isn't
// a vector; the vector is read before the font, or its error is returned although the font wasn't read; a file is
// opened twice; `set_sources` or `check` doesn't flush the output; and those of `tool_calls.rt` for interruptions.
#[test]
fn a_request_ends_with_its_first_error_or_its_output(rt: HostRuntime) {
    let vector = vector(rt.alloc()).expect(&rt, "memory");
    let (text, records) = many_lines(&rt);
    let fonts = [
        right_boundary(rt.alloc()).expect(&rt, "memory"),
        left_boundary(rt.alloc()).expect(&rt, "memory"),
        endless(rt.alloc(), 3).expect(&rt, "memory"),
    ];
    let list = files_with(&vector, text.as_bytes(), &fonts);
    for (words, failing, opened, wanted) in &REQUESTS {
        ends(&rt, &list, (words, failing), *wanted, *opened);
    }
    let wanted = (0, records.as_str(), "");
    for words in ["set plain long", "stream plain long"] {
        ends(&rt, &list, (words, "interrupted"), wanted, 0x19);
    }
}

/// With `each`, the name `-` is that of a file: here of a font, and of a line of 80 bytes that begins with a zero.
#[test]
fn the_first_file_of_a_name_is_opened(rt: HostRuntime) {
    let twice: [NamedFile<'_>; 4] = [("-", &PLAIN), ("-", b""), ("ab", b"ab\nc\n"), ("ab", b"d")];
    let words = ["each", "-", "9", "ab", "-", "9", "-"];
    let mut input = b"".as_slice();
    let mut out = Vec::new(rt.alloc());
    let done = carry_out(&rt, &InMemory::new(&twice), &words, &mut input, &mut out);
    let text = str::from_utf8(out.as_slice()).unwrap_or("");
    let second = text.strip_prefix(AB) == Some("2:1 refused missing 0 0\n2 end complete 1\n");
    check(&rt, second, done.1.as_str(), usize::from(done.0));
}
