//! `set_each` and `set_text`, which write the report of a batch of sources of lines: fonts and limits that differ from
//! source to source, a limit that is met, another size than the design size, each record format, sources that fail, and
//! writers that fail or take no byte. The records are those of the worked examples in docs/TESTING.md.
use super::doubles::check;
use batch::NoGate;
use batch_support::{FailingSource, small_plan};
use lanes::SourceFault;
use run_texts::{FontSetting, ReportOptions, Summary, ToolFault, set_each, set_text, terms_of};
use set_line::{Limit, Policy, Version};
use std::process::Abort;
use std::sync::Wait;
use std::thread::Threads;
use test_support::FailingWriter;
use test_support::fonts::{ENDLESS, LIGATURE, PLAIN, Sample};
use tfm_words::Size;

/// A font, the size at which it is read, or `None` for its design size, and the limit on the steps of a line.
type Setting = (Sample<'static>, Option<u32>, u32);

/// The lines of a source, and the error with which it ends, if it fails.
type Source = (&'static [&'static str], Option<SourceFault>);

/// The setting of each source, or one for all; the sources; the record format; the output; and the number of refused
/// lines, whether a read failed, and whether an allocation failed.
type Row = (
    &'static [Setting],
    &'static [Source],
    Version,
    &'static str,
    (u64, bool, bool),
);

const PLAIN_100: Setting = (PLAIN, None, 100);

static ROWS: [Row; 8] = table! {
    &[PLAIN_100], &[], Version::Two, "records 2\n", (0, false, false);
    &[(LIGATURE, None, 1_048_576), (PLAIN, None, 4)], &[(&["ab"], None), (&["ab abc"], None)], Version::Two,
        "records 2\n1:1 set 491520 steps 2 c99=491520\n1 end complete 1\n\
         2:1 refused steps 4\n2 end complete 1\n", (1, false, false);
    &[(LIGATURE, None, 1_048_576), (PLAIN, None, 5)], &[(&["ab"], None), (&["ab abc"], None)], Version::One,
        "1:1 set 491520 c99=491520\n1 end complete 1\n\
         2:1 set 1693013 c97=327680 c98=163840 s218453 c97=327680 c98=163840 c99=491520\n2 end complete 1\n",
        (0, false, false);
    &[(ENDLESS, None, 100)], &[(&["aa", "a"], None)], Version::One,
        "1:1 refused steps 100\n1:2 set 327680 c97=327680\n1 end complete 2\n", (1, false, false);
    &[(PLAIN, Some(1_310_720), 100)], &[(&[], None), (&["abc"], None), (&["ad", "abc"], None)], Version::One,
        "1 end complete 0\n2:1 set 1966080 c97=655360 c98=327680 c99=983040\n2 end complete 1\n\
         3:1 refused missing 1 100\n3:2 set 1966080 c97=655360 c98=327680 c99=983040\n3 end complete 2\n",
        (1, false, false);
    &[PLAIN_100], &[(&["ab", "", "abc"], None), (&["a"], None)], Version::Two,
        "records 2\n1:1 set 491520 steps 2 c97=327680 c98=163840\n1:2 set 0 steps 0\n\
         1:3 set 983040 steps 3 c97=327680 c98=163840 c99=491520\n1 end complete 3\n\
         2:1 set 327680 steps 1 c97=327680\n2 end complete 1\n", (0, false, false);
    &[PLAIN_100], &[(&["ab"], Some(SourceFault::Read)), (&[], None), (&["ad"], None)], Version::Json,
        "{\"source\":1,\"line\":1,\"width\":491520,\"steps\":2,\"items\":[[\"c\",97,327680],[\"c\",98,163840]]}\n\
         {\"source\":1,\"end\":\"read\",\"lines\":1}\n{\"source\":2,\"end\":\"complete\",\"lines\":0}\n\
         {\"source\":3,\"line\":1,\"refused\":\"missing\",\"offset\":1,\"code\":100}\n\
         {\"source\":3,\"end\":\"complete\",\"lines\":1}\n", (1, true, false);
    &[PLAIN_100], &[(&[], Some(SourceFault::ReadBound)), (&["a"], Some(SourceFault::OutOfMemory)), (&["ab"], None)],
        Version::One,
        "1 end bound 0\n2:1 set 327680 c97=327680\n2 end memory 1\n\
         3:1 set 491520 c97=327680 c98=163840\n3 end complete 1\n", (0, true, true);
};

/// Returns these sources.
fn sources_of<R: Abort + AllocGlobal>(rt: &R, given: &[Source]) -> Vec<FailingSource> {
    let mut sources = Vec::new(rt.alloc());
    for (lines, fault) in given {
        let source = FailingSource::new(rt.alloc(), lines, *fault).expect(rt, "memory");
        sources.push(source).expect(rt, "memory");
    }
    sources
}

/// Returns the setting with this font file. Missing characters are refused.
fn font_of<'a, R: Abort>(rt: &R, bytes: &'a [u8], setting: &Setting) -> FontSetting<'a> {
    FontSetting {
        bytes,
        size: setting.1.and_then(Size::new),
        limit: Limit::new(setting.2).expect(rt, "a limit"),
        policy: Policy::Refuse,
    }
}

/// Calls `set_text` with the first setting of a row, or `set_each`.
fn report<R: Abort + Threads + Wait + Sync + AllocGlobal>(
    rt: &R,
    function: &str,
    row: &Row,
    out: &mut FailingWriter,
) -> Result<Summary, ToolFault> {
    let (settings, given, version, _, _) = row;
    let options = ReportOptions {
        plan: small_plan().expect(rt, "a plan"),
        version: *version,
        gate: &NoGate,
    };
    let first = settings.first().expect(rt, "a setting");
    let sources = sources_of(rt, given);
    if function == "set_text" {
        let file = first.0.file(rt.alloc()).expect(rt, "memory");
        return set_text(rt, &font_of(rt, &file, first), sources, &options, out);
    }
    let mut pairs = Vec::new(rt.alloc());
    for (number, source) in sources.into_iter().enumerate() {
        let setting = settings.get(number).unwrap_or(first);
        let file = setting.0.file(rt.alloc()).expect(rt, "memory");
        let terms = terms_of(rt.alloc(), &font_of(rt, &file, setting));
        let pair = (source, terms.expect(rt, "a font"));
        pairs.push(pair).expect(rt, "memory");
    }
    set_each(rt, rt.alloc(), pairs, &options, out)
}

/// The numbers of bytes that a write takes, and those of writes after which the next one fails.
static WRITES: [(usize, usize); 12] = table! {
    usize::MAX, usize::MAX; 0, usize::MAX; 20, 0; 20, 1; 20, 2; 20, 3; 20, 4; 20, 5; 20, 6; 20, 7; 20, 8; 20, 9;
};

/// If the writer fails, or takes no byte, the error is `Write`, and the output begins with exactly what was taken.
// Mutant of `write_once` in `writing.rt` of `run_texts`: `Ok(0)` isn't an error, so that the call never ends.
#[test]
fn reports_are_written_as_far_as_the_writer_takes_them(rt: HostRuntime) {
    for function in ["set_each", "set_text"] {
        for row in &ROWS {
            let (settings, _, _, wanted, (refused, read_failed, memory)) = row;
            let summary = Summary {
                refused: *refused,
                read_failed: *read_failed,
                memory: *memory,
            };
            for (step, writes) in &WRITES {
                if function == "set_text" && settings.len() > 1 {
                    continue;
                }
                let mut out = FailingWriter::new(rt.alloc(), *step, *writes, true);
                let done = report(&rt, function, row, &mut out);
                let taken = step.saturating_mul(*writes).min(wanted.len());
                let ended = match done {
                    Ok(seen) => taken == wanted.len() && seen == summary,
                    Err(fault) => taken < wanted.len() && matches!(fault, ToolFault::Write),
                };
                let begins = out.text.as_slice() == &wanted.as_bytes()[..taken];
                check(&rt, ended && begins, wanted, *writes);
            }
        }
    }
}
