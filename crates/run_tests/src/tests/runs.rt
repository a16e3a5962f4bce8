//! Batches, and their reports as text: the records of each source, and a line for its end.
use batch::{NoGate, RunFault};
use batch_support::{CountingGate, FailingSource, plan, source_of, with_terms};
use lanes::{LaneEnd, SourceFault};
use set_line::{Line, Policy, Terms, Version, record};
use set_run::{LaneReport, LineSource, ListSource, ReaderSource, Report, run};
use std::alloc::Global;
use std::process::Abort;
use std::sync::{Arc, Wait};
use std::test::Fail;
use std::thread::Threads;
use test_support::fonts::{ENDLESS, LIGATURE, PLAIN, Sample};
use test_support::terms::{LIMIT, plain_terms, terms_of};
use test_support::{TricklingReader, repeated_line};

/// Sources, with their settings.
type Sources<S> = Vec<(S, Arc<Terms>)>;

/// Appends the records of a lane, and a line for its end with the number of its results.
fn push_lane<S>(
    alloc: Global,
    source: u64,
    lane: &LaneReport<S>,
    text: &mut Vec<u8>,
) -> Result<(), Fail> {
    let mut place = 0u64;
    for answer in lane.answers.as_slice() {
        place = place.wrapping_add(1);
        record(source, place, answer, Version::One, text)?;
    }
    let word = match lane.end {
        LaneEnd::Complete => "complete",
        LaneEnd::SourceFailed(SourceFault::Read) => "read",
        LaneEnd::SourceFailed(SourceFault::ReadBound) => "bound",
        LaneEnd::SourceFailed(SourceFault::OutOfMemory) => "memory",
        LaneEnd::GaveUp => "gave-up",
    };
    let end = format!(in alloc; "{source} end {word} {place}\n")?;
    Ok(text.extend_from_slice(end.as_bytes())?)
}

/// A report has this text.
pub fn says<R: Abort + AllocGlobal, S>(
    rt: &R,
    case: &str,
    report: &Report<S>,
    wanted: &str,
) -> Result<(), Fail> {
    let mut text = Vec::new(rt.alloc());
    let mut source = 0u64;
    for lane in report.lanes() {
        source = source.wrapping_add(1);
        push_lane(rt.alloc(), source, lane, &mut text)?;
    }
    assert!(rt; text.as_slice() == wanted.as_bytes(), "{case}");
    Ok(())
}

/// The batch of these sources, in blocks of this many lines, has this report. It is finished if all sources were read
/// to their ends.
fn reports<R: Threads + Wait + Abort + AllocGlobal + Sync, S: LineSource + Send + Drop>(
    rt: &R,
    sources: Option<Sources<S>>,
    block: usize,
    (wanted, finished): (&str, bool),
) -> Result<(), Fail> {
    let sources = sources.ok_or("out of memory")?;
    let report = run(rt, rt.alloc(), sources, plan(1, block, 2)?, &NoGate)?;
    assert!(rt; report.is_finished() == finished, "{wanted}");
    says(rt, wanted, &report, wanted)
}

/// A source without lines, one with the line `abc`, and one with 100 lines `ab`, of which line 50 is replaced by
/// 65,536 bytes; `None` if an allocation fails.
pub fn three_sources(alloc: Global) -> Option<Sources<ListSource>> {
    let mut lines = repeated_line(alloc, "ab", 100)?;
    *lines.get_mut(49)? = Line::new(Vec::from_elem(alloc, b'a', 65_536).ok()?);
    let mut sources = Vec::with_capacity(alloc, 3).ok()?;
    sources.push(source_of(alloc, &[])?).ok()?;
    sources.push(source_of(alloc, &["abc"])?).ok()?;
    sources.push(ListSource::new(lines)).ok()?;
    with_terms(alloc, &plain_terms(alloc)?, sources)
}

/// The report of these three sources.
fn text_of_three(alloc: Global) -> Result<String, Fail> {
    let mut text = String::new(alloc);
    text.push_str("1 end complete 0\n2:1 set 983040 c97=327680 c98=163840 c99=491520\n")?;
    text.push_str("2 end complete 1\n")?;
    for place in 1..101u32 {
        match place {
            50 => write!(text, "3:50 refused too-long 65536\n")?,
            _ => write!(text, "3:{place} set 491520 c97=327680 c98=163840\n")?,
        }
    }
    text.push_str("3 end complete 100\n")?;
    Ok(text)
}

/// A source: its font, its limit on steps, its lines, and the error after them, if there is one.
type Own = (
    Sample<'static>,
    u32,
    &'static [&'static str],
    Option<SourceFault>,
);

/// Sources with terms of their own, and their report. A batch is finished if no source fails.
static REPORTS: [(&[Own], &str); 2] = table! {
    &[
        (LIGATURE, LIMIT, &["ab"], None),
        (PLAIN, 4, &["ab abc", "ab"], None),
        (ENDLESS, 100, &["aa", "a"], None),
    ],
    "1:1 set 491520 c99=491520\n1 end complete 1\n\
        2:1 refused steps 4\n2:2 set 491520 c97=327680 c98=163840\n2 end complete 2\n\
        3:1 refused steps 100\n3:2 set 327680 c97=327680\n3 end complete 2\n";
    &[
        (PLAIN, LIMIT, &["ab", "c"], Some(SourceFault::Read)),
        (PLAIN, LIMIT, &["a"], None),
        (ENDLESS, 100, &["aa"], Some(SourceFault::OutOfMemory)),
        (PLAIN, LIMIT, &[], Some(SourceFault::ReadBound)),
    ],
    "1:1 set 491520 c97=327680 c98=163840\n1:2 set 491520 c99=491520\n1 end read 2\n\
        2:1 set 327680 c97=327680\n2 end complete 1\n\
        3:1 refused steps 100\n3 end memory 1\n4 end bound 0\n";
};

/// The sources of a row; `None` if an allocation fails.
fn own_sources(alloc: Global, rows: &[Own]) -> Option<Sources<FailingSource>> {
    let mut sources = Vec::with_capacity(alloc, rows.len()).ok()?;
    for (font, limit, texts, error) in rows {
        let terms = terms_of(alloc, font.file(alloc), *limit, Policy::Refuse)?;
        let source = FailingSource::new(alloc, texts, *error)?;
        sources.push((source, terms)).ok()?;
    }
    Some(sources)
}

/// A reader that fails in its second line, and one of `a`; `None` if an allocation fails.
fn failing_readers(alloc: Global) -> Option<Sources<ReaderSource<TricklingReader<'static>>>> {
    let mut sources = Vec::with_capacity(alloc, 2).ok()?;
    for (bytes, reads) in [(b"ab\nc".as_slice(), 1), (b"a", usize::MAX)] {
        let reader = TricklingReader::new(bytes, 4, reads);
        sources.push(ReaderSource::new(alloc, reader)).ok()?;
    }
    with_terms(alloc, &plain_terms(alloc)?, sources)
}

const OF_READERS: &str = "1:1 set 491520 c97=327680 c98=163840\n1 end read 1\n\
    2:1 set 327680 c97=327680\n2 end complete 1\n";

#[test]
fn sources_are_reported_in_order_up_to_their_ends_or_errors(rt: HostRuntime) -> Result<(), Fail> {
    let alloc = rt.alloc();
    let of_three = text_of_three(alloc)?;
    for block in [1, 3, 8] {
        reports(&rt, three_sources(alloc), block, (&of_three, true))?;
        for (rows, wanted) in &REPORTS {
            let finished = rows.iter().all(|(_, _, _, error)| error.is_none());
            reports(&rt, own_sources(alloc, rows), block, (wanted, finished))?;
        }
        reports(&rt, failing_readers(alloc), block, (OF_READERS, false))?;
    }
    Ok(())
}

/// Sources of lines `ab`, this many each; `None` if an allocation fails.
fn sources_of_ab(alloc: Global, counts: &[usize]) -> Option<Sources<ListSource>> {
    let mut sources = Vec::with_capacity(alloc, counts.len()).ok()?;
    for count in counts {
        let lines = repeated_line(alloc, "ab", *count)?;
        sources.push(ListSource::new(lines)).ok()?;
    }
    with_terms(alloc, &plain_terms(alloc)?, sources)
}

/// The report of these sources.
pub fn text_of_ab(alloc: Global, counts: &[usize]) -> Result<String, Fail> {
    let mut text = String::new(alloc);
    let mut source = 0u64;
    for count in counts {
        source = source.wrapping_add(1);
        for place in 0..*count {
            let place = place.wrapping_add(1);
            write!(text, "{source}:{place} set 491520 c97=327680 c98=163840\n")?;
        }
        write!(text, "{source} end complete {count}\n")?;
    }
    Ok(text)
}

/// Slots, lines in a block, and workers.
type Layout = (usize, usize, usize);

const LAYOUTS: [Layout; 16] = table! {
    1, 1, 1; 1, 8, 1; 16, 1, 1; 16, 8, 1; 1, 1, 2; 1, 8, 2; 16, 1, 2; 16, 8, 2;
    1, 1, 3; 1, 8, 3; 16, 1, 3; 16, 8, 3; 1, 1, 16; 1, 8, 16; 16, 1, 16; 16, 8, 16;
};

/// How many lines `ab` each source of a batch has, and layouts of the batch.
static BATCHES: [(&[usize], &[Layout]); 4] = table! {
    &[], &[(1, 1, 16)];
    &[1; 64], &[(1, 1, 16)];
    &[1, 2, 3, 4, 5], &LAYOUTS;
    &[100; 64], &[(1, 1, 1), (1, 1, 3), (1, 8, 3), (1, 1, 16)];
};

/// The thread of each source, each worker and the collecting thread pass the start barrier once.
#[test]
fn threads_and_rings_change_no_report(rt: HostRuntime) -> Result<(), Fail> {
    for (counts, layouts) in &BATCHES {
        let wanted = text_of_ab(rt.alloc(), counts)?;
        for (capacity, block, workers) in *layouts {
            let case = format!(in rt.alloc();
                "{} sources, workers {workers} capacity {capacity} block {block}",
                counts.len()
            )?;
            let sources = sources_of_ab(rt.alloc(), counts).ok_or("out of memory")?;
            let gate = CountingGate::new();
            let report = run(
                &rt,
                rt.alloc(),
                sources,
                plan(*capacity, *block, *workers)?,
                &gate,
            )?;
            assert!(&rt; report.is_finished(), "{case}");
            says(&rt, &case, &report, &wanted)?;
            let threads = counts.len().min(*workers);
            let entered = gate.was_entered_by(counts.len(), threads);
            assert!(&rt; counts.is_empty() || entered, "{case}");
        }
    }
    Ok(())
}

#[test]
fn sixty_five_sources_are_too_many(rt: HostRuntime) -> Result<(), Fail> {
    let sources = sources_of_ab(rt.alloc(), &[1; 65]).ok_or("out of memory")?;
    let done = run(&rt, rt.alloc(), sources, plan(1, 1, 16)?, &NoGate);
    assert!(&rt; matches!(done, Err(RunFault::TooManySources)));
    Ok(())
}
