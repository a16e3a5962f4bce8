//! The lines that are printed after a request.
use crate::notes::Notes;
use line_chunks::LineCounts;
use std::io;
use std::io::Write;

/// Writes the cause of an error of standard output. Then writes how many lines end with a carriage return, if they
/// were counted and there are any; the option is named unless it was when the first one was found.
pub(crate) fn say_causes<E: Write>(
    notes: &Notes,
    output: Option<io::Error>,
    err: &mut E,
) -> io::Result<()> {
    if let (true, Some(error)) = (notes.has_causes(), output) {
        writeln!(err, "tfmset: standard output: {error}")?;
    }
    let (returns, is_noted) = notes.returns();
    if returns > 0 {
        let verb = if returns == 1 {
            "line ends"
        } else {
            "lines end"
        };
        let option = if is_noted { "" } else { ": see --crlf" };
        writeln!(
            err,
            "tfmset: {returns} {verb} with a carriage return{option}"
        )?;
    }
    Ok(())
}

/// Returns the number of refused lines for each reason, with its word.
fn reasons(counts: &LineCounts) -> [(u64, &'static str); 5] {
    [
        (counts.too_long, "too-long"),
        (counts.encoding, "encoding"),
        (counts.uncoded, "uncoded"),
        (counts.missing, "missing"),
        (counts.steps, "steps"),
    ]
}

/// Returns the number of refused lines.
fn refused(counts: &LineCounts) -> u64 {
    let mut sum: u64 = 0;
    for (count, _) in &reasons(counts) {
        sum = sum.saturating_add(*count);
    }
    sum
}

/// Returns the word for this number of lines.
fn lines(count: u64) -> &'static str {
    if count == 1 { "line" } else { "lines" }
}

/// Writes how many characters were skipped and in how many lines, if there are any.
fn say_skipped<E: Write>(counts: &LineCounts, err: &mut E) -> io::Result<()> {
    let (count, within) = (counts.skipped, counts.lines_with_skipped);
    if count == 0 {
        return Ok(());
    }
    let characters = if count == 1 {
        "character"
    } else {
        "characters"
    };
    write!(
        err,
        "; {count} {characters} skipped in {within} {}",
        lines(within)
    )
}

/// Writes this reason after this text, with the number of lines that were refused for it, if there are any. Returns the
/// text before the next reason.
fn say_reason<E: Write>(
    before: &'static str,
    count: u64,
    reason: &'static str,
    err: &mut E,
) -> io::Result<&'static str> {
    if count == 0 {
        return Ok(before);
    }
    write!(err, "{before}{count} {reason}")?;
    Ok(", ")
}

/// Writes the reasons for which lines were refused, with their numbers of lines.
fn say_reasons<E: Write>(counts: &LineCounts, err: &mut E) -> io::Result<()> {
    let mut before = ": ";
    for (count, reason) in &reasons(counts) {
        before = say_reason(before, *count, reason, err)?;
    }
    Ok(())
}

/// Writes one line with the numbers of lines that were set and refused, of each reason that occurred, and of characters
/// that were skipped, if there are any.
pub(crate) fn say_summary<E: Write>(counts: &LineCounts, err: &mut E) -> io::Result<()> {
    let refused = refused(counts);
    write!(
        err,
        "tfmset: {} {} set, {refused} refused",
        counts.set,
        lines(counts.set)
    )?;
    say_reasons(counts, err)?;
    say_skipped(counts, err)?;
    err.write_all(b"\n")
}
