//! Lines to be set, and lines of an output.
use set_line::Line;
use std::alloc::{AllocError, Global};

/// Returns a line of these bytes; `None` if an allocation fails.
pub fn line(alloc: Global, bytes: &[u8]) -> Option<Line> {
    Some(Line::new(Vec::from_slice(alloc, bytes).ok()?))
}

/// Returns lines with these texts; `None` if an allocation fails.
pub fn lines_of(alloc: Global, texts: &[&str]) -> Option<Vec<Line>> {
    let mut lines = Vec::with_capacity(alloc, texts.len()).ok()?;
    for text in texts {
        lines.push(line(alloc, text.as_bytes())?).ok()?;
    }
    Some(lines)
}

/// Returns this many lines with the same text; `None` if an allocation fails.
pub fn repeated_line(alloc: Global, text: &str, count: usize) -> Option<Vec<Line>> {
    let texts = vec![in alloc; text; count].ok()?;
    lines_of(alloc, &texts)
}

/// Returns the lines of an output in record format 1 or 2 that are about this source, in order.
pub fn lines_of_source(alloc: Global, text: &str, number: usize) -> Result<String, AllocError> {
    let mut own = String::new(alloc);
    for line in text.lines() {
        let word = line.split(' ').next().unwrap_or("");
        let source = word.split(':').next().unwrap_or("");
        if source.parse::<usize>() == Ok(number) {
            own.push_str(line)?;
            own.push('\n')?;
        }
    }
    Ok(own)
}
