//! What a request notes for standard error: the causes of errors with the names of files, what makes numbers wrong,
//! and with `--verbose` numbers of lines.
use crate::coding::{other_than, remedy};
use crate::font_kind::kind_of;
use crate::line_scan::{FirstLines, LineKinds};
use encoding_vectors::{read_vector, unknown_names};
use encodings::Encoding;
use font_texts::push_escaped_text;
use std::alloc::Global;
use std::io::Write;
use std::sync::atomic::{AtomicBool, AtomicU64, Ordering};
use std::sync::{Mutex, Wait};
use std::{io, mem};
use tfm_requests::Purpose;

/// What is noted of a request.
#[derive(Clone, Copy, Drop)]
pub(crate) struct Scope {
    /// Whether causes of errors are noted.
    pub causes: bool,
    /// Whether the request has `--verbose`.
    pub verbose: bool,
    /// Lines that are looked for at the front of each file, since their numbers are likely wrong.
    pub wanted: LineKinds,
    /// Whether lines that end with a carriage return are counted.
    pub counts_returns: bool,
    /// Whether the numbers of lines that were set and refused are printed.
    pub has_summary: bool,
    /// The encoding of the request, if the coding schemes of its fonts are compared with it.
    pub encoding: Option<Encoding<'static>>,
}

/// The notes of a request, which the threads that read files share.
#[derive(Drop)]
pub(crate) struct Notes {
    alloc: Global,
    scope: Scope,
    /// The lines that weren't printed yet, complete.
    lines: Mutex<Vec<u8>>,
    /// Whether there are such lines.
    has_lines: AtomicBool,
    /// The line about the kind of the font that was read last, or no bytes.
    kind: Mutex<Vec<u8>>,
    /// Whether a line of UTF-8 is still looked for.
    wants_text: AtomicBool,
    /// Whether a line that ends with a carriage return is still looked for.
    wants_returns: AtomicBool,
    /// The number of lines that end with a carriage return.
    returns: AtomicU64,
    /// Whether a font wasn't found whose name has no slash, such as `cmr10`.
    bare_unfound: AtomicBool,
}

impl Notes {
    /// Returns the notes of a request before it is carried out.
    pub fn new(alloc: Global, scope: Scope) -> Self {
        Notes {
            alloc,
            scope,
            lines: Mutex::new(Vec::new(alloc)),
            has_lines: AtomicBool::new(false),
            kind: Mutex::new(Vec::new(alloc)),
            wants_text: AtomicBool::new(scope.wanted.text),
            wants_returns: AtomicBool::new(scope.wanted.returns),
            returns: AtomicU64::new(0),
            bare_unfound: AtomicBool::new(false),
        }
    }

    /// Returns whether causes of errors are noted.
    pub fn has_causes(&self) -> bool {
        self.scope.causes
    }

    /// Returns whether the numbers of lines that were set and refused are printed.
    pub fn has_summary(&self) -> bool {
        self.scope.has_summary
    }

    /// Returns whether lines that end with a carriage return are counted.
    pub fn counts_returns(&self) -> bool {
        self.scope.counts_returns
    }

    /// Returns what is still looked for at the front of a file, or `None` if nothing is.
    pub fn wanted(&self) -> Option<LineKinds> {
        let wanted = LineKinds {
            text: self.wants_text.load(Ordering::Relaxed),
            returns: self.wants_returns.load(Ordering::Relaxed),
        };
        if wanted.text || wanted.returns {
            Some(wanted)
        } else {
            None
        }
    }

    /// Returns an empty list for the first bytes of a file that is read as this, if a note depends on them.
    pub fn kept(&self, purpose: Purpose) -> Option<Vec<u8>> {
        let kept = match purpose {
            Purpose::Font => self.scope.causes,
            Purpose::Vector => self.scope.verbose,
            Purpose::Lines | Purpose::List => false,
        };
        if kept {
            Some(Vec::new(self.alloc))
        } else {
            None
        }
    }

    /// Returns a copy of a name for later notes, or `None` if there will be none, or if an allocation fails.
    pub fn name(&self, name: &str) -> Option<Vec<u8>> {
        if !self.scope.causes {
            return None;
        }
        Vec::from_slice(self.alloc, name.as_bytes()).ok()
    }

    /// Notes these lines. If an allocation failed or fails, nothing is noted.
    fn add<R: Wait>(&self, rt: &R, lines: io::Result<Vec<u8>>) {
        if let Ok(lines) = lines {
            self.add_bytes(rt, lines.as_slice());
        }
    }

    /// Notes these lines, unless an allocation fails.
    fn add_bytes<R: Wait>(&self, rt: &R, lines: &[u8]) {
        if self.lines.lock(rt).extend_from_slice(lines).is_ok() {
            self.has_lines.store(true, Ordering::Relaxed);
        }
    }

    /// Prints the lines that were noted and not yet printed. If `err` fails, its error is ignored.
    pub fn print<R: Wait, E: Write>(&self, rt: &R, err: &mut E) {
        if !self.has_lines.swap(false, Ordering::Relaxed) {
            return;
        }
        let lines = mem::replace(&mut *self.lines.lock(rt), Vec::new(self.alloc));
        let _ = err.write_all(lines.as_slice());
        let _ = err.flush();
    }

    /// Notes an error of the file of this name.
    pub fn note<R: Wait>(&self, rt: &R, name: &[u8], error: &io::Error) {
        if self.scope.causes {
            self.add(rt, cause_line(self.alloc, name, error));
        }
    }

    /// Notes that a FILE has the name `-` and wasn't opened, since users expect it to be standard input.
    pub fn note_dash<R: Wait>(&self, rt: &R) {
        if self.scope.causes {
            let hint = b"tfmset: -: this is the name of a file; /dev/stdin is standard input\n";
            self.add_bytes(rt, hint);
        }
    }

    /// Notes that this name isn't UTF-8.
    pub fn note_name<R: Wait>(&self, rt: &R, name: &[u8]) {
        self.add(rt, text_line(self.alloc, name, BAD_NAME));
    }

    /// Notes that the font of this name wasn't opened, if causes are noted.
    pub fn note_font(&self, name: &str, error: &io::Error) {
        let is_bare = !matches!(name, "" | "-") && !name.contains('/');
        if self.scope.causes && is_bare && error.kind() == io::ErrorKind::NotFound {
            self.bare_unfound.store(true, Ordering::Relaxed);
        }
    }

    /// Returns whether causes are noted, and a font wasn't found whose name has no slash and isn't empty or `-`.
    pub fn has_bare_unfound(&self) -> bool {
        self.bare_unfound.load(Ordering::Relaxed)
    }

    /// Notes that the coding scheme of the font of this name, which begins with these bytes, states another encoding
    /// than that of the request, if it does. Keeps a line that says what the font is if it is no TFM file.
    pub fn note_read<R: Wait>(&self, rt: &R, name: &[u8], font: &[u8]) {
        if let Some(encoding) = self.scope.encoding {
            if let Some(stated) = other_than(self.alloc, font, encoding) {
                self.add(rt, coding_line(self.alloc, name, stated, encoding));
            }
        }
        let line = match kind_of(font) {
            Some(kind) => text_line(self.alloc, name, kind),
            None => Ok(Vec::new(self.alloc)),
        };
        *self.kind.lock(rt) = line.unwrap_or(Vec::new(self.alloc));
    }

    /// Notes what the font that was read last is, if it is no TFM file.
    pub fn note_kind<R: Wait>(&self, rt: &R) {
        let line = mem::replace(&mut *self.kind.lock(rt), Vec::new(self.alloc));
        if !line.is_empty() {
            self.add_bytes(rt, line.as_slice());
        }
    }

    /// Notes which names have no character in the file of this name, if it has the text of a vector with such names.
    pub fn note_names<R: Wait>(&self, rt: &R, name: &[u8], text: &[u8]) {
        if read_vector(text).is_err() {
            return;
        }
        if let Ok(unknown) = unknown_names(self.alloc, text) {
            if !unknown.is_empty() {
                self.add(rt, names_line(self.alloc, name, unknown.as_slice()));
            }
        }
    }

    /// Notes the lines that were found in the file of this name, in order: of each kind the first one of the request.
    pub fn note_lines<R: Wait>(&self, rt: &R, name: &[u8], found: FirstLines) {
        if let (Some(returns), Some(text)) = (found.returns, found.text) {
            if returns < text {
                self.note_line(rt, &self.wants_returns, (name, found.returns, RETURN));
            }
        }
        self.note_line(rt, &self.wants_text, (name, found.text, TEXT));
        self.note_line(rt, &self.wants_returns, (name, found.returns, RETURN));
    }

    /// Notes the line with this number, if it was found and such a line is still wanted.
    fn note_line<R: Wait>(
        &self,
        rt: &R,
        is_wanted: &AtomicBool,
        (name, number, text): (&[u8], Option<u64>, &str),
    ) {
        if let Some(number) = number {
            if is_wanted.swap(false, Ordering::Relaxed) {
                self.add(rt, line_line(self.alloc, name, number, text));
            }
        }
    }

    /// Counts lines that end with a carriage return.
    pub fn count_returns(&self, count: u64) {
        if count > 0 {
            self.returns.fetch_add(count, Ordering::Relaxed);
        }
    }

    /// Returns the number of lines that were counted, and whether the first one was noted when it was found.
    pub fn returns(&self) -> (u64, bool) {
        let is_noted = self.scope.wanted.returns && !self.wants_returns.load(Ordering::Relaxed);
        (self.returns.load(Ordering::Relaxed), is_noted)
    }
}

/// What is said of a name in a list of fonts: a path of the toolchain is text.
const BAD_NAME: &str = "a name that isn't UTF-8 can't be opened";

/// What is said of a line in UTF-8.
const TEXT: &str = "is UTF-8, but each byte is set as a code; for text in UTF-8 add --encoding";

/// What is said of a line that ends with a carriage return.
const RETURN: &str =
    "ends with a carriage return, which is a character of the line; to leave it out add --crlf";

/// Returns a line about the line with this number in the file of this name.
fn line_line(alloc: Global, name: &[u8], number: u64, text: &str) -> io::Result<Vec<u8>> {
    let mut line = begun_line(alloc, name)?;
    writeln!(line, ": line {number} {text}")?;
    Ok(line)
}

/// Returns a line with the name of a file and this text.
fn text_line(alloc: Global, name: &[u8], text: &str) -> io::Result<Vec<u8>> {
    let mut line = begun_line(alloc, name)?;
    writeln!(line, ": {text}")?;
    Ok(line)
}

/// Returns the front of a line about the file of this name.
fn begun_line(alloc: Global, name: &[u8]) -> io::Result<Vec<u8>> {
    let mut line = Vec::from_slice(alloc, b"tfmset: ")?;
    push_escaped_text(&mut line, name)?;
    Ok(line)
}

/// Returns a line with the name of a file and an error.
fn cause_line(alloc: Global, name: &[u8], error: &io::Error) -> io::Result<Vec<u8>> {
    let mut line = begun_line(alloc, name)?;
    writeln!(line, ": {error}")?;
    Ok(line)
}

/// Returns a line with the name of a font, the encoding that its coding scheme states, that of the request, and what
/// to write instead.
fn coding_line(
    alloc: Global,
    name: &[u8],
    stated: &str,
    encoding: Encoding,
) -> io::Result<Vec<u8>> {
    let mut line = begun_line(alloc, name)?;
    let (given, remedy) = (encoding.name(), remedy(stated));
    writeln!(
        line,
        ": its coding scheme is that of {stated}, and --encoding is {given}; {remedy}"
    )?;
    Ok(line)
}

/// Returns a line with the name of the file of a vector, and the number of its names without characters. It has the
/// first five of them.
fn names_line(alloc: Global, name: &[u8], unknown: &[&[u8]]) -> io::Result<Vec<u8>> {
    let mut line = begun_line(alloc, name)?;
    let count = unknown.len();
    let verb = if count == 1 { "has" } else { "have" };
    write!(line, ": {count} of 256 names {verb} no character")?;
    let (first, others) = unknown.split_at(count.min(5));
    let mut before = ": ";
    for each in first {
        line.extend_from_slice(before.as_bytes())?;
        push_escaped_text(&mut line, each)?;
        before = ", ";
    }
    if !others.is_empty() {
        write!(line, " and {} more", others.len())?;
    }
    line.push(b'\n')?;
    Ok(line)
}
