//! Files, readers and a writer that pass everything on, and note for standard error what they see.
ghost use Rattle.std.specs.Prelude.{◌≡◌};

use crate::coding::END;
use crate::line_scan::LineScan;
use crate::notes::Notes;
use encoding_vectors::MOST_BYTES;
use line_chunks::LineCounts;
use std::cell::Cell;
use std::io;
use std::io::{ErrorKind, Read, Write};
use std::marker::{Brand, PhantomData};
use std::sync::Wait;
use tfm_requests::{Opens, Purpose};

/// Files whose errors are noted with their names.
#[derive(Drop)]
pub(crate) struct WatchedFiles<'r, 'n, R, F> {
    rt: &'r R,
    files: F,
    notes: &'n Notes,
    /// The numbers of lines that were set and refused, after the batch.
    pub lines: Cell<LineCounts>,
}

impl<'r, 'n, R, F> WatchedFiles<'r, 'n, R, F> {
    /// Returns these files.
    pub fn new(rt: &'r R, files: F, notes: &'n Notes) -> Self
        ensures { result.files ≡ files }
    {
        WatchedFiles {
            rt,
            files,
            notes,
            lines: Cell::new(LineCounts::default()),
        }
    }
}

impl<'r, 'n, R: Wait + Sync, F: Opens> Opens for WatchedFiles<'r, 'n, R, F> {
    type File = WatchedReader<'r, 'n, R, F::File>;

    ghost known = { λ watched name. F.known watched.files name };

    fn open(&self, name: &str, purpose: Purpose) -> io::Result<WatchedReader<'r, 'n, R, F::File>> {
        match self.files.open(name, purpose) {
            Ok(file) => Ok(WatchedReader::new(self.rt, self.notes, file, name, purpose)),
            Err(error) => {
                self.notes.note(self.rt, name.as_bytes(), &error);
                if purpose == Purpose::Font {
                    self.notes.note_font(name, &error);
                }
                if name == "-" {
                    self.notes.note_dash(self.rt);
                }
                Err(error)
            }
        }
    }

    fn counts(&self) -> Option<&Cell<LineCounts>> {
        Some(&self.lines)
    }

    fn note_refused(&self) {
        self.notes.note_kind(self.rt);
    }

    fn note_name(&self, name: &[u8]) {
        self.notes.note_name(self.rt, name);
    }
}

/// A reader whose errors are noted with its name. Its lines that end with a carriage return are counted, and its first
/// lines are looked at; or its first bytes are compared with what the request expects.
#[derive(Drop)]
pub(crate) struct WatchedReader<'r, 'n, R, T> {
    rt: &'r R,
    notes: &'n Notes,
    reader: T,
    /// The name. Without one, nothing is noted.
    name: Option<Vec<u8>>,
    purpose: Purpose,
    /// The last byte that was read.
    last: u8,
    /// What was looked at of a file with lines.
    scan: LineScan,
    /// The first bytes of a font or a vector, if they are compared.
    kept: Option<Vec<u8>>,
}

/// Returns how many first bytes of a file that is read as this are compared: one more than a vector can have, or the
/// bytes of a font up to the end of its coding scheme.
fn most_kept(purpose: Purpose) -> usize {
    match purpose {
        Purpose::Vector => MOST_BYTES + 1,
        Purpose::Font | Purpose::Lines | Purpose::List => END,
    }
}

impl<'r, 'n, R, T: Read> WatchedReader<'r, 'n, R, T> {
    /// Returns this reader, which has this name.
    pub fn new(rt: &'r R, notes: &'n Notes, reader: T, name: &str, purpose: Purpose) -> Self
        ensures { result.reader ≡ reader }
    {
        WatchedReader {
            rt,
            notes,
            reader,
            name: notes.name(name),
            purpose,
            last: 0,
            scan: LineScan::new(),
            kept: notes.kept(purpose),
        }
    }

    /// Counts the lines in these further bytes that end with a carriage return.
    fn count(&mut self, bytes: &[u8])
        ensures { self.new.reader ≡ self.old.reader }
    {
        let mut last = self.last;
        let mut count: u64 = 0;
        for byte in bytes {
            if *byte == b'\n' && last == b'\r' {
                count = count.saturating_add(1);
            }
            last = *byte;
        }
        self.last = last;
        self.notes.count_returns(count);
    }
}

impl<'r, 'n, R: Wait, T: Read> WatchedReader<'r, 'n, R, T> {
    /// Notes an error. An interrupted read isn't noted, since it is made again.
    fn note(&self, error: &io::Error) {
        if error.kind() == ErrorKind::Interrupted {
            return;
        }
        if let Some(name) = &self.name {
            self.notes.note(self.rt, name.as_slice(), error);
        }
    }

    /// Looks at these further bytes of a file with lines, of which there are none at its end.
    fn look(&mut self, bytes: &[u8])
        ensures { self.new.reader ≡ self.old.reader }
    {
        if let Some(wanted) = self.notes.wanted() {
            let found = self.scan.look(bytes, wanted);
            if let Some(name) = &self.name {
                self.notes.note_lines(self.rt, name.as_slice(), found);
            }
        }
        if self.notes.counts_returns() {
            self.count(bytes);
        }
    }

    /// Keeps these further bytes of a font or a vector, or at its end compares what was kept.
    fn keep(&mut self, bytes: &[u8])
        ensures { self.new.reader ≡ self.old.reader }
    {
        let Some(kept) = &mut self.kept else {
            return;
        };
        if bytes.is_empty() {
            self.compare();
            return;
        }
        let room = most_kept(self.purpose).saturating_sub(kept.len());
        if kept
            .extend_from_slice(&bytes[..room.min(bytes.len())])
            .is_err()
        {
            self.kept = None;
        }
    }

    /// Compares a font or a vector, which was read, with the encoding of the request.
    fn compare(&self) {
        if let (Some(name), Some(kept)) = (&self.name, &self.kept) {
            match self.purpose {
                Purpose::Font => self
                    .notes
                    .note_read(self.rt, name.as_slice(), kept.as_slice()),
                Purpose::Vector => self
                    .notes
                    .note_names(self.rt, name.as_slice(), kept.as_slice()),
                Purpose::Lines | Purpose::List => {}
            }
        }
    }
}

impl<R: Wait, T: Read> Read for WatchedReader<'_, '_, R, T> {
    ghost remaining = { λ watched. T.remaining watched.reader };

    fn read(&mut self, buffer: &mut [u8]) -> io::Result<usize> {
        match self.reader.read(buffer) {
            Ok(count) => {
                if self.purpose == Purpose::Lines {
                    self.look(&buffer[..count]);
                } else {
                    self.keep(&buffer[..count]);
                }
                Ok(count)
            }
            Err(error) => {
                self.note(&error);
                Err(error)
            }
        }
    }
}

/// For the proof: the name of the reference to a writer.
pub(crate) trait WriterName {
    ghost use Rattle.std.specs.Prelude.{ℕ};

    /// The name.
    ghost name: { ℕ };
}

/// A placeholder: the proof of the caller chooses the name.
impl WriterName for Brand {
    ghost name = { 0 };
}

/// What a request is written to, and what was noted of it.
#[derive(Drop)]
pub(crate) struct Sink<'a, W, E> {
    /// The writer.
    pub out: &'a mut W,
    /// Standard error, if notes are printed before the output is complete.
    pub err: Option<&'a mut E>,
    /// The numbers of lines that were set and refused, if the writer accepted bytes.
    pub lines: Option<LineCounts>,
    /// The first error of the writer.
    pub error: Option<io::Error>,
}

/// A writer that prints what was noted before each write, and notes its first error and whether it accepted bytes. For
/// the proof: it is always the same writer, which `K` names.
#[derive(Drop)]
pub(crate) struct WatchedWriter<'a, 'r, 'n, R, W, E, K: WriterName> {
    rt: &'r R,
    notes: &'n Notes,
    out: &'a mut W,
    err: Option<&'a mut E>,
    any: bool,
    error: Option<io::Error>,
    of: PhantomData<K>,
    ghost same: { out.ghost_name ≡ K.name },
}

impl<'a, 'r, 'n, R: Wait, W: Write, E: Write, K: WriterName> WatchedWriter<'a, 'r, 'n, R, W, E, K> {
    /// Returns this writer, of which nothing is noted.
    pub fn new(rt: &'r R, notes: &'n Notes, sink: Sink<'a, W, E>) -> Self
        requires { sink.out.ghost_name ≡ K.name }
        ensures { result.out ≡ sink.entry.out }
    {
        WatchedWriter {
            rt,
            notes,
            out: sink.out,
            err: sink.err,
            any: false,
            error: None,
            of: PhantomData,
        }
    }

    /// Returns the writer, and what was noted of it, with these numbers of lines.
    pub fn into_sink(self, lines: LineCounts) -> Sink<'a, W, E>
        ensures { result.out ≡ self.entry.out }
    {
        let WatchedWriter {
            rt: _,
            notes: _,
            out,
            err,
            any,
            error,
            of: _,
        } = self;
        let lines = any.then_some(lines);
        Sink {
            out,
            err,
            lines,
            error,
        }
    }

    /// Prints what was noted.
    fn print_notes(&mut self)
        ensures { self.new.out ≡ self.old.out }
    {
        if let Some(err) = &mut self.err {
            self.notes.print(self.rt, &mut **err);
        }
    }

    /// Notes an error, if it is the first one. An interrupted call isn't noted, since it is made again.
    fn note(&mut self, error: &io::Error)
        ensures { self.new.out ≡ self.old.out }
    {
        if self.error.is_none() && error.kind() != ErrorKind::Interrupted {
            self.error = Some(*error);
        }
    }
}

impl<R: Wait, W: Write, E: Write, K: WriterName> Write for WatchedWriter<'_, '_, '_, R, W, E, K> {
    ghost contents = { λ watched. W.contents watched.out.now };

    fn write(&mut self, bytes: &[u8]) -> io::Result<usize> {
        self.print_notes();
        match self.out.write(bytes) {
            Ok(count) => {
                self.any |= count > 0;
                Ok(count)
            }
            Err(error) => {
                self.note(&error);
                Err(error)
            }
        }
    }

    fn flush(&mut self) -> io::Result<()> {
        match self.out.flush() {
            Ok(()) => Ok(()),
            Err(error) => {
                self.note(&error);
                Err(error)
            }
        }
    }
}
