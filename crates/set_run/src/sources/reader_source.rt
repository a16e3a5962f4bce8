ghost use Rattle.std.specs.Prelude.{◌≡◌, None, option_map};
ghost use Rattle.std.specs.Io.KnownBytes.{prepend_known};
ghost use Rattle.set_line.specs.Lines.{lines_of};
ghost use Rattle.batch.specs.Sources.{gives_known};

use self::buffer::Buffer;
use self::raw_line::{RawLine, next_raw_line};
use self::state::ReaderState;
use crate::LineSource;
use lanes::SourceFault;
use set_line::{Line, cut_at_feeds};
use std::alloc::Global;
use std::io::Read;
use std::snapshot::Snapshot;

mod buffer;
mod raw_line;
mod state;

/// A source that reads its lines from a reader. Each line feed ends a line; the bytes after the last one are
/// a line unless there are none.
#[derive(Drop)]
pub struct ReaderSource<R> {
    reader: R,
    buffer: Buffer,
    state: ReaderState,
    made_of: Snapshot<R>,
    alloc: Global,
}

impl<R: Read> ReaderSource<R> {
    /// Returns a source of the lines of this reader. Nothing is read yet, and no memory is allocated.
    pub fn new(alloc: Global, reader: R) -> Self
        ensures to_come { ⟦<ReaderSource<R> as LineSource>⟧.to_come result
            ≡ option_map lines_of (R.remaining reader) }
        ensures failed { ⟦<ReaderSource<R> as LineSource>⟧.failed result ≡ None }
        ensures origin { ⟦<ReaderSource<R> as LineSource>⟧.origin result ≡ reader }
    {
        let made_of = Snapshot::of(&reader);
        ReaderSource {
            reader,
            buffer: Buffer::new(alloc),
            state: ReaderState::Open,
            made_of,
            alloc,
        }
    }

    /// Reads the next line, or returns `None` at the end. The source must be open: it hasn't reached the end
    /// or failed before.
    fn read_line(&mut self) -> Result<Option<Line>, SourceFault>
        requires { self.old.state ≡ ReaderState.Open }
        ensures reads { gives_known ⟦<ReaderSource<R> as LineSource>⟧.to_come
            ⟦<ReaderSource<R> as LineSource>⟧.failed self.old result self.new }
        ensures origin { self.new.made_of.value ≡ self.old.made_of.value }
    {
        cut_at_feeds();
        match next_raw_line(self.alloc, &mut self.reader, &mut self.buffer) {
            Ok(RawLine::Ended(line)) => Ok(Some(Line::new(line))),
            Ok(RawLine::Last(line)) => {
                self.state = ReaderState::AtEnd;
                Ok(if line.is_empty() {
                    None
                } else {
                    Some(Line::new(line))
                })
            }
            Err(fault) => {
                self.state = ReaderState::Failed(fault);
                Err(fault)
            }
        }
    }
}

impl<R: Read> LineSource for ReaderSource<R> {
    ghost use Rattle.std.specs.Io.KnownBytes.{prepend_known};
    ghost use Rattle.set_run.specs.Reading.{fault_of, lines_to_come};

    ghost to_come = { λ source.
        lines_to_come source.state (prepend_known source.buffer (R.remaining source.reader)) };

    ghost failed = { λ source. fault_of source.state };

    ghost Origin = { R };

    ghost origin = { λ source. source.made_of.value };

    fn next_line(&mut self) -> Result<Option<Line>, SourceFault> {
        match self.state {
            ReaderState::Open => self.read_line(),
            ReaderState::AtEnd => Ok(None),
            ReaderState::Failed(fault) => Err(fault),
        }
    }
}
