ghost use Rattle.std.specs.Prelude.{◌≡◌, ◌+◌, ◌<◌, ◌^◌, ◌++◌, [], None, IfErr, IfOk, OnOk, length};
ghost use Rattle.std.specs.Arc.{arc_value};
ghost use Rattle.line_records.specs.Cells.{style_of};
ghost use Rattle.line_records.specs.Results.{is_refused};
ghost use Rattle.line_chunks.specs.Chunks.{cut, lines_of_chunk, numbered_cuts, too_long};
ghost use Rattle.line_chunks.specs.ChunkText.{chunk_text, record_in, records_in, refused_in, result_in};
ghost use Rattle.set_line.specs.Returns.{lines_in};

use crate::chunk::Contents;
use crate::chunk_text::LineCount;
use crate::{Chunk, ChunkText, LineCounts};
use dealt_lanes::Shared;
use encodings::Encoding;
use lanes::Making;
use line_records::{LineResult, LineWriter, RecordFormat, RecordOf, SourceLine};
use set_line::{
    LineRefusal, OutOfMemory, RecordNumber, Terms, TextRefusal, append_refusal, next_line,
};
use std::alloc::Global;
use std::marker::Model;
use std::sync::Arc;

/// Makes the records of the lines of a source. Memory that is used for each line, such as that of its items,
/// is kept for the next one, so that most lines need no allocation.
#[derive(Drop)]
pub struct RecordMaker {
    terms: Arc<Terms>,
    source: u64,
    encoding: Option<Encoding<'static>>,
    format: RecordFormat,
    writer: LineWriter,
    /// The counts of the lines of the last chunk.
    pub(crate) counts: LineCounts,
    /// The number of bytes of the last text.
    last: usize,
    /// The allocator of the makers that `share` returns.
    alloc: Global,
}

impl Model for RecordMaker {
    ghost use Rattle.std.specs.Prelude.{◌≡◌};
    ghost use Rattle.std.specs.Arc.{arc_value};
    ghost use Rattle.line_chunks.specs.ChunkText.{MakerValue};

    ghost Value = { MakerValue };

    ghost view = { λ m. record {
      terms = arc_value m.terms;
      source = m.source;
      style = record { encoding = m.encoding; format = m.format };
    } };

    ghost use Rattle.line_records.specs.Cells.{style_of};

    ghost invariant = { λ m. m.writer ≡ style_of (arc_value m.terms) m.format };
}

/// Returns an empty text with room for this many bytes, or without any if an allocation fails.
fn with_room(alloc: Global, room: usize) -> Vec<u8>
    ensures { result.items ≡ [] }
{
    match Vec::with_capacity(alloc, room) {
        Ok(text) => text,
        Err(_) => Vec::new(alloc),
    }
}

impl RecordMaker {
    /// Returns a maker of the records of the source with this number, in this format, for lines of bytes that
    /// are set with these settings. This allocates no memory.
    pub fn new(alloc: Global, terms: Arc<Terms>, source: u64, format: RecordFormat) -> Self
        ensures { result ≡ record {
          terms = arc_value terms;
          source = source;
          style = record { encoding = None; format = format };
        } }
    {
        let writer = LineWriter::new(alloc, &terms, format);
        RecordMaker {
            terms,
            source,
            encoding: None,
            format,
            writer,
            counts: LineCounts::default(),
            last: 0,
            alloc,
        }
    }

    /// Returns this maker for lines with this encoding. If there is one, the lines are in UTF-8, and a byte order
    /// mark at the front of the line with the number 1 is left out.
    pub fn with_encoding(self, encoding: Option<Encoding<'static>>) -> Self
        ensures { result ≡ record {
          terms = self.terms;
          source = self.source;
          style = record { encoding = encoding.entry; format = self.style.format };
        } }
    {
        let mut maker = self;
        maker.encoding = encoding;
        maker
    }

    /// Appends the record of a line of this length, which is too long.
    fn append_too_long(
        &mut self,
        number: u64,
        length: usize,
        text: &mut Vec<u8>,
    ) -> Result<LineCount, OutOfMemory>
        ensures kept { self.new ≡ self.old }
        ensures appended { OnOk result (text.new.items
            ≡ text.old.items ++ record_in self.old (number, too_long length)) }
        ensures counted { IfOk result (λ count. count ≡ record { lines = 1; refused = 1 }) }
    {
        let number = RecordNumber {
            source: self.source,
            line: number,
        };
        let refusal = TextRefusal::Line(LineRefusal::TooLong(length));
        append_refusal(text, number, refusal, self.format.version())?;
        self.counts.count(LineResult::Refused(refusal));
        Ok(LineCount {
            lines: 1,
            refused: 1,
        })
    }

    /// Appends the record of a line. Returns whether the line was refused.
    #[tactic(auto, using(crate::proofs::TextLemmas::cuts))]
    fn append(&mut self, number: u64, bytes: &[u8], text: &mut Vec<u8>) -> Result<bool, OutOfMemory>
        ensures kept { self.new ≡ self.old }
        ensures appended { OnOk result (text.new.items
            ≡ text.old.items ++ record_in self.old (number, cut bytes.now)) }
        ensures refused { IfOk result (λ refused.
            refused ≡ is_refused (result_in self.old.terms self.old.style.encoding number (cut bytes.now))) }
    {
        let of = RecordOf {
            terms: &self.terms,
            encoding: self.encoding,
            source: self.source,
        };
        let line = SourceLine {
            number,
            first: number == 1,
            bytes,
        };
        let result = self.writer.append(&of, line, text)?;
        self.counts.count(result);
        Ok(result.is_refused())
    }

    /// Appends the records of the lines in these bytes, of which the first has this line number. If `crlf` is true,
    /// lines may end with CR LF.
    fn append_lines(
        &mut self,
        first: u64,
        crlf: bool,
        bytes: &[u8],
        text: &mut Vec<u8>,
    ) -> Result<LineCount, OutOfMemory>
        requires { first + length (lines_in crlf bytes.now) < 2 ^ 64 }
        ensures kept { self.new ≡ self.old }
        ensures appended { OnOk result (text.new.items
            ≡ text.old.items ++ records_in self.old (numbered_cuts first (lines_in crlf bytes.now))) }
        ensures lines { IfOk result (λ count. count.lines ≡ length (lines_in crlf bytes.now)) }
        ensures refused { IfOk result (λ count. count.refused
            ≡ refused_in self.old.terms self.old.style.encoding (numbered_cuts first (lines_in crlf bytes.now))) }
    {
        let mut number = first;
        let mut refused = 0;
        let mut rest = bytes;
        while let Some((line, more)) = next_line(rest, crlf) {
            refused += u64::from(self.append(number, line, text)?);
            number += 1;
            rest = more;
        }
        Ok(LineCount {
            lines: number - first,
            refused,
        })
    }

    /// Appends the records of the lines of a chunk.
    fn append_all(&mut self, chunk: &Chunk, text: &mut Vec<u8>) -> Result<LineCount, OutOfMemory>
        ensures kept { self.new ≡ self.old }
        ensures appended { OnOk result (text.new.items
            ≡ text.old.items ++ records_in self.old (lines_of_chunk chunk.now)) }
        ensures lines { IfOk result (λ count. count.lines ≡ length chunk.now.lines) }
        ensures refused { IfOk result (λ count. count.refused
            ≡ refused_in self.old.terms self.old.style.encoding (lines_of_chunk chunk.now)) }
    {
        match &chunk.contents {
            Contents::Lines(bytes) => {
                self.append_lines(chunk.first, chunk.crlf, bytes.as_slice(), text)
            }
            Contents::TooLong(length) => self.append_too_long(chunk.first, *length, text),
        }
    }

    /// Makes the text of a chunk. The error means that an allocation failed, and contains the unchanged
    /// chunk. In both cases the texts of later chunks are as before.
    pub fn make(&mut self, alloc: Global, chunk: Chunk) -> Result<ChunkText, (Chunk, OutOfMemory)>
        ensures kept { self.new ≡ self.old }
        ensures made { IfOk result (λ text. text ≡ chunk_text self.old chunk) }
        ensures back { IfErr result (λ failed. failed.0 ≡ chunk) }
    {
        self.writer.prepare(&self.terms);
        self.counts = LineCounts::default();
        let mut text = with_room(alloc, self.last.saturating_add(self.last / 4));
        match self.append_all(&chunk, &mut text) {
            Ok(count) => {
                self.last = text.len();
                Ok(ChunkText::new(self, &chunk, text, count))
            }
            Err(fault) => Err((chunk, fault)),
        }
    }
}

impl Making for RecordMaker {
    ghost use Rattle.line_chunks.specs.ChunkText.{chunk_text};
    ghost use Rattle.std.proofs.Common.{rules};

    type In = Chunk;

    type Out = ChunkText;

    ghost makes = { chunk_text };

    ghost slots = { 1 };

    fn make(&mut self, alloc: Global, input: Chunk) -> Result<ChunkText, (Chunk, OutOfMemory)> {
        RecordMaker::make(self, alloc, input)
    }

    ghost fits = { Prim.search rules };
}

impl Shared for RecordMaker {
    fn share(&self) -> Result<RecordMaker, OutOfMemory> {
        let terms = Arc::try_clone(&self.terms)?;
        let maker = RecordMaker::new(self.alloc, terms, self.source, self.format);
        Ok(maker.with_encoding(self.encoding))
    }
}
