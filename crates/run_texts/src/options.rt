use batch::ItemOptions;
use encodings::Encoding;
use line_chunks::LineCounts;
use line_records::RecordFormat;
use run_plan::{Block, Plan};
use std::cell::Cell;

/// More lines than a chunk can have: the lines that one read completes, each of one byte at least.
const ANY_LINES: usize = 131_072;

/// The options of a batch of readers and of its output.
#[derive(Drop)]
pub struct OutputOptions<'a, G> {
    /// The capacity of each lane, the largest number of lines in a chunk, and the largest number of workers,
    /// which is also that of the lanes of a source.
    pub plan: Plan,
    /// The record format.
    pub format: RecordFormat,
    /// The encoding of the font, if the lines are in UTF-8: they are set with the codes of their characters, and
    /// offsets in records count bytes of the line before it is encoded. Without an encoding each byte of a line
    /// is a code of the font.
    pub encoding: Option<Encoding<'static>>,
    /// Whether one carriage return before a line feed belongs to the line ending.
    pub crlf: bool,
    /// Whether a chunk has all lines that one read of its source completes, and not at most as many lines as the
    /// plan states.
    pub whole_reads: bool,
    /// The start barrier of the threads.
    pub gate: &'a G,
    /// A cell for the numbers of lines that were set and refused. It is set at the end of the batch, also if the
    /// output fails.
    pub counts: Option<&'a Cell<LineCounts>>,
}

impl<'a, G> OutputOptions<'a, G> {
    /// Returns the options of the batch, whose items are chunks: the plan, with one chunk in each message; the
    /// start barrier; and the number of workers as the largest number of lanes of a source.
    pub(crate) fn batch(&self) -> ItemOptions<'a, G> {
        let block = Block::new(1).unwrap_or(self.plan.block);
        ItemOptions {
            plan: Plan { block, ..self.plan },
            gate: self.gate,
            lanes: self.plan.workers.get(),
        }
    }

    /// Stores the numbers of lines, if there is a cell for them.
    pub(crate) fn store(&self, lines: LineCounts) {
        if let Some(counts) = self.counts {
            counts.set(lines);
        }
    }

    /// Returns the largest number of lines in a chunk.
    pub(crate) fn most_lines(&self) -> usize {
        if self.whole_reads {
            ANY_LINES
        } else {
            self.plan.block.get()
        }
    }
}
