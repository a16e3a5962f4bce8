//! Appends lines of the output: its first line, the records of a chunk, and the end line of a lane.
ghost use Rattle.std.specs.Prelude.{◌≡◌, ◌+◌, ◌<◌, ◌^◌, ◌++◌, IfErr, OnErr, OnOk};
ghost use Rattle.std.specs.List.{concat};
ghost use Rattle.batch.specs.declared.collector.Refusal.TheVariants.{OutOfMemory as NoMemory};
ghost use Rattle.run_texts.specs.LaneText.{chunk_lines};
ghost use Rattle.run_texts.specs.RunText.{end_text, head_text, json_end, why_of, words_end};

use crate::record_count::RecordCount;
use batch::Refusal;
use itoa::Buffer;
use lanes::{LaneEnd, SourceFault};
use line_chunks::ChunkText;
use set_line::Version;
use std::alloc::AllocError;

/// Returns the reason for the end of a lane, as the end line states it.
#[tactic(auto, unfolding(crate::specs::RunText::why_of))]
fn why(end: LaneEnd) -> &'static [u8]
    ensures { result.now ≡ why_of end }
{
    match end {
        LaneEnd::Complete => b"complete",
        LaneEnd::SourceFailed(SourceFault::Read) => b"read",
        LaneEnd::SourceFailed(SourceFault::OutOfMemory) => b"memory",
        LaneEnd::SourceFailed(SourceFault::ReadBound) => b"bound",
        LaneEnd::GaveUp => b"gave-up",
    }
}

/// Appends the first line of the output, which only record format 2 has. After an error `text` is unchanged.
pub(crate) fn push_head(version: Version, text: &mut Vec<u8>) -> Result<(), Refusal>
    ensures text { OnOk result (text.new.items ≡ text.old.items ++ head_text version) }
    ensures as_before { OnErr result (text.new.items ≡ text.old.items) }
{
    match version {
        Version::One | Version::Json => Ok(()),
        Version::Two => text
            .extend_from_slice(b"records 2\n")
            .map_err(|_| Refusal::OutOfMemory),
    }
}

/// Appends the end line of the source with this number, which has this many records.
#[tactic(auto, unfolding(crate::specs::RunText::end_text))]
pub(crate) fn push_end_line(
    source: u64,
    version: Version,
    end: LaneEnd,
    records: u64,
    text: &mut Vec<u8>,
) -> Result<(), AllocError>
    ensures { OnOk result (text.new.items
        ≡ text.old.items ++ end_text source version (why_of end) records) }
{
    match version {
        Version::One | Version::Two => push_words_end(source, end, records, text),
        Version::Json => push_json_end(source, end, records, text),
    }
}

/// Appends an end line of record format 1 or 2.
#[tactic(auto, unfolding(crate::specs::RunText::words_end))]
fn push_words_end(
    source: u64,
    end: LaneEnd,
    records: u64,
    text: &mut Vec<u8>,
) -> Result<(), AllocError>
    ensures { OnOk result (text.new.items
        ≡ text.old.items ++ words_end source (why_of end) records) }
{
    let mut digits = Buffer::new();
    text.extend_from_slice(digits.format(source).as_bytes())?;
    text.extend_from_slice(b" end ")?;
    text.extend_from_slice(why(end))?;
    text.extend_from_slice(b" ")?;
    text.extend_from_slice(digits.format(records).as_bytes())?;
    text.extend_from_slice(b"\n")
}

/// Appends an end line as a JSON object.
#[tactic(auto, unfolding(crate::specs::RunText::json_end))]
fn push_json_end(
    source: u64,
    end: LaneEnd,
    records: u64,
    text: &mut Vec<u8>,
) -> Result<(), AllocError>
    ensures { OnOk result (text.new.items
        ≡ text.old.items ++ json_end source (why_of end) records) }
{
    let mut digits = Buffer::new();
    text.extend_from_slice(b"{\"source\":")?;
    text.extend_from_slice(digits.format(source).as_bytes())?;
    text.extend_from_slice(b",\"end\":\"")?;
    text.extend_from_slice(why(end))?;
    text.extend_from_slice(b"\",\"lines\":")?;
    text.extend_from_slice(digits.format(records).as_bytes())?;
    text.extend_from_slice(b"}\n")
}

impl RecordCount {
    /// Returns the counts of a lane without records.
    pub fn new() -> Self
        ensures records { result.records ≡ 0 }
        ensures refused { result.refused ≡ 0 }
    {
        RecordCount {
            records: 0,
            refused: 0,
        }
    }

    /// Appends the records of the next chunk of a lane, and counts them. The error is `OutOfMemory`: an
    /// allocation failed, or the lane would have 2^64 - 1 records. After an error `text` and the counts are
    /// unchanged.
    #[tactic(auto, using(crate::proofs::ChunkLemmas::texts))]
    pub fn push_chunk(&mut self, chunk: &ChunkText, text: &mut Vec<u8>) -> Result<(), Refusal>
        ensures text { OnOk result (text.new.items
            ≡ text.old.items ++ concat (chunk_lines chunk.now)) }
        ensures records { OnOk result (self.new.records ≡ self.old.records + chunk.now.lines) }
        ensures refused { OnOk result (self.new.refused ≡ self.old.refused + chunk.now.refused) }
        ensures as_before { OnErr result ((text.new.items ≡ text.old.items)
            × (self.new ≡ self.old)) }
        ensures refusal { IfErr result (λ refusal. refusal ≡ NoMemory) }
    {
        let (lines, refused) = (chunk.lines(), chunk.refused());
        if lines >= u64::MAX - self.records {
            return Err(Refusal::OutOfMemory);
        }
        text.extend_from_slice(chunk.text())?;
        *self = RecordCount {
            records: self.records + lines,
            refused: self.refused + refused,
        };
        Ok(())
    }

    /// Appends the end line of the lane with this index. The error is `OutOfMemory`, and `text` is unchanged
    /// after it.
    pub fn push_end(
        &self,
        lane: usize,
        end: LaneEnd,
        version: Version,
        text: &mut Vec<u8>,
    ) -> Result<(), Refusal>
        requires { lane + 1 < 2 ^ 64 }
        ensures text { OnOk result (text.new.items ≡ text.old.items
            ++ end_text (lane + 1) version (why_of end) self.now.records) }
        ensures as_before { OnErr result (text.new.items ≡ text.old.items) }
        ensures refusal { IfErr result (λ refusal. refusal ≡ NoMemory) }
    {
        let mut line = Vec::new(*text.allocator());
        push_end_line(lane as u64 + 1, version, end, self.records, &mut line).map_err(
            |_| Refusal::OutOfMemory,
        )?;
        text.extend_from_slice(line.as_slice())
            .map_err(|_| Refusal::OutOfMemory)
    }
}
