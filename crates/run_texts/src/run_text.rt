//! Collects the output of all lanes of a batch in memory, and writes it when the batch is done.
ghost use Rattle.std.specs.Prelude.{◌≡◌, ℕ, true, ◌++◌, flat_map, length, [], ⊤, IfErr, IfOk, IfSome, OnOk};
ghost use Rattle.std.specs.Io.KnownBytes.{Appends};
ghost use Rattle.run_plan.specs.declared.version.Version.{Version as Form};
ghost use Rattle.run_plan.specs.declared.version.Version.TheVariants.{One};
ghost use Rattle.batch.specs.declared.collector.Refusal.TheVariants.{OutOfMemory as NoMemory};
ghost use Rattle.run_texts.specs.Endings.{is_text_fault};
ghost use Rattle.run_texts.specs.LaneText.{AreKept};
ghost use Rattle.run_texts.specs.RunText.{head_text};

use crate::ToolFault;
use crate::lane_text::LaneText;
use crate::record::push_head;
use crate::writing::write_text;
use batch::{Collector, Refusal};
use lanes::LaneEnd;
use line_chunks::{ChunkText, LineCounts};
use set_line::Version;
use std::alloc::{AllocError, Global};
use std::io::Write;
use std::marker::{Brand, PhantomData};

/// For the proof: the number of lanes and the record format of a batch whose output is kept.
pub(crate) trait BatchShape {
    /// The number of lanes.
    ghost lanes: { ℕ };

    /// The record format.
    ghost version: { Form };
}

/// A placeholder: the proof of the caller chooses both values.
impl BatchShape for Brand {
    ghost lanes = { 0 };

    ghost version = { One };
}

/// The output of all lanes of a batch.
#[derive(Drop)]
pub(crate) struct RunTexts<K: BatchShape> {
    pub version: Version,
    pub lanes: Vec<LaneText>,
    /// The numbers of lines of all lanes.
    pub lines: LineCounts,
    of: PhantomData<K>,
}

/// Writes the output of lanes in order, and frees that of each lane when it is written.
fn write_lanes<W: Write>(lanes: Vec<LaneText>, out: &mut W) -> Result<(), ToolFault>
    ensures written { OnOk result (Appends (W.contents out.old) (W.contents out.new)
        (flat_map (λ lane. lane.text) lanes.items)) }
    ensures fault { IfErr result (λ fault. fault ≡ ToolFault.Write) }
{
    for lane in lanes {
        lane.write(out)?;
    }
    Ok(())
}

impl<K: BatchShape> RunTexts<K> {
    /// Returns an empty output for each of this many lanes. Fails if an allocation fails.
    pub fn new(alloc: Global, count: usize, version: Version) -> Result<Self, AllocError>
        ensures version { IfOk result (λ texts. texts.version ≡ version) }
        ensures lanes { IfOk result (λ texts. length texts.lanes.items ≡ count) }
        ensures kept { IfOk result (λ texts. AreKept version [] 0 texts.lanes.items) }
    {
        let mut lanes = Vec::with_capacity(alloc, count)?;
        for _ in 0..count {
            lanes.push(LaneText::new(alloc))?;
        }
        Ok(RunTexts {
            version,
            lanes,
            lines: LineCounts::default(),
            of: PhantomData,
        })
    }

    /// Writes the first line of the record format, if it has one, and then the output of all lanes in order.
    #[tactic(auto, using(crate::proofs::RunTextLemmas::appends_more))]
    pub fn write<W: Write>(self, alloc: Global, out: &mut W) -> Result<(), ToolFault>
        ensures written { OnOk result (Appends (W.contents out.old) (W.contents out.new)
            (head_text self.version ++ flat_map (λ lane. lane.text) self.lanes.items)) }
        ensures fault { IfErr result (λ fault. is_text_fault fault ≡ true) }
    {
        let mut head = Vec::new(alloc);
        push_head(self.version, &mut head)?;
        write_text(head.as_slice(), out)?;
        write_lanes(self.lanes, out)?;
        Ok(())
    }
}

impl<K: BatchShape> Collector for RunTexts<K> {
    type Item = ChunkText;

    ghost lanes = { λ texts. length texts.lanes.items };

    ghost given = { λ texts events. (texts.version ≡ K.version)
        × (length texts.lanes.items ≡ K.lanes)
        × AreKept K.version events 0 texts.lanes.items };

    ghost refused = { λ texts refusal. IfSome refusal (λ refused. refused ≡ NoMemory) };

    ghost quiet = { λ texts. ⊤ };

    fn take(&mut self, lane: usize, chunk: ChunkText) -> Result<(), Refusal> {
        self.lines.add(chunk.counts());
        self.lanes[lane].take(&chunk)
    }

    fn end(&mut self, lane: usize, end: LaneEnd) -> Result<(), Refusal> {
        self.lanes[lane].end(lane, end, self.version)
    }

    fn about_to_wait(&mut self) -> Result<(), Refusal> {
        Ok(())
    }
}
