ghost use Rattle.std.specs.Prelude.{◌≡◌, ◌+◌, ◌≤◌, ◌++◌, None, IfOk, IfSome, OnErr, OnOk, length, vec_capacity, vec_len};
ghost use Rattle.line_records.specs.Cells.{Fits, style_of};
ghost use Rattle.line_records.specs.Kept.{IsKeptResult, IsTried};
ghost use Rattle.line_records.specs.Results.{IsResult, line_record, line_result, refusal_in};

use crate::keeping::{KeptLine, Lists, set_codes, set_parts};
use crate::measuring::{append_box, measure};
use crate::refusing::find_refusal;
use crate::table::TextTable;
use crate::{LineResult, RecordFormat, RecordOf, SourceLine};
use encodings::{EncodeFault, EncodedLine, encode_line};
use set_line::{
    LineRefusal, MOST_BYTES, OutOfMemory, Policy, RecordNumber, SetText, Terms, TextRefusal,
    append_refusal, append_set,
};
use std::alloc::Global;
use std::marker::Model;
use std::snapshot::Snapshot;
use tfm_tables::Font;

/// The memory that is used again from line to line.
#[derive(Drop)]
struct Rooms {
    /// The table of texts, if the writer is prepared.
    table: Option<TextTable>,
    /// The codes of a line in UTF-8.
    codes: EncodedLine,
    lists: Lists,
}

/// Sets a line. Returns `None` if the line is refused, or if it takes more steps than the limit.
#[tactic(auto, using(crate::proofs::ResultLemmas::tried))]
fn try_keep(
    rooms: &mut Rooms,
    format: RecordFormat,
    of: &RecordOf<'_>,
    line: SourceLine<'_>,
) -> Result<Option<KeptLine>, OutOfMemory>
    requires { IfSome rooms.old.table (λ table. table ≡ style_of of.now.terms.now format) }
    ensures table { rooms.new.table ≡ rooms.old.table }
    ensures kept { IfOk result (IsTried of.now.terms.now of.now.encoding line.entry.first line.entry.bytes.now
        format rooms.new.lists.texts.items) }
{
    if line.bytes.len() > MOST_BYTES {
        return Ok(None);
    }
    let terms = of.terms;
    let Some(encoding) = of.encoding else {
        let set = set_codes(
            &mut rooms.table,
            terms,
            format,
            line.bytes,
            &mut rooms.lists,
        )?;
        return Ok(set);
    };
    match encode_line(encoding, line.first, line.bytes, &mut rooms.codes) {
        Ok(()) => {}
        Err(EncodeFault::NotUtf8(_)) => return Ok(None),
        Err(EncodeFault::OutOfMemory) => return Err(OutOfMemory),
    }
    if rooms.codes.has_gaps() {
        return Ok(set_parts(terms, format, rooms.codes.parts(), &mut rooms.lists)?);
    }
    let codes = rooms.codes.codes();
    Ok(set_codes(&mut rooms.table, terms, format, codes, &mut rooms.lists)?)
}

/// Sets a line, or returns its refusal. The texts of its items are at the front of the list of texts.
#[tactic(auto, using(crate::proofs::ResultLemmas::results))]
fn keep(
    rooms: &mut Rooms,
    format: RecordFormat,
    of: &RecordOf<'_>,
    line: SourceLine<'_>,
) -> Result<Result<KeptLine, TextRefusal>, OutOfMemory>
    requires { IfSome rooms.old.table (λ table. table ≡ style_of of.now.terms.now format) }
    ensures table { rooms.new.table ≡ rooms.old.table }
    ensures kept { IfOk result (IsKeptResult format
        (line_result of.now.terms.now of.now.encoding line.entry.first line.entry.bytes.now)
        rooms.new.lists.texts.items) }
    ensures memory { OnErr result
        (refusal_in of.now.terms.now of.now.encoding line.entry.first line.entry.bytes.now ≡ None) }
{
    let set = try_keep(rooms, format, of, line);
    if let Ok(Some(kept)) = set {
        return Ok(Ok(kept));
    }
    if let Some(refusal) = find_refusal(of, line) {
        return Ok(Err(refusal));
    }
    set?;
    Ok(Err(TextRefusal::Line(LineRefusal::Steps(of.terms.limit().get()))))
}

/// Sets lines and writes their records, in one format. A prepared writer has a table of texts, with which it sets each
/// line that can be set with it. Any other line is set in the general way: [`set_stretch`] makes lists of items, and
/// their texts are written one after the other. The results are the same in both ways. For a box, the text of a
/// character is its code, and the box is measured over these codes. Memory that is used for each line is kept for the
/// next one, so that most lines need no allocation. In contracts, the value of a writer is its font, its
/// missing-character policy and its record format.
///
/// [`set_stretch`]: set_line::set_stretch
#[derive(Drop)]
pub struct LineWriter {
    rooms: Rooms,
    policy: Policy,
    format: RecordFormat,
    /// For the proof: the font.
    font: Snapshot<Font>,
}

impl Model for LineWriter {
    ghost use Rattle.std.specs.Prelude.{◌≡◌, IfSome};
    ghost use Rattle.line_records.specs.Cells.{Style};

    ghost Value = { Style };

    ghost view = { λ w. record { font = w.font.value; policy = w.policy; format = w.format } };

    ghost invariant = { λ w. IfSome w.rooms.table (λ table.
        table ≡ record { font = w.font.value; policy = w.policy; format = w.format }) };
}

impl LineWriter {
    /// Returns a writer for lines with this font and policy, and for records in this format, which isn't
    /// prepared. This allocates no memory.
    pub fn new(alloc: Global, terms: &Terms, format: RecordFormat) -> Self
        ensures { result ≡ style_of terms.now format }
    {
        let rooms = Rooms {
            table: None,
            codes: EncodedLine::new(alloc),
            lists: Lists {
                items: Vec::new(alloc),
                texts: Vec::new(alloc),
            },
        };
        LineWriter {
            rooms,
            policy: terms.policy(),
            format,
            font: Snapshot::of(terms.font()),
        }
    }

    /// Prepares the writer for many lines: allocates a table of texts, 129 KB, unless it has one. The cells of the
    /// table are made when they are first needed. If the allocation fails, the lines are set in the general way, until
    /// a later call of this method succeeds.
    pub fn prepare(&mut self, terms: &Terms)
        requires { Fits self.old terms.now }
        ensures { self.new ≡ self.old }
    {
        if self.rooms.table.is_none() {
            let alloc = *self.rooms.lists.items.allocator();
            self.rooms.table = TextTable::new(alloc, terms, self.format).ok();
        }
    }

    /// Sets a line, and returns its result without its items. If an allocation fails, the error is returned, except
    /// for a line that is refused before it is set: this line has its refusal.
    pub fn result(
        &mut self,
        of: &RecordOf<'_>,
        line: SourceLine<'_>,
    ) -> Result<LineResult, OutOfMemory>
        requires { Fits self.old of.now.terms.now }
        ensures kept { self.new ≡ self.old }
        ensures result { IfOk result (IsResult
            (line_result of.now.terms.now of.now.encoding line.entry.first line.entry.bytes.now)) }
        ensures memory { OnErr result
            (refusal_in of.now.terms.now of.now.encoding line.entry.first line.entry.bytes.now ≡ None) }
    {
        match keep(&mut self.rooms, self.format, of, line)? {
            Ok(kept) => Ok(LineResult::Set(kept.sums)),
            Err(refusal) => Ok(LineResult::Refused(refusal)),
        }
    }

    /// Sets a line, and appends its record. Returns its result without its items. If an allocation fails, the error is
    /// returned, and a part of the record may be in `out`; but for a line that is refused before it is set this happens
    /// only if `out` has no room for its record.
    #[tactic(auto, using(crate::proofs::ResultLemmas::records))]
    pub fn append(
        &mut self,
        of: &RecordOf<'_>,
        line: SourceLine<'_>,
        out: &mut Vec<u8>,
    ) -> Result<LineResult, OutOfMemory>
        requires { Fits self.old of.now.terms.now }
        ensures kept { self.new ≡ self.old }
        ensures appended { OnOk result (out.new.items ≡ out.old.items
            ++ line_record of.now.terms.now of.now.encoding line.entry.first line.entry.bytes.now
            of.now.source line.entry.number self.old.format) }
        ensures result { IfOk result (IsResult
            (line_result of.now.terms.now of.now.encoding line.entry.first line.entry.bytes.now)) }
        ensures memory { OnErr result (vec_len out.old
            + length (line_record of.now.terms.now of.now.encoding line.entry.first line.entry.bytes.now
            of.now.source line.entry.number self.old.format) ≤ vec_capacity out.old
            → refusal_in of.now.terms.now of.now.encoding line.entry.first line.entry.bytes.now ≡ None) }
    {
        let number = RecordNumber {
            source: of.source,
            line: line.number,
        };
        let kept = match keep(&mut self.rooms, self.format, of, line)? {
            Ok(kept) => kept,
            Err(refusal) => {
                append_refusal(out, number, refusal, self.format.version())?;
                return Ok(LineResult::Refused(refusal));
            }
        };
        let texts = &self.rooms.lists.texts[..kept.length];
        match self.format {
            RecordFormat::Items(version) => {
                let set = SetText {
                    width: kept.sums.width,
                    steps: kept.sums.steps,
                    texts,
                };
                append_set(out, number, set, version)?;
            }
            RecordFormat::Box(unit) => {
                append_box(out, number, unit, kept, measure(of.terms.font(), texts))?;
            }
        }
        Ok(LineResult::Set(kept.sums))
    }
}
