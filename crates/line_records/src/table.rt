//! The table of texts of a font. A cell is made when it is first needed.
ghost use Rattle.std.specs.Prelude.{◌≡◌, ◌<◌, IfOk};
ghost use Rattle.line_records.specs.Cells.{Fits, style_of};

use crate::RecordFormat;
use crate::cells::{UNKNOWN, make_cell};
use crate::text_entry::TextEntry;
use set_line::{Policy, Terms};
use std::alloc::{AllocError, Global};
use std::marker::Model;
use std::snapshot::Snapshot;
use tfm_tables::Font;

/// The number of cells: 257 columns, for the bytes and for the end of a line, of 256 rows.
const CELLS: usize = 65_792;

/// The table of texts of a font, for a missing-character policy and a record format.
#[derive(Drop)]
pub(crate) struct TextTable {
    /// The cells, column by column.
    pub cells: Vec<u16>,
    /// The entries whose indices are in cells.
    pub entries: Vec<TextEntry>,
    policy: Policy,
    pub format: RecordFormat,
    /// For the proof: the font.
    font: Snapshot<Font>,
}

impl Model for TextTable {
    ghost use Rattle.line_records.specs.Cells.{AreCells, Style};

    ghost Value = { Style };

    ghost view = { λ t. record { font = t.font.value; policy = t.policy; format = t.format } };

    ghost invariant = { λ t.
        AreCells (record { font = t.font.value; policy = t.policy; format = t.format }) t.entries.items t.cells.items };
}

impl TextTable {
    /// Returns the table of a font, in which no cell is made yet. Fails if an allocation fails.
    #[tactic(auto, using(crate::proofs::CellLemmas::tables))]
    pub fn new(alloc: Global, terms: &Terms, format: RecordFormat) -> Result<Self, AllocError>
        ensures { IfOk result (λ table. table ≡ style_of terms.now format) }
    {
        let mut cells = Vec::new(alloc);
        cells.resize(CELLS, UNKNOWN as u16)?;
        Ok(TextTable {
            cells,
            entries: Vec::new(alloc),
            policy: terms.policy(),
            format,
            font: Snapshot::of(terms.font()),
        })
    }

    /// Makes the cell of a row for a byte, or for the end of the line, unless it is made already.
    #[tactic(auto, using(crate::proofs::CellLemmas::tables))]
    pub fn make(&mut self, terms: &Terms, row: usize, next: usize)
        requires fits { Fits self.old terms.now }
        requires row { row < 256 }
        requires next { next < 257 }
        ensures { self.new ≡ self.old }
    {
        let at = 256 * next + row;
        if usize::from(self.cells[at]) != UNKNOWN {
            return;
        }
        let cell = make_cell(terms, self.format, row as u8, next, &mut self.entries);
        self.cells[at] = cell as u16;
    }
}
