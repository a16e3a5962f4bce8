ghost use Rattle.std.specs.Prelude.{◌≡◌, IfOk, IfErr, IfSome, Some, true};
ghost use Rattle.tfm_words.specs.declared.table.Table.TheVariants.{Width};
ghost use Rattle.tfm_tables.specs.Font.{IsFontOf, IsRefusalOf};
ghost use Rattle.tfm_tables.specs.Character.{AreScaled, char_info_of, character_width_of, exists as exists_in, metrics_of, width_index};
ghost use Rattle.tfm_tables.specs.Measure.{scaled_entry};
ghost use Rattle.tfm_tables.specs.Program.{IsServing, address_between};
ghost use Rattle.tfm_tables.specs.Decoded.{characters_of, starts_of};

use crate::pairs::PairTable;
use crate::{FontFault, FontMetrics, LeftSide, Metrics};
use std::alloc::{AllocError, Global};
use std::marker::Model;
use std::ops::Deref;
use tfm_words::Size;

/// An accepted font, at the size that it was read at: its metrics, and a table of pairs and a table of
/// characters, which setting lines needs. A font has all methods of its metrics. In contracts it is its words,
/// which are the first `4 * lf` bytes of the file, and that size.
#[derive(Drop)]
pub struct Font {
    metrics: FontMetrics,
    pairs: PairTable,
    characters: Vec<Option<Metrics>>,
}

impl Model for Font {
    ghost use Rattle.tfm_tables.specs.Font.{FontValue};

    ghost Value = { FontValue };

    ghost view = { λ f. f.metrics };

    ghost use Rattle.tfm_tables.specs.SettingTables.{HasSettingTables};

    ghost invariant = { HasSettingTables };
}

impl Font {
    /// Reads the font in the bytes of a TFM file, at `size`, or at the design size if `size` is
    /// `None`. The design size is checked in both cases; bytes after the `lf` words of the file are
    /// ignored. The error is the first font error of the file in the order of `FontFault`; it is
    /// `OutOfMemory` only if the file has no font error and an allocation failed (tex.web, sections
    /// 565 to 575).
    pub fn read(alloc: Global, bytes: &[u8], size: Option<Size>) -> Result<Font, FontFault>
        ensures ok { IfOk result (IsFontOf bytes.now size) }
        ensures fault { IfErr result (IsRefusalOf bytes.now) }
    {
        let metrics = match FontMetrics::read(alloc, bytes, size) {
            Ok(metrics) => metrics,
            Err(fault) => return Err(fault),
        };
        match Font::new(alloc, metrics) {
            Ok(font) => Ok(font),
            Err(_) => Err(FontFault::OutOfMemory),
        }
    }

    /// Returns the font with these metrics: computes the table of pairs and the table of characters. The
    /// error means that an allocation failed.
    pub fn new(alloc: Global, metrics: FontMetrics) -> Result<Font, AllocError>
        ensures { IfOk result (λ font. font ≡ metrics) }
    {
        let starts = starts(alloc, &metrics)?;
        let program = metrics.program(alloc)?;
        let pairs = PairTable::build(alloc, &program, &starts)?;
        let characters = characters(alloc, &metrics)?;
        Ok(Font {
            metrics,
            pairs,
            characters,
        })
    }

    /// Returns whether the font has a character with this code. A call is one lookup in a table.
    pub fn exists(&self, code: u8) -> bool
        ensures { result ≡ exists_in self.now.words code }
    {
        self.metrics(code).is_some()
    }

    /// Returns the dimensions of a character in sp, as `FontMetrics::metrics` does. A call is one lookup in a
    /// table.
    #[tactic(auto, using(crate::proofs::DecodedLemmas::characters, crate::proofs::ScaledLemmas::dimensions))]
    pub fn metrics(&self, code: u8) -> Option<Metrics>
        ensures value { result ≡ metrics_of self.now.words self.now.size code }
        ensures scaled { IfSome result (AreScaled self.now.words self.now.size code) }
    {
        self.characters[usize::from(code)]
    }

    /// Returns the width of a character in sp: the scaled value of its table entry, or 0 for a code
    /// without a character. A call is one lookup in a table.
    #[tactic(auto, using(crate::proofs::ScaledLemmas::dimensions))]
    pub fn width(&self, code: u8) -> i32
        ensures value { result ≡ character_width_of self.now.words self.now.size code }
        ensures scaled { exists_in self.now.words code ≡ true →
            scaled_entry self.now.words self.now.size Width (width_index (char_info_of self.now.words code)) ≡ Some result }
    {
        self.metrics(code).map_or(0, |metrics| metrics.width)
    }

    /// Returns the address of the match for a left side and the code to its right: the first
    /// instruction, in the chain of the left side's program, that is for this code and has a skip of
    /// at most 128. The address is below `steps`. Returns `None` if there is no such instruction,
    /// which includes a left side without a program and a code without a character. A call is one
    /// lookup in a table.
    #[tactic(auto, using(crate::proofs::ServingLemmas::served))]
    pub fn find(&self, left: LeftSide, code: u8) -> Option<usize>
        ensures value { result ≡ address_between self.now.words left code }
        ensures serving { IfSome result (IsServing self.now.words code) }
    {
        self.look_up(left, code)
    }

    /// Returns the result of `find`. For the proof: this contract states only the address, from which
    /// `find` derives the properties of the instruction there.
    fn look_up(&self, left: LeftSide, code: u8) -> Option<usize>
        ensures { result ≡ address_between self.now.words left code }
    {
        match left {
            LeftSide::Boundary => self.pairs.find(256, code),
            LeftSide::Char(left) => self.pairs.find(usize::from(left), code),
        }
    }
}

impl Deref for Font {
    type Target = FontMetrics;

    ghost deref_gives = { λ font metrics. metrics ≡ font };

    fn deref(&self) -> &FontMetrics {
        &self.metrics
    }
}

/// Returns the starting address of each left side: of the 256 codes, and then of the left boundary. The
/// error means that an allocation failed.
fn starts(alloc: Global, metrics: &FontMetrics) -> Result<Vec<Option<usize>>, AllocError>
    ensures { IfOk result (λ v. v.items ≡ starts_of metrics.now.words) }
{
    let mut starts = Vec::with_capacity(alloc, 257)?;
    for code in 0..256u16 {
        starts.push(metrics.start(LeftSide::Char(code as u8)))?;
    }
    starts.push(metrics.start(LeftSide::Boundary))?;
    Ok(starts)
}

/// Returns the dimensions of each code, or `None` for a code without a character. The error means that an
/// allocation failed.
#[tactic(auto, using(crate::proofs::DecodedLemmas::grown), unfolding(crate::specs::Decoded::characters_of))]
fn characters(alloc: Global, metrics: &FontMetrics) -> Result<Vec<Option<Metrics>>, AllocError>
    ensures { IfOk result (λ v. v.items ≡ characters_of metrics.now.words metrics.now.size) }
{
    let mut characters = Vec::with_capacity(alloc, 256)?;
    for code in 0..256u16 {
        characters.push(metrics.metrics(code as u8))?;
    }
    Ok(characters)
}
