ghost use Rattle.std.specs.Prelude.{◌≡◌, ◌-◌, ◌<◌, ◌≤◌, ◌^◌, length, IfOk, IfErr, IfSome, Ok, Some, true};
ghost use Rattle.tfm_words.specs.Counts.{AreCountsOf};
ghost use Rattle.tfm_words.specs.DesignSize.{design_size_of};
ghost use Rattle.tfm_words.specs.declared.table.Table.TheVariants.{Width, LigKern, Kern, Exten, Param};
ghost use Rattle.tfm_tables.specs.Table.{entries_of, entry_at};
ghost use Rattle.tfm_tables.specs.Font.{IsFontOf, IsRefusalOf};
ghost use Rattle.tfm_tables.specs.Character.{AreScaled, char_info_of, character_width_of, exists as exists_in, info_where, metrics_of, tag_of, width_index};
ghost use Rattle.tfm_tables.specs.Measure.{kern_at, parameter_of, scaled_entry};
ghost use Rattle.tfm_tables.specs.Program.{begin_at, left_start_of, program_of, right_code_of, start_of, step_at as step_at_address};
ghost use Rattle.tfm_tables.specs.Sound.{HasSoundTables, IsSoundStep};

use crate::checks::check_tables;
use crate::tables::Tables;
use crate::{FontFault, LeftSide, Metrics, Step, Tag};
use std::alloc::{AllocError, Global};
use std::marker::Model;
use tfm_words::{Counts, FixWord, Size, Table, design_size};

/// The metrics of an accepted font, at the size that they were read at, without the tables that `Font` adds
/// for setting lines. Each call reads the entries that it needs from the words of the TFM file, and scales
/// them. In contracts the metrics are the words of the font, which are the first `4 * lf` bytes of the file,
/// and that size.
#[derive(Debug, Drop)]
pub struct FontMetrics {
    words: Vec<u8>,
    counts: Counts,
    size: Size,
    design: Size,
}

impl Model for FontMetrics {
    ghost use Rattle.tfm_tables.specs.Font.{FontValue};

    ghost Value = { FontValue };

    ghost view = { λ f. record { words = f.words.items; size = f.size } };

    ghost use Rattle.tfm_tables.specs.Inside.{HasAcceptedWords};

    ghost invariant = { HasAcceptedWords };
}

impl FontMetrics {
    /// Reads the metrics in the bytes of a TFM file, at `size`, or at the design size if `size` is
    /// `None`. The design size is checked in both cases; bytes after the `lf` words of the file are
    /// ignored. The error is the first font error of the file in the order of `FontFault`; it is
    /// `OutOfMemory` only if the file has no font error and an allocation failed (tex.web, sections
    /// 565 to 575).
    pub fn read(alloc: Global, bytes: &[u8], size: Option<Size>) -> Result<FontMetrics, FontFault>
        ensures ok { IfOk result (IsFontOf bytes.now size) }
        ensures fault { IfErr result (IsRefusalOf bytes.now) }
    {
        let counts = match Counts::read(bytes) {
            Ok(counts) => counts,
            Err(fault) => return Err(FontFault::Counts(fault)),
        };
        let words = &bytes[..4 * usize::from(counts.lf())];
        let design = match design_size(words, &counts) {
            Ok(design) => design,
            Err(fault) => return Err(FontFault::Design(fault)),
        };
        let tables = Tables {
            words,
            counts: &counts,
        };
        if let Err(fault) = check_tables(tables) {
            return Err(fault);
        }
        let Ok(words) = Vec::from_slice(alloc, words) else {
            return Err(FontFault::OutOfMemory);
        };
        Ok(FontMetrics {
            words,
            counts,
            size: size.unwrap_or(design),
            design,
        })
    }

    /// Returns the tables. For the proof: `sound` is a property of the words that the invariant states.
    pub(crate) fn tables(&self) -> Tables<'_>
        ensures words { result.words.now ≡ self.now.words }
        ensures sound { HasSoundTables self.now.words }
    {
        Tables {
            words: &self.words,
            counts: &self.counts,
        }
    }

    /// Returns the words of the font: the first `4 * lf` bytes of its file.
    pub fn words(&self) -> &[u8]
        ensures { result.now ≡ self.now.words }
    {
        &self.words
    }

    /// Returns the counts of the font.
    pub fn counts(&self) -> &Counts
        ensures { AreCountsOf self.now.words result.now }
    {
        &self.counts
    }

    /// Returns whether the font has a character with this code.
    pub fn exists(&self, code: u8) -> bool
        ensures { result ≡ exists_in self.now.words code }
    {
        self.tables().exists(code)
    }

    /// Returns the char_info word of a code, or `None` if the code isn't from `bc` to `ec`.
    pub fn char_info(&self, code: u8) -> Option<[u8; 4]>
        ensures { result ≡ info_where self.now.words code }
    {
        self.tables().info(code)
    }

    /// Returns the dimensions of a character in sp, or `None` if it doesn't exist. Each dimension is
    /// the scaled value of its table entry, and no 0 takes the place of an entry that can't be
    /// scaled: the tables of an accepted font have no such entry.
    #[tactic(auto, using(crate::proofs::ScaledLemmas::dimensions, crate::proofs::SoundLemmas::coded))]
    pub fn metrics(&self, code: u8) -> Option<Metrics>
        ensures value { result ≡ metrics_of self.now.words self.now.size code }
        ensures scaled { IfSome result (AreScaled self.now.words self.now.size code) }
    {
        let (tables, size) = (self.tables(), self.size);
        let [width, height_depth, italic_tag, _] = tables.character(code)?;
        let (height, depth) = (height_depth / 16, height_depth % 16);
        let italic = italic_tag / 4;
        Some(Metrics {
            width: tables.measure(size, Table::Width, usize::from(width)),
            height: tables.measure(size, Table::Height, usize::from(height)),
            depth: tables.measure(size, Table::Depth, usize::from(depth)),
            italic: tables.measure(size, Table::Italic, usize::from(italic)),
        })
    }

    /// Returns the width of a character in sp: the scaled value of its table entry, or 0 for a code
    /// without a character.
    #[tactic(auto, using(crate::proofs::ScaledLemmas::dimensions, crate::proofs::SoundLemmas::coded))]
    pub fn width(&self, code: u8) -> i32
        ensures value { result ≡ character_width_of self.now.words self.now.size code }
        ensures scaled { exists_in self.now.words code ≡ true →
            scaled_entry self.now.words self.now.size Width (width_index (char_info_of self.now.words code)) ≡ Some result }
    {
        let tables = self.tables();
        let Some(info) = tables.character(code) else {
            return 0;
        };
        tables.measure(self.size, Table::Width, usize::from(info[0]))
    }

    /// Returns the tag of a character, or `None` if it doesn't exist.
    pub fn tag(&self, code: u8) -> Option<Tag>
        ensures { result ≡ tag_of self.now.words code }
    {
        let [_, _, italic_tag, remainder] = self.tables().character(code)?;
        Some(match italic_tag % 4 {
            0 => Tag::Plain,
            1 => Tag::Lig(remainder),
            2 => Tag::List(remainder),
            _ => Tag::Ext(remainder),
        })
    }

    /// Returns the starting address of a left side's program. For a character it is the address after
    /// an indirect start, which redirects once; for the left boundary it is the address to which the
    /// last instruction points, without another redirection. The address is below `steps`. Returns
    /// `None` for a left side without a program, and for a code without a character.
    pub fn start(&self, left: LeftSide) -> Option<usize>
        ensures value { result ≡ start_of self.now.words left }
        ensures within { IfSome result (λ start. start < entries_of self.now.words LigKern) }
    {
        // For the proof: the invariant states that the tables are sound.
        let _ = &self.words;
        self.address(left)
    }

    /// Returns the result of `start`. For the proof: `start` derives from it that the address is below `steps`.
    #[tactic(auto, unfolding(crate::specs::Program::start_of))]
    fn address(&self, left: LeftSide) -> Option<usize>
        ensures { result ≡ start_of self.now.words left }
    {
        match left {
            LeftSide::Boundary => self.left_start(),
            LeftSide::Char(code) => match self.tag(code) {
                Some(Tag::Lig(first)) => Some(self.begin(usize::from(first))),
                _ => None,
            },
        }
    }

    /// Returns the starting address of the left boundary's program, which the last instruction may specify.
    #[tactic(auto, using(crate::proofs::ProgramLemmas::instructions), unfolding(crate::specs::Program::left_start_of))]
    fn left_start(&self) -> Option<usize>
        ensures { result ≡ left_start_of (program_of self.now.words) }
    {
        let last = self.steps().checked_sub(1)?;
        let step = self.step(last);
        if step.skip == 255 {
            Some(step.target())
        } else {
            None
        }
    }

    /// Returns the starting address of the program of a character whose tag refers to the address `first`.
    #[tactic(auto, using(crate::proofs::ProgramLemmas::instructions), unfolding(crate::specs::Program::begin_at))]
    fn begin(&self, first: usize) -> usize
        ensures { result ≡ begin_at (program_of self.now.words) first }
    {
        if first >= self.steps() {
            return first;
        }
        let step = self.step(first);
        if step.skip > 128 {
            step.target()
        } else {
            first
        }
    }

    /// Returns the number of instructions, which is below 2^15 as every count of a file is.
    #[tactic(auto, using(crate::proofs::DecodedLemmas::sized))]
    pub fn steps(&self) -> usize
        ensures value { result ≡ entries_of self.now.words LigKern }
        ensures few { result ≤ 2 ^ 15 }
    {
        usize::from(self.counts.nl())
    }

    /// Returns the instruction at address `i`, which must be below `steps`. All that it refers to
    /// exists: with a skip above 128 the instruction to which it points; otherwise the character or
    /// the kern that it inserts, and, with a skip below 128, the instruction at which the search goes
    /// on. With a skip of at most 128 its code on the right is that of a character of the font or of
    /// the right boundary character, which needn't be a character of the font.
    #[tactic(auto, using(crate::proofs::ProgramLemmas::reads))]
    pub fn step(&self, i: usize) -> Step
        requires { i < entries_of self.now.words LigKern }
        ensures value { result ≡ step_at_address self.now.words i }
        ensures sound { IsSoundStep self.now.words i result }
    {
        self.tables().step(i)
    }

    /// Returns the lig/kern program: its instructions, by address. The error means that an allocation failed.
    /// For the proof: `few` and `sound` are properties of the words that the invariant of `Font` states again.
    #[tactic(auto, using(crate::proofs::DecodedLemmas::sized, crate::proofs::DecodedLemmas::grown), unfolding(crate::specs::Program::program_of))]
    pub(crate) fn program(&self, alloc: Global) -> Result<Vec<Step>, AllocError>
        ensures instructions { IfOk result (λ program. program.items ≡ program_of self.now.words) }
        ensures few { length (program_of self.now.words) ≤ 2 ^ 15 }
        ensures sound { HasSoundTables self.now.words }
    {
        let tables = self.tables();
        let mut steps = Vec::with_capacity(alloc, self.steps())?;
        for i in 0..self.steps() {
            steps.push(tables.step(i))?;
        }
        Ok(steps)
    }

    /// Returns the code of the right boundary character, or `None` if the font doesn't specify one. The
    /// font needn't have a character with this code.
    pub fn right_boundary(&self) -> Option<u8>
        ensures { result ≡ right_code_of (program_of self.now.words) }
    {
        self.tables().right_code()
    }

    /// Returns the number of kerns, which is below 2^15.
    #[tactic(auto, using(crate::proofs::DecodedLemmas::sized))]
    pub fn kerns(&self) -> usize
        ensures value { result ≡ entries_of self.now.words Kern }
        ensures few { result ≤ 2 ^ 15 }
    {
        usize::from(self.counts.nk())
    }

    /// Returns kern `k`, from 0, in sp; `k` must be below `kerns`. The kern is the scaled value of
    /// its table entry, and no 0 takes the place of an entry that can't be scaled.
    #[tactic(auto, unfolding(crate::specs::Measure::kern_at))]
    pub fn kern(&self, k: usize) -> i32
        requires { k < entries_of self.now.words Kern }
        ensures value { result ≡ kern_at self.now.words self.now.size k }
        ensures scaled { scaled_entry self.now.words self.now.size Kern k ≡ Some result }
    {
        self.tables().measure(self.size, Table::Kern, k)
    }

    /// Returns the number of extensible recipes: at most 256.
    pub fn recipes(&self) -> usize
        ensures value { result ≡ entries_of self.now.words Exten }
        ensures few { result ≤ 256 }
    {
        usize::from(self.counts.ne())
    }

    /// Returns extensible recipe `i`, from 0, which must be below `recipes`: the codes of its top, middle and
    /// bottom piece, and of the one that is repeated (tftopl.web, section 14).
    pub fn recipe(&self, i: usize) -> [u8; 4]
        requires { i < entries_of self.now.words Exten }
        ensures { result ≡ entry_at self.now.words Exten i }
    {
        self.tables().entry(Table::Exten, i)
    }

    /// Returns the number of parameters.
    pub fn params(&self) -> usize
        ensures { result ≡ entries_of self.now.words Param }
    {
        usize::from(self.counts.np())
    }

    /// Returns parameter `number`, counted from 1, or 0 if the font has no parameter with this number.
    /// Parameter 1, the slant, is a plain number in units of 2^-20; every other parameter is the scaled
    /// value of its table entry, in sp.
    #[tactic(auto, using(crate::proofs::DecodedLemmas::parameters), unfolding(crate::specs::Measure::parameter_of))]
    pub fn param(&self, number: usize) -> i32
        ensures value { result ≡ parameter_of self.now.words self.now.size number }
        ensures scaled { 2 ≤ number → number ≤ entries_of self.now.words Param →
            scaled_entry self.now.words self.now.size Param (number - 1) ≡ Some result }
    {
        if number == 0 || number > self.params() {
            return 0;
        }
        let tables = self.tables();
        if number == 1 {
            FixWord::of(tables.entry(Table::Param, 0)).0
        } else {
            tables.measure(self.size, Table::Param, number - 1)
        }
    }

    /// Returns the width of a space in sp: parameter 2, or 0 if the font has no parameter 2.
    pub fn space(&self) -> i32
        ensures value { result ≡ parameter_of self.now.words self.now.size 2 }
        ensures scaled { 2 ≤ entries_of self.now.words Param →
            scaled_entry self.now.words self.now.size Param 1 ≡ Some result }
    {
        self.param(2)
    }

    /// Returns the size that the font was read at.
    pub fn size(&self) -> Size
        ensures { result ≡ self.now.size }
    {
        self.size
    }

    /// Returns the design size of the font.
    pub fn design(&self) -> Size
        ensures { design_size_of self.now.words ≡ Ok result }
    {
        self.design
    }
}
