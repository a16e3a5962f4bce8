//! A second look at what a font may not have: every condition in order, as the definition lists them, over the
//! words of the file alone. Of the crates it uses the names of the faults, and nothing that reads or computes.
use tfm_tables::{FontFault, Part};
use tfm_words::Count::{Bc, Ec, Lf, Lh, Nd, Ne, Nh, Ni, Nk, Nl, Np, Nw};
use tfm_words::{Count, CountFault, DesignFault, Table};

const COUNTS: [Count; 12] = [Lf, Lh, Bc, Ec, Nw, Nh, Nd, Ni, Nl, Nk, Ne, Np];

/// The fault of the first condition that holds.
fn first<F: Copy>(conditions: &[(bool, F)]) -> Option<F> {
    for (holds, fault) in conditions {
        if *holds {
            return Some(*fault);
        }
    }
    None
}

/// A file whose counts are without fault, in its parts.
#[derive(Clone, Copy)]
struct Parts<'a> {
    bc: u16,
    design: [u8; 4],
    char_info: &'a [[u8; 4]],
    /// Widths, heights, depths and italic corrections.
    measures: [(Table, &'a [[u8; 4]]); 4],
    lig_kern: &'a [[u8; 4]],
    kern: &'a [[u8; 4]],
    param: &'a [[u8; 4]],
}

/// The next words of a file, as many as are left.
fn cut<'a>(words: &mut &'a [[u8; 4]], entries: u16) -> &'a [[u8; 4]] {
    let all = *words;
    let (front, rest) = all.split_at(usize::from(entries).min(all.len()));
    *words = rest;
    front
}

/// The counts of a file that is long enough for them.
fn counts_of(bytes: &[u8]) -> Option<[u16; 12]> {
    let pairs = bytes.as_chunks::<2>().0.first_chunk::<12>()?;
    Some(pairs.map(|pair| u16::from_be_bytes(pair)))
}

/// The first fault of the counts, in a file of this many bytes.
fn count_fault(counts: [u16; 12], bytes: usize) -> Option<CountFault> {
    let mut large = None;
    for (number, count) in counts.into_iter().zip(COUNTS) {
        large = large.or(first(&[(number >= 0x8000, CountFault::CountRange(count))]));
    }
    let [lf, lh, bc, ec, nw, nh, nd, ni, nl, nk, ne, np] = counts;
    let beyond = u32::from(bc) > u32::from(ec) + 1 || ec > 255;
    let mut length = 6 + u32::from(ec) + 1;
    for number in [lh, nw, nh, nd, ni, nl, nk, ne, np] {
        length = length.saturating_add(u32::from(number));
    }
    let has_length = length == u32::from(lf) + u32::from(bc);
    let need = 4 * usize::from(lf);
    large.or(first(&[
        (beyond, CountFault::CharRange),
        (lh < 2, CountFault::HeaderShort),
        (nw == 0, CountFault::EmptyTable(Table::Width)),
        (nh == 0, CountFault::EmptyTable(Table::Height)),
        (nd == 0, CountFault::EmptyTable(Table::Depth)),
        (ni == 0, CountFault::EmptyTable(Table::Italic)),
        (ne > 256, CountFault::TooManyRecipes),
        (!has_length, CountFault::LengthEquation),
        (bytes < need, CountFault::Truncated { need }),
    ]))
}

/// The parts of a file with these counts.
fn cut_all(bytes: &[u8], counts: [u16; 12]) -> Parts<'_> {
    let [_, lh, bc, ec, nw, nh, nd, ni, nl, nk, ne, np] = counts;
    let mut words = bytes.as_chunks().0;
    let _counts = cut(&mut words, 6);
    let header = cut(&mut words, lh);
    let char_info = cut(&mut words, ec.wrapping_add(1).wrapping_sub(bc));
    let measures = [
        (Table::Width, cut(&mut words, nw)),
        (Table::Height, cut(&mut words, nh)),
        (Table::Depth, cut(&mut words, nd)),
        (Table::Italic, cut(&mut words, ni)),
    ];
    let lig_kern = cut(&mut words, nl);
    let kern = cut(&mut words, nk);
    let _recipes = cut(&mut words, ne);
    Parts {
        bc,
        design: header.get(1).copied().unwrap_or_default(),
        char_info,
        measures,
        lig_kern,
        kern,
        param: cut(&mut words, np),
    }
}

impl Parts<'_> {
    /// The char_info word of a code, if it has one.
    fn info(&self, code: u8) -> Option<[u8; 4]> {
        let place = usize::from(code).checked_sub(usize::from(self.bc))?;
        self.char_info.get(place).copied()
    }

    fn exists(&self, code: u8) -> bool {
        self.info(code).is_some_and(|info| info[0] != 0)
    }

    fn is_right_boundary(&self, code: u8) -> bool {
        matches!(self.lig_kern, [[255, next, _, _], ..] if *next == code)
    }

    /// The design size: negative numbers have the highest bit, and 1.0 is 00 10 00 00.
    fn design_fault(&self) -> Option<FontFault> {
        let units = u32::from_be_bytes(self.design);
        let below_one = units >= 0x8000_0000 || units < 0x0010_0000;
        first(&[(below_one, FontFault::Design(DesignFault::DesignSize))])
    }

    fn index_fault(&self) -> Option<FontFault> {
        let mut found = None;
        for (code, info) in (self.bc..=255).zip(self.char_info) {
            let [_, code] = code.to_be_bytes();
            let [width, height_depth, italic_tag, _] = *info;
            let indices = [width, height_depth >> 4, height_depth & 15, italic_tag >> 2];
            for (index, (table, entries)) in indices.into_iter().zip(self.measures) {
                let beyond = usize::from(index) >= entries.len();
                found = found.or(first(&[(beyond, FontFault::CharIndex { code, table })]));
            }
        }
        found
    }

    fn start_fault(&self) -> Option<FontFault> {
        let mut found = None;
        for (code, info) in (self.bc..=255).zip(self.char_info) {
            let [_, code] = code.to_be_bytes();
            let [_, _, italic_tag, remainder] = *info;
            let beyond = usize::from(remainder) >= self.lig_kern.len();
            let wrong = italic_tag & 3 == 1 && beyond;
            found = found.or(first(&[(wrong, FontFault::LigStart(code))]));
        }
        found
    }

    fn entry_fault(&self) -> Option<FontFault> {
        let mut found = None;
        for (table, entries) in self.measures {
            let is_zero = matches!(entries, [[0, 0, 0, 0], ..]);
            found = found.or(first(&[(!is_zero, FontFault::FirstNotZero(table))]));
        }
        for (table, entries) in self.measures {
            found = found.or(range_fault(table, 0, entries));
        }
        let parameters = self.param.get(1..).unwrap_or_default();
        found
            .or(range_fault(Table::Kern, 0, self.kern))
            .or(range_fault(Table::Param, 2, parameters))
    }

    fn program_fault(&self) -> Option<FontFault> {
        let mut found = None;
        for (index, word) in self.lig_kern.iter().enumerate() {
            found = found.or(self.step_fault(index, *word));
        }
        found
    }

    fn step_fault(&self, index: usize, word: [u8; 4]) -> Option<FontFault> {
        let [skip, next, op, remainder] = word;
        let end = self.lig_kern.len();
        let number = u16::from_be_bytes([op, remainder]);
        let is_known = self.exists(next) || self.is_right_boundary(next);
        let no_kern = usize::from(number & 0x7FFF) >= self.kern.len();
        let left = end.saturating_sub(index);
        let part = first(&[
            (skip > 128 && usize::from(number) >= end, Part::Restart),
            (skip <= 128 && !is_known, Part::Next),
            (
                skip <= 128 && op < 128 && !self.exists(remainder),
                Part::Ligature,
            ),
            (skip <= 128 && op >= 128 && no_kern, Part::Kern),
            (skip < 128 && left <= usize::from(skip) + 1, Part::Skip),
        ])?;
        Some(FontFault::Step { index, part })
    }
}

/// The first entry of a table that is too large or too small; the first of these entries has this number.
fn range_fault(table: Table, number: usize, entries: &[[u8; 4]]) -> Option<FontFault> {
    for (place, [a, _, _, _]) in entries.iter().enumerate() {
        if *a != 0 && *a != 255 {
            let index = number.saturating_add(place);
            return Some(FontFault::FixWordRange { table, index });
        }
    }
    None
}

/// The fault of a file, found the slow way.
pub fn slow_fault(bytes: &[u8]) -> Option<FontFault> {
    let Some(counts) = counts_of(bytes) else {
        return Some(FontFault::Counts(CountFault::Truncated { need: 24 }));
    };
    if let Some(fault) = count_fault(counts, bytes.len()) {
        return Some(FontFault::Counts(fault));
    }
    let parts = cut_all(bytes, counts);
    parts
        .design_fault()
        .or(parts.index_fault())
        .or(parts.start_fault())
        .or(parts.entry_fault())
        .or(parts.program_fault())
}
