//! Prepared fonts: tables that are written, opened, cut and damaged, and the runs that they set.
use super::named::Named;
use super::named::Named::*;
use super::same;
use super::words::RUNS;
use lig_kern::{Ends, Item, Symbol, WordFont, first_match, set_run_of};
use prepared_font::{PreparedFont, prepare, table_length};
use std::process::Abort;
use test_support::items::{A, AHEAD, B, BACK, C};
use tfm_tables::Font;

/// A font, a run and whether it has each boundary, its steps and its items.
type Row = (Named, &'static str, bool, bool, u32, &'static [Item]);

static PARTS: [Row; 12] = [
    (Plain, "", false, false, 0, &[]),
    (Plain, "", true, true, 0, &[]),
    (RightBoundary, "", false, true, 0, &[]),
    (RightBoundary, "", true, true, 1, &[]),
    (Plain, "a", false, false, 0, &[A]),
    (Ligature(0), "ab", false, true, 1, &[C]),
    (Ligature(3), "ab", false, true, 3, &[A, BACK, C, AHEAD, B]),
    (LeftBoundary, "a", false, true, 0, &[A]),
    (LeftBoundary, "b", false, false, 0, &[B]),
    (RightBoundary, "a", false, true, 2, &[A, BACK, B]),
    (RightBoundary, "a", false, false, 0, &[A]),
    (Endless(11), "aa", false, true, 1, &[A, A, A]),
];

static FONTS: [Named; 16] = [
    Plain,
    NoSpace,
    NoParameters,
    Ligature(0),
    Ligature(7),
    TwoKerns,
    Skipping,
    ThreeKerns,
    Indirect,
    RightBoundary,
    BoundaryExists,
    LeftBoundary,
    NoProgram,
    Endless(11),
    Largest,
    Letters,
];

/// Returns the table of a font, in a room of exactly the length that it needs.
fn table_of<R: Abort + AllocGlobal>(rt: &R, font: &Font) -> Vec<u8> {
    let needed = table_length(font);
    let mut table = vec![in rt.alloc(); 0xA5; needed].expect(rt, "memory");
    let short = prepare(font, &mut table[1..]);
    let is_unchanged = table.iter().all(|byte| *byte == 0xA5);
    let found = (short, is_unchanged, prepare(font, &mut table));
    same(rt, &found, &(Err(needed), true, Ok(needed)), &needed);
    table
}

/// With one step less nothing is appended to the list, and with the steps just the items are.
fn sets<R: Abort + AllocGlobal, F: WordFont>(
    rt: &R,
    font: &F,
    (name, run, left, right, steps, items): Row,
) {
    let codes = run.as_bytes();
    let ends = Ends {
        offset: 0,
        left,
        hyphen: None,
        right,
    };
    let mut list: Vec<Item> = Vec::new(rt.alloc());
    let is_more = steps > 0
        && (set_run_of(font, codes, ends, steps - 1, &mut list).is_ok() || !list.is_empty());
    let set = set_run_of(font, codes, ends, steps, &mut list);
    let found = (is_more, set, list.as_slice());
    same(rt, &found, &(false, Ok(steps), items), &(run, name));
}

/// The run has its items with the font, and with its table.
fn sets_with_either<R: Abort + AllocGlobal>(rt: &R, row: Row) {
    let font = row.0.font(rt);
    sets(rt, &font, row);
    let table = table_of(rt, &font);
    let prepared = PreparedFont::open(&table).expect(rt, "a table");
    sets(rt, &prepared, row);
}

#[test]
fn runs_have_their_items_with_either_source(rt: HostRuntime) {
    for row in &PARTS {
        sets_with_either(&rt, *row);
    }
    for (name, run, _, steps, items) in &RUNS {
        sets_with_either(&rt, (*name, run, true, true, *steps, items));
    }
}

/// The left neighbours of the pairs that are compared.
static LEFTS: [Symbol; 5] = [
    Symbol::Left,
    Symbol::Char(97),
    Symbol::Char(98),
    Symbol::Char(228),
    Symbol::Right,
];

/// A table returns of two neighbours what the font does.
fn compares_pair<R: Abort>(
    rt: &R,
    font: &Font,
    prepared: &PreparedFont<'_>,
    (left, right): (Symbol, Symbol),
) {
    let found = prepared.action(left, right);
    same(rt, &found, &first_match(font, left, right), &(left, right));
}

/// A table returns of a code what the font does.
fn compares_code<R: Abort>(
    rt: &R,
    font: &Font,
    prepared: &PreparedFont<'_>,
    (name, code): (Named, u8),
) {
    let found = (prepared.exists(code), prepared.code_width(code));
    let wanted = (font.exists(code), font.width(code));
    same(rt, &found, &wanted, &(code, name));
}

/// A table returns what its font does.
fn has_data<R: Abort>(rt: &R, name: Named, font: &Font, prepared: &PreparedFont<'_>) {
    let found = (prepared.space(), prepared.size(), prepared.right_code());
    let wanted = (font.space(), font.size().get(), font.right_boundary());
    same(rt, &found, &wanted, &name);
    for code in 0..=255 {
        compares_code(rt, font, prepared, (name, code));
        for left in &LEFTS {
            compares_pair(rt, font, prepared, (*left, Symbol::Char(code)));
        }
    }
    for left in &LEFTS {
        compares_pair(rt, font, prepared, (*left, Symbol::Left));
        compares_pair(rt, font, prepared, (*left, Symbol::Right));
    }
}

/// The table of this font has its data.
fn has_table<R: Abort + AllocGlobal>(rt: &R, name: Named) {
    let font = name.font(rt);
    let table = table_of(rt, &font);
    let found = (table.len(), matches!(table.as_slice(), [0x80..=0xFF, ..]));
    let wanted = (2084 + 4 * font.steps() + 4 * font.kerns(), true);
    same(rt, &found, &wanted, &name);
    let prepared = PreparedFont::open(&table).expect(rt, "a table");
    has_data(rt, name, &font, &prepared);
}

#[test]
fn a_table_has_the_data_of_its_font(rt: HostRuntime) {
    for name in &FONTS {
        has_table(&rt, *name);
    }
}

/// A table is opened, or it isn't.
fn is_opened<R: Abort>(rt: &R, table: &[u8], wanted: bool, case: (&str, usize)) {
    let found = PreparedFont::open(table).is_some();
    same(rt, &found, &wanted, &case);
}

fn flip(table: &mut [u8], at: usize) {
    if let Some(byte) = table.get_mut(at) {
        *byte ^= 1;
    }
}

/// A table is opened with a byte more, and not with one less or with another version.
fn is_opened_whole<R: Abort + AllocGlobal>(rt: &R, font: &Font) {
    let mut table = table_of(rt, font);
    for length in 0..table.len() {
        is_opened(rt, &table[..length], false, ("bytes", length));
    }
    table.push(0).expect(rt, "memory");
    is_opened(rt, &table, true, ("bytes", table.len()));
    for at in &[0, 3, 4, 7] {
        flip(&mut table, *at);
        is_opened(rt, &table, false, ("byte", *at));
        flip(&mut table, *at);
    }
}

#[test]
fn a_table_that_was_cut_or_is_of_another_version_is_not_opened(rt: HostRuntime) {
    is_opened_whole(&rt, &Ligature(0).font(&rt));
    let file = Ligature(0).file(rt.alloc()).expect(&rt, "memory");
    is_opened(&rt, &file, false, ("a font", file.len()));
}

/// The codes of runs, and whether they have each boundary.
static IN_DAMAGED: [(&[u8], bool, bool); 9] = [
    (b"", true, true),
    (b"", false, true),
    (b"", false, false),
    (b"abc", true, true),
    (b"abc", false, true),
    (b"abc", false, false),
    (b"aabbcc", true, true),
    (b"aabbcc", false, true),
    (b"aabbcc", false, false),
];

/// A run is set within 50 steps with at most two items a step and one more, or nothing is appended.
fn sets_some<R: Abort + AllocGlobal>(
    rt: &R,
    prepared: &PreparedFont<'_>,
    (codes, left, right): (&[u8], bool, bool),
) {
    let ends = Ends {
        offset: 0,
        left,
        hyphen: None,
        right,
    };
    let mut list: Vec<Item> = Vec::new(rt.alloc());
    let set = set_run_of(prepared, codes, ends, 50, &mut list);
    let most = match set {
        Ok(steps) => 2 * steps as usize + 1,
        Err(_) => 0,
    };
    same(rt, &(list.len() <= most), &true, &(codes, ends));
}

/// Reads everything of a table and sets runs with it, if it is opened. Returns whether it is.
fn reads_all<R: Abort + AllocGlobal>(rt: &R, table: &[u8]) -> bool {
    let Some(prepared) = PreparedFont::open(table) else {
        return false;
    };
    let _read = (prepared.space(), prepared.size());
    let _of_codes = (prepared.exists(97), prepared.code_width(98));
    for (codes, left, right) in &IN_DAMAGED {
        sets_some(rt, &prepared, (codes, *left, *right));
    }
    true
}

/// Each byte of a table is replaced by each of these.
fn reads_changed<R: Abort + AllocGlobal>(rt: &R, table: &mut [u8]) {
    for at in 0..table.len() {
        let before = table[at];
        for byte in &[0, 1, 0x7F, 0x80, 0xFF] {
            table[at] = *byte;
            let _opened = reads_all(rt, table);
        }
        table[at] = before;
    }
}

/// A table is filled with pseudo-random bytes after its header, a hundred times.
fn reads_random<R: Abort + AllocGlobal>(rt: &R, table: &mut [u8]) {
    let mut state: u32 = 1;
    for _ in 0..100 {
        for byte in table.iter_mut().skip(20) {
            state = state.wrapping_mul(1_664_525).wrapping_add(1_013_904_223);
            *byte = (state >> 24) as u8;
        }
        same(rt, &reads_all(rt, table), &true, &state);
    }
}

#[test]
fn damaged_tables_are_read(rt: HostRuntime) {
    let mut table = table_of(&rt, &RightBoundary.font(&rt));
    reads_changed(&rt, &mut table);
    reads_random(&rt, &mut table);
}
