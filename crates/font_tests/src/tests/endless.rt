//! The search for a pair for which the program never ends, compared with a slow one over small programs: with each op
//! code, for each of both neighbours and both boundaries.
use super::same;
use check_texts::endless_pair;
use std::process::Abort;
use test_support::fonts::{A, B, BACK, C, Info, PLAIN, Sample, boundary, last};
use test_support::terms;
use tfm_tables::{Font, Step};

/// The right boundary character, which the fonts don't have.
const RIGHT: u8 = 124;

/// The ligature operations of The METAFONTbook, Appendix F: the op code, whether the left and the right neighbour are
/// kept, and how many elements the cursor passes over.
const OPERATIONS: [(u8, bool, bool, usize); 8] = [
    (0, false, false, 0),
    (1, false, true, 0),
    (2, true, false, 0),
    (3, true, true, 0),
    (5, false, true, 1),
    (6, true, false, 1),
    (7, true, true, 1),
    (11, true, true, 2),
];

/// What a program does before each right neighbour: an op code and the number of a character. Neighbours are numbered
/// from 0: the characters a, b and c, and the boundary.
type Row = [Option<(u8, usize)>; 4];

/// For each pair of neighbours, the element to the left of the cursor once it has passed the right one, as far as this
/// is known.
type Values = [[Option<usize>; 4]; 4];

/// An element of a table, or `None`.
fn at<T: Copy>(table: &[[Option<T>; 4]; 4], left: usize, right: usize) -> Option<T> {
    *table.get(left)?.get(right)?
}

/// The operation of an op code below 128; one that isn't listed is that of the code 0.
fn operation(op: u8) -> (bool, bool, usize) {
    for (listed, keep_left, keep_right, pass) in OPERATIONS {
        if listed == op {
            return (keep_left, keep_right, pass);
        }
    }
    (false, false, 0)
}

/// The value of a pair, if those of the pairs that it needs are known: the elements that take the place of the pair are
/// passed one after the other, and the cursor begins at the first one or further on.
fn value(rows: &[Row; 4], values: &Values, left: usize, right: usize) -> Option<usize> {
    let Some((op @ 0..=127, inserted)) = at(rows, left, right) else {
        return Some(right);
    };
    let (keep_left, keep_right, mut pass) = operation(op);
    let mut before = None;
    for (is_there, element) in [(keep_left, left), (true, inserted), (keep_right, right)] {
        if !is_there {
            continue;
        }
        if pass > 0 {
            pass -= 1;
            continue;
        }
        before = Some(match before {
            Some(before) => at(values, before, element)?,
            None => element,
        });
    }
    before
}

/// The values of the pairs for which the program ends: with each round those that need only values of earlier rounds,
/// as many rounds as there are pairs.
fn slow_values(rows: &[Row; 4]) -> Values {
    let mut values = [[None; 4]; 4];
    for _round in 0..16 {
        let known = values;
        for (left, row) in values.iter_mut().enumerate() {
            for (right, entry) in row.iter_mut().enumerate() {
                *entry = value(rows, &known, left, right);
            }
        }
    }
    values
}

/// The code of a neighbour.
fn code_of(neighbour: usize) -> u8 {
    match neighbour {
        0 => 97,
        1 => 98,
        2 => 99,
        _ => RIGHT,
    }
}

/// Appends the instructions of a row. Returns the address of the first one, if there is one.
fn push_row<R: Abort>(rt: &R, program: &mut Vec<Step>, row: &Row) -> Option<u8> {
    let start = program.len();
    for (right, entry) in row.iter().enumerate() {
        if let Some((op, inserted)) = *entry {
            let step = Step {
                skip: 0,
                next: code_of(right),
                op,
                remainder: if op < 128 { code_of(inserted) } else { 0 },
            };
            program.push(step).expect(rt, "memory");
        }
    }
    if program.len() == start {
        return None;
    }
    if let Some(step) = program.last_mut() {
        *step = last(*step);
    }
    u8::try_from(start).ok()
}

/// A character with a program at an address, or without one.
fn with_start(info: Info, start: Option<u8>) -> Info {
    match start {
        Some(remainder) => Info {
            tag: 1,
            remainder,
            ..info
        },
        None => info,
    }
}

/// The font with these characters and this program.
fn with_program<'a>(characters: &'a [Info], program: &'a [Step]) -> Sample<'a> {
    Sample {
        characters,
        program,
        kerns: &[BACK],
        ..PLAIN
    }
}

/// The font with the characters a, b and c and these rows of its characters and of the left boundary.
fn font_of<R: Abort + AllocGlobal>(rt: &R, rows: &[Row; 4]) -> Font {
    let mut program = Vec::new(rt.alloc());
    program.push(boundary(RIGHT, 0)).expect(rt, "memory");
    let [of_a, of_b, of_c, of_boundary] = rows;
    let a = push_row(rt, &mut program, of_a);
    let b = push_row(rt, &mut program, of_b);
    let c = push_row(rt, &mut program, of_c);
    if let Some(address) = push_row(rt, &mut program, of_boundary) {
        program.push(boundary(RIGHT, address)).expect(rt, "memory");
    }
    let characters = [with_start(A, a), with_start(B, b), with_start(C, c)];
    let file = with_program(&characters, &program).file(rt.alloc());
    terms::font_of(rt.alloc(), file).expect(rt, "a font")
}

/// Numbers that look random.
#[derive(Drop)]
struct Numbers(u64);

impl Numbers {
    /// The next number below `bound`.
    fn below(&mut self, bound: u64) -> u64 {
        self.0 = self
            .0
            .wrapping_mul(0x5851_F42D_4C95_7F2D)
            .wrapping_add(0x1405_7B7E_F767_814F);
        (self.0 >> 33) % bound.max(1)
    }

    /// The entry of a pair: nothing, a kern, or an op code from 0 to 13.
    fn entry(&mut self) -> Option<(u8, usize)> {
        let inserted = self.below(3) as usize;
        match self.below(16) {
            14 => Some((128, 0)),
            15 => None,
            op => Some((u8::try_from(op).unwrap_or(0), inserted)),
        }
    }
}

/// The search finds a pair exactly if the slow one does, and then one of those that the slow one finds.
fn is_found<R: Abort + AllocGlobal>(rt: &R, rows: &[Row; 4]) -> bool {
    let font = font_of(rt, rows);
    let found = endless_pair(rt.alloc(), &font).expect(rt, "memory");
    let values = slow_values(rows);
    let (mut is_endless, mut is_one) = (false, false);
    for left in 0..4usize {
        for right in 0..4usize {
            if at(&values, left, right).is_none() {
                is_endless = true;
                let code = if left < 3 { Some(code_of(left)) } else { None };
                is_one |= found == Some((code, code_of(right)));
            }
        }
    }
    let wanted = (is_endless, is_endless);
    same(rt, &(found.is_some(), is_one), &wanted, &(rows, found));
    is_endless
}

/// For each op code three programs: a before a needs the value of a before c, which this op code has, and then that of
/// this value before a, which leads back or ends. The variants are what happens to b before c and to a before b, and
/// which of the characters leads back. Any two kinds of operations differ in one of them.
static VARIANTS: [(Option<(u8, usize)>, Option<(u8, usize)>, usize); 3] = [
    (None, Some((0, 0)), 2),
    (Some((0, 1)), None, 2),
    (None, None, 1),
];

/// The rows of an op code and a variant.
fn rows_of(
    op: u8,
    (b_c, a_b, back): (Option<(u8, usize)>, Option<(u8, usize)>, usize),
) -> [Row; 4] {
    let leads_back = |code| if code == back { Some((1, 0)) } else { None };
    [
        [Some((3, 2)), a_b, Some((op, 1)), None],
        [leads_back(1), None, b_c, None],
        [leads_back(2), None, None, None],
        [None; 4],
    ]
}

#[test]
fn each_op_code_passes_its_value_on(rt: HostRuntime) {
    let mut endless = 0u32;
    for op in &[0, 1, 2, 3, 4, 5, 6, 7, 11, 12, 128] {
        for variant in &VARIANTS {
            let is_endless = is_found(&rt, &rows_of(*op, *variant));
            endless = endless.saturating_add(u32::from(is_endless));
        }
    }
    same(&rt, &(endless > 5 && endless < 28), &true, &endless);
}

/// Programs that never end at a boundary alone: at the left one before a and b, and at the right one after them.
static AT_BOUNDARIES: [[Row; 4]; 2] = [
    [
        [None; 4],
        [None; 4],
        [None; 4],
        [Some((2, 1)), Some((2, 0)), None, None],
    ],
    [
        [None, None, None, Some((1, 1))],
        [None, None, None, Some((1, 0))],
        [None; 4],
        [None; 4],
    ],
];

/// Rows of which each entry looks random.
fn random_rows(numbers: &mut Numbers) -> [Row; 4] {
    let mut rows = [[None; 4]; 4];
    for row in &mut rows {
        for entry in row {
            *entry = numbers.entry();
        }
    }
    // The two boundaries are never neighbours.
    rows[3][3] = None;
    rows
}

#[test]
fn a_pair_is_found_if_a_slow_search_finds_one(rt: HostRuntime) {
    for rows in &AT_BOUNDARIES {
        same(&rt, &is_found(&rt, rows), &true, rows);
    }
    let mut numbers = Numbers(1);
    let (mut endless, fonts) = (0u32, 40u32);
    for _font in 0..fonts {
        let rows = random_rows(&mut numbers);
        endless = endless.saturating_add(u32::from(is_found(&rt, &rows)));
    }
    same(&rt, &(endless > 5 && endless < fonts), &true, &endless);
}
