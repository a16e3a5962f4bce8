//! What a font's program does between two neighbours.
use super::named::Named;
use super::named::Named::*;
use super::same;
use lig_kern::Symbol::{Char, Left, Right};
use lig_kern::{Action, Symbol, first_match};
use std::process::Abort;

const A: Symbol = Char(97);

const B: Symbol = Char(98);

const C: Symbol = Char(99);

const D: Symbol = Char(100);

const BACK: Option<Action> = Some(Action::Kern(-40_960));

const AHEAD: Option<Action> = Some(Action::Kern(20_480));

/// A font, two neighbours, and what is done between them.
type Row = (Named, Symbol, Symbol, Option<Action>);

static KERNS: [Row; 37] = [
    (Plain, A, B, None),
    (Plain, D, A, None),
    (Ligature(0), A, C, BACK),
    (Ligature(0), C, B, AHEAD),
    (Ligature(0), A, A, None),
    (Ligature(0), B, B, None),
    (TwoKerns, A, B, BACK),
    (TwoKerns, A, C, None),
    (Skipping, A, C, BACK),
    (Skipping, A, B, AHEAD),
    (Indirect, A, B, None),
    // the left boundary matches on the left alone
    (LeftBoundary, Left, A, BACK),
    (LeftBoundary, Left, C, None),
    (LeftBoundary, Left, Left, None),
    (LeftBoundary, Left, Right, None),
    (LeftBoundary, A, Left, None),
    (LeftBoundary, Right, A, None),
    (Ligature(0), Left, A, None),
    (Ligature(0), Left, B, None),
    (NoProgram, Left, Char(65), None),
    (NoProgram, Left, Right, None),
    // the right boundary matches on the right alone
    (RightBoundary, B, Right, AHEAD),
    (RightBoundary, A, B, BACK),
    (RightBoundary, C, Right, None),
    (RightBoundary, Left, Right, None),
    (RightBoundary, Right, B, None),
    (RightBoundary, Right, Right, None),
    (RightBoundary, B, Left, None),
    (BoundaryExists, A, Right, BACK),
    (BoundaryExists, A, B, BACK),
    (BoundaryExists, Right, B, None),
    (Ligature(0), A, Right, None),
    (Ligature(0), C, Right, None),
    (Ligature(0), Right, B, None),
    // the largest font
    (Largest, Left, Right, AHEAD),
    (Largest, Left, Char(65), AHEAD),
    (Largest, Left, Char(66), None),
];

/// This is done between these neighbours.
fn is_done<R: Abort + AllocGlobal>(rt: &R, (font, left, right, action): Row) {
    let found = first_match(&font.font(rt), left, right);
    same(rt, &found, &action, &(left, right, font));
}

#[test]
fn the_first_instruction_for_a_pair(rt: HostRuntime) {
    for row in &KERNS {
        is_done(&rt, *row);
    }
}

/// A font, two neighbours, and the ligature between them: the inserted code, whether the left and the right
/// neighbour are kept, and how many elements are passed.
type Inserted = (Named, Symbol, Symbol, u8, (bool, bool), u8);

static LIGATURES: [Inserted; 10] = [
    (Ligature(0), A, B, 99, (false, false), 0),
    (Ligature(1), A, B, 99, (false, true), 0),
    (Ligature(2), A, B, 99, (true, false), 0),
    (Ligature(3), A, B, 99, (true, true), 0),
    (Ligature(5), A, B, 99, (false, true), 1),
    (Ligature(6), A, B, 99, (true, false), 1),
    (Ligature(7), A, B, 99, (true, true), 1),
    (Ligature(11), A, B, 99, (true, true), 2),
    (LeftBoundary, Left, B, 99, (true, true), 0),
    (RightBoundary, A, Right, 98, (true, false), 0),
];

/// The font has this ligature between these neighbours.
fn inserts<R: Abort + AllocGlobal>(rt: &R, row: Inserted) {
    let (font, left, right, code, (keep_left, keep_right), pass) = row;
    let wanted = Some(Action::Lig {
        code,
        keep_left,
        keep_right,
        pass,
    });
    is_done(rt, (font, left, right, wanted));
}

/// A code that isn't listed does what code 0 does.
#[test]
fn each_operation_has_its_flags(rt: HostRuntime) {
    for row in &LIGATURES {
        inserts(&rt, *row);
    }
    for op in 0..128 {
        if !matches!(op, 0..=3 | 5..=7 | 11) {
            inserts(&rt, (Ligature(op), A, B, 99, (false, false), 0));
        }
    }
}
