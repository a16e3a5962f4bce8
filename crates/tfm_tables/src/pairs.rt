//! The table of pairs: for each left side and each code on its right, the address of the match in the
//! lig/kern program. It is computed once, when a font is read; a search is then one lookup.
ghost use Rattle.std.specs.Prelude.{◌≡◌, ℕ, ◌^◌, ◌<◌, ◌≤◌, ◌==◌, ◌&&◌, List, length, map, get_or, nat_le, Option, Some, None, IfOk, if◌then◌else◌};
ghost use Rattle.std.specs.List.{slice_get};
ghost use Rattle.std.specs.Option.{option_and_then, option_or};
ghost use Rattle.tfm_tables.specs.declared.step.Step.{Step as Instruction};
ghost use Rattle.tfm_tables.specs.Program.{address_of};
ghost use Rattle.tfm_tables.specs.Pairs.{IsTableOf, address_in, row_of};

use crate::Step;
use std::alloc::{AllocError, Global};

/// The entry of a code that no instruction matches. Every address is smaller: it is below 2^15.
const NOWHERE: u16 = u16::MAX;

/// A row for each left side. Entry `code` of a row is the address of the first instruction, in the
/// chain of the left side's program, that matches this code on the right, or `NOWHERE`.
#[derive(Drop)]
pub(crate) struct PairTable {
    pub rows: Vec<[u16; 256]>,
}

/// Records `address` in the entry for the code of the instruction, unless an earlier instruction has this
/// code. An instruction with a skip above 128 matches no code.
fn mark(row: &mut [u16; 256], step: &Step, address: u16)
    requires { address < 2 ^ 15 }
    ensures { (code : ℕ) → code < 256 → address_in (get_or row.new code 0) ≡ option_or (address_in (get_or row.old code 0)) (if nat_le step.now.skip 128 && (step.now.next == code) then Some address else None) }
{
    let entry = &mut row[usize::from(step.next)];
    if step.skip <= 128 && *entry == NOWHERE {
        *entry = address;
    }
}

/// Computes the row of a left side: for each code the first address, in the chain from `start`, that matches
/// the code. The chain is followed once for all codes.
fn walked_row(program: &[Step], start: Option<usize>) -> [u16; 256]
    requires { length program.now ≤ 2 ^ 15 }
    ensures { result ≡ row_of program.now start }
{
    let mut row = [NOWHERE; 256];
    let Some(start) = start else {
        return row;
    };
    let mut at = start;
    while let Some(step) = program.get(at) {
        mark(&mut row, step, at as u16);
        if step.skip >= 128 {
            break;
        }
        at += usize::from(step.skip) + 1;
    }
    row
}

/// Returns the row of a left side. The row of an earlier left side with the same starting address is
/// copied, since following the chain again would give the same row.
fn next_row(
    program: &[Step],
    starts: &[Option<usize>],
    rows: &[[u16; 256]],
    start: Option<usize>,
) -> [u16; 256]
    requires addresses { length program.now ≤ 2 ^ 15 }
    requires before { rows.now ≡ map (row_of program.now) starts.now }
    ensures { result ≡ row_of program.now start }
{
    for side in 0..starts.len() {
        if starts[side] == start {
            return rows[side];
        }
    }
    walked_row(program, start)
}

impl PairTable {
    /// Builds the row of each left side from its starting address, and follows one chain for each
    /// different starting address. The error means that an allocation failed.
    pub fn build(
        alloc: Global,
        program: &[Step],
        starts: &[Option<usize>],
    ) -> Result<Self, AllocError>
        requires addresses { length program.now ≤ 2 ^ 15 }
        requires sides { length starts.now ≤ 257 }
        ensures { IfOk result (IsTableOf program.now starts.now) }
    {
        let mut rows = Vec::with_capacity(alloc, starts.len())?;
        for side in 0..starts.len() {
            let row = next_row(program, &starts[..side], &rows, starts[side]);
            rows.push(row)?;
        }
        Ok(PairTable { rows })
    }

    /// Returns the address of the match for a left side and the code to its right. `side` is the
    /// index of the left side among the `starts` of `build`.
    pub fn find(&self, side: usize, code: u8) -> Option<usize>
        requires { (program : List Instruction) × (starts : List (Option ℕ)) × IsTableOf program starts self.now × (side < length starts) }
        ensures { (program : List Instruction) (starts : List (Option ℕ)) → length program ≤ 2 ^ 15 → IsTableOf program starts self.now → (start : Option ℕ) → slice_get starts side ≡ Some start → result ≡ option_and_then (λ at. address_of program at code) start }
    {
        let address = self.rows[side][usize::from(code)];
        if address == NOWHERE {
            return None;
        }
        Some(usize::from(address))
    }
}
