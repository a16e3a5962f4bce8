//! `tfmset_pairs`: all pairs of neighbours that have a kern or a ligature operation.
ghost use Rattle.std.specs.Prelude.{◌≡◌, IfOk};
ghost use Rattle.tfmset_c.specs.Arrays.{IsListed};
ghost use Rattle.tfmset_c.specs.Pairs.{pair_told, pairs_told, symbol_number};
ghost use Rattle.tfmset_c.specs.Reading.{IsAnswer, IsNoSize, font_at};

use crate::arrays::report;
use crate::reading::{MEMORY, MOST_SIZE, RANGE, read_font};
use font_texts::Pair;
use lig_kern::{Action, Symbol};
use std::alloc::{AllocError, Global};
use tfm_tables::Font;

/// Two neighbours, and the action of the lig/kern program of a font between them.
#[repr(C)]
#[derive(Clone, Copy, Debug, PartialEq, Eq)]
pub struct TfmsetPair {
    /// The left neighbour: a code, or 256 for the left boundary.
    pub left: u32,
    /// The right neighbour: a code, or 256 for the right boundary.
    pub right: u32,
    /// 1: a kern. 2: a ligature operation.
    pub action: u32,
    /// Action 1: the kern, in sp. Otherwise 0.
    pub kern: i32,
    /// Action 2: the code of the character that is inserted. Otherwise 0.
    pub code: u32,
    /// Action 2: 1 if the left neighbour stays. Otherwise 0.
    pub keep_left: u32,
    /// Action 2: 1 if the right neighbour stays. Otherwise 0.
    pub keep_right: u32,
    /// Action 2: the number of elements, 0 to 2, that are passed over after the operation. Otherwise 0.
    pub pass: u32,
}

/// Returns the number by which C names a symbol.
#[tactic(auto, unfolding(crate::specs::Pairs::symbol_number))]
fn number_of(symbol: Symbol) -> u32
    ensures { result ≡ symbol_number symbol }
{
    match symbol {
        Symbol::Char(code) => u32::from(code),
        Symbol::Left | Symbol::Right => 256,
    }
}

/// Returns a pair as C gets it.
#[tactic(auto, unfolding(crate::specs::Pairs::pair_told, crate::specs::Pairs::action_told))]
fn pair_for_c(pair: &Pair) -> TfmsetPair
    ensures { result ≡ pair_told pair.now }
{
    let kern = TfmsetPair {
        left: number_of(pair.left),
        right: number_of(pair.right),
        action: 1,
        kern: 0,
        code: 0,
        keep_left: 0,
        keep_right: 0,
        pass: 0,
    };
    match pair.action {
        Action::Kern(amount) => TfmsetPair {
            kern: amount,
            ..kern
        },
        Action::Lig {
            code,
            keep_left,
            keep_right,
            pass,
        } => TfmsetPair {
            action: 2,
            code: u32::from(code),
            keep_left: u32::from(keep_left),
            keep_right: u32::from(keep_right),
            pass: u32::from(pass),
            ..kern
        },
    }
}

/// Returns the pairs of a font as C gets them. The error means that an allocation failed.
#[tactic(auto, unfolding(crate::specs::Pairs::pairs_told))]
fn list_pairs(alloc: Global, font: &Font) -> Result<Vec<TfmsetPair>, AllocError>
    ensures { IfOk result (λ list. list.items ≡ pairs_told font.now) }
{
    let found = font_texts::pairs(alloc, font)?;
    let mut list = Vec::with_capacity(alloc, found.len())?;
    for pair in &found {
        list.push(pair_for_c(pair))?;
    }
    Ok(list)
}

/// Reports all pairs of neighbours for which the lig/kern program of a font has an action, in the array
/// `pairs`: in the order of the left neighbour, and then of the right one. The left neighbour is the left
/// boundary, which comes first, or a character of the font; the right neighbour is a character of the font,
/// or the right boundary, which comes last. `size` is in sp, and 0 is the design size.
///
/// Returns: 0 after success; 1 if the font is refused; 2 if an allocation fails; 3 if `pairs` is too short; 4 if
/// `size` is above 134,217,727. After every code except 0 `pairs` is unchanged. `count` is the number of pairs, at
/// most 66,049, after codes 0 and 3, and otherwise unchanged.
#[unsafe(no_mangle)]
pub extern "C" fn tfmset_pairs(
    alloc: Global,
    font: &[u8],
    size: u32,
    pairs: &mut [TfmsetPair],
    count: &mut usize,
) -> u32
    ensures font { IsAnswer (IsNoSize size) font.now result }
    ensures told { IsListed (pairs_told (font_at font.now size)) result count.old count.new pairs.old pairs.new }
{
    if size > MOST_SIZE {
        return RANGE;
    }
    let listed = match read_font(alloc, font, size) {
        Ok(font) => list_pairs(alloc, &font),
        Err(denial) => return denial.code(),
    };
    match listed {
        Ok(list) => report(&list, pairs, count),
        Err(_) => MEMORY,
    }
}
