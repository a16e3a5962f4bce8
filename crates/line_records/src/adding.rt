//! What a byte adds to a line.
ghost use Rattle.std.specs.Prelude.{◌≡◌, ◌<◌, [], ◌∷◌, ◌++◌, length, flat_map, OnOk, None, Some, Option};
ghost use Rattle.std.specs.Option.{option_to_list};
ghost use Rattle.lig_kern.specs.declared.symbol.Symbol.TheVariants.{Right as RightSymbol};
ghost use Rattle.lig_kern.specs.declared.plainly.Plain.TheVariants.{Passes as PassesSymbol};
ghost use Rattle.lig_kern.specs.Matching.{action_between};
ghost use Rattle.lig_kern.specs.Plain.{plain_sent};
ghost use Rattle.lig_kern.specs.Rewriting.{items_of, of_symbol};
ghost use Rattle.line_records.specs.Additions.{added_of as added_by, boundary_by, byte_added as added_by_byte, cut_added as added_by_cut, ending_of as ending_by, one_step, step_by};
ghost use Rattle.line_records.specs.Cells.{symbol_of};

use lig_kern::{Item, Plain, Symbol, first_match, plain_action};
use set_line::Policy;
use std::marker::Model;
use tfm_tables::Font;

/// The column of the table for the end of a line. The columns before it are those of the bytes.
pub(crate) const END: usize = 256;

/// What a step past the current symbol, or the end of a run, adds to a line: at most one character, and one
/// kern after it.
#[derive(Drop)]
pub(crate) struct StepAddition {
    pub steps: u8,
    pub character: Option<Item>,
    pub kern: Option<Item>,
    /// The symbol that is current afterwards.
    pub current: Symbol,
}

impl Model for StepAddition {
    ghost use Rattle.std.specs.Prelude.{◌++◌};
    ghost use Rattle.std.specs.Option.{option_to_list};
    ghost use Rattle.line_records.specs.Additions.{Addition};

    ghost Value = { Addition };

    ghost view = { λ a. record {
      steps = a.steps;
      items = option_to_list a.character ++ option_to_list a.kern;
      current = a.current;
    } };
}

/// What a byte adds to a line: what the step past the current symbol or the end of the run adds, and possibly
/// a space or a skipped byte after it.
#[derive(Drop)]
pub(crate) struct ByteAddition {
    pub passed: StepAddition,
    pub cut: Option<Item>,
    /// The symbol that is current afterwards.
    pub current: Symbol,
}

impl Model for ByteAddition {
    ghost use Rattle.std.specs.Prelude.{◌++◌};
    ghost use Rattle.std.specs.Option.{option_to_list};
    ghost use Rattle.line_records.specs.Additions.{Addition};

    ghost Value = { Addition };

    ghost view = { λ a. record {
      steps = a.passed.steps;
      items = a.passed.items ++ option_to_list a.cut;
      current = a.current;
    } };
}

/// Returns the symbol that is current in a row of the table.
pub(crate) fn symbol_in(font: &Font, row: u8) -> Symbol
    ensures { result ≡ symbol_of font.now row }
{
    if row == b' ' || !font.exists(row) {
        Symbol::Left
    } else {
        Symbol::Char(row)
    }
}

/// Returns the item of a symbol. A boundary has none.
#[tactic(auto, unfolding(lig_kern::specs::Rewriting::items_of))]
fn item_of(font: &Font, symbol: Symbol) -> Option<Item>
    ensures { option_to_list result ≡ items_of font.now (of_symbol symbol ∷ []) }
{
    match symbol {
        Symbol::Char(code) => Some(Item::Char {
            code,
            width: font.width(code),
        }),
        Symbol::Left | Symbol::Right => None,
    }
}

/// Returns what a step past a symbol adds, with this kern after it.
#[tactic(auto, using(crate::proofs::AddingLemmas::items), unfolding(lig_kern::specs::Rewriting::items_of))]
fn step_past(font: &Font, symbol: Symbol, kern: Option<i32>, next: Symbol) -> StepAddition
    ensures { result ≡ one_step (items_of font.now (plain_sent (PassesSymbol kern) symbol)) next }
{
    StepAddition {
        steps: 1,
        character: item_of(font, symbol),
        kern: kern.map(Item::Kern),
        current: next,
    }
}

/// Returns what the step from the current symbol to a character adds. Returns `None` for a ligature operation
/// that doesn't replace both, since a further action may apply to the neighbour that it keeps.
#[tactic(auto, using(crate::proofs::AddingLemmas::items), unfolding(lig_kern::specs::Rewriting::items_of))]
fn stepped(font: &Font, current: Symbol, next: Symbol) -> Option<StepAddition>
    ensures { result ≡ step_by font.now (action_between font.now current next) current next }
{
    match plain_action(first_match(font, current, next))? {
        Plain::Passes(kern) => Some(step_past(font, current, kern, next)),
        Plain::Replaces(code) => Some(StepAddition {
            steps: 1,
            character: None,
            kern: None,
            current: Symbol::Char(code),
        }),
    }
}

/// Returns what the step from a character to the right boundary adds, or `None` if a ligature matches.
fn to_boundary(font: &Font, current: Symbol) -> Option<StepAddition>
    ensures { result ≡ boundary_by font.now (action_between font.now current RightSymbol) current }
{
    match plain_action(first_match(font, current, Symbol::Right))? {
        Plain::Passes(kern) => Some(step_past(font, current, kern, Symbol::Right)),
        Plain::Replaces(_) => None,
    }
}

/// Returns what the end of a run adds, or `None` if a ligature at the right boundary matches. `right` states that
/// the right boundary may follow the run.
#[tactic(auto, using(crate::proofs::AddingLemmas::items), unfolding(crate::specs::Additions::ending_of))]
fn ending(font: &Font, right: bool, current: Symbol) -> Option<StepAddition>
    ensures { result ≡ ending_by font.now right current }
{
    match current {
        Symbol::Left => Some(StepAddition {
            steps: 0,
            character: None,
            kern: None,
            current,
        }),
        Symbol::Right => None,
        Symbol::Char(_) => {
            if right && font.right_boundary().is_some() {
                return to_boundary(font, current);
            }
            Some(StepAddition {
                steps: 0,
                character: item_of(font, current),
                kern: None,
                current,
            })
        }
    }
}

/// Returns what was passed, without an item after it.
#[tactic(auto, using(crate::proofs::AddingLemmas::items))]
fn uncut(passed: StepAddition) -> ByteAddition
    ensures { result ≡ passed }
{
    let current = passed.current;
    ByteAddition {
        passed,
        cut: None,
        current,
    }
}

/// Returns what the end of a run adds, and then this item of the byte that ends it.
#[tactic(auto, using(crate::proofs::AddingLemmas::items), unfolding(crate::specs::Additions::cut_added))]
fn cut_added(font: &Font, current: Symbol, right: bool, cut: Item) -> Option<ByteAddition>
    ensures { result ≡ added_by_cut font.now right cut current }
{
    let passed = ending(font, right, current)?;
    Some(ByteAddition {
        passed,
        cut: Some(cut),
        current: Symbol::Left,
    })
}

/// Returns what a byte adds after the current symbol.
#[tactic(auto, unfolding(crate::specs::Additions::byte_added))]
fn byte_added(font: &Font, policy: Policy, current: Symbol, byte: u8) -> Option<ByteAddition>
    ensures { result ≡ added_by_byte font.now policy current byte }
{
    if byte == b' ' {
        return cut_added(font, current, true, Item::Space(font.space()));
    }
    if font.exists(byte) {
        return stepped(font, current, Symbol::Char(byte)).map(uncut);
    }
    match policy {
        Policy::Refuse => None,
        Policy::Skip => cut_added(font, current, false, Item::Skipped(byte)),
    }
}

/// Returns what a byte adds after the current symbol, or the end of the line for the column `END`. Returns
/// `None` if a ligature matches that keeps a neighbour or is at the right boundary, or if the byte is refused.
#[tactic(auto, unfolding(crate::specs::Additions::added_of))]
pub(crate) fn added_at(
    font: &Font,
    policy: Policy,
    current: Symbol,
    next: usize,
) -> Option<ByteAddition>
    requires { next < 257 }
    ensures { result ≡ added_by font.now policy current next }
{
    if next == END {
        return ending(font, true, current).map(uncut);
    }
    byte_added(font, policy, current, (next % 256) as u8)
}
