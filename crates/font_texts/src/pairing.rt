//! Finds the pairs of neighbours for which the lig/kern program of a font has an action.
ghost use Rattle.std.specs.Prelude.{◌≡◌, ◌∷◌, ◌++◌, [], flat_map, IfOk, OnOk, if◌then◌else◌};
ghost use Rattle.lig_kern.specs.Matching.{action_between};
ghost use Rattle.tfm_tables.specs.Character.{exists};
ghost use Rattle.font_texts.specs.Pairs.{characters, left_symbols, pair_with, pairs_of, right_symbols};

use crate::Pair;
use crate::appending::Pushed;
use lig_kern::{Symbol, first_match};
use std::alloc::{AllocError, Global};
use tfm_tables::Font;

/// Returns each pair of neighbours for which the lig/kern program of a font has an action, with the action,
/// as `lig_kern::first_match` returns it. The left neighbour is the left boundary or a character of the
/// font, and the right neighbour is a character of the font or the right boundary. The pairs are in the order
/// of the left neighbour and then of the right one: the left boundary, the characters in the order of their
/// codes, the right boundary. Fails if an allocation fails.
#[tactic(auto, unfolding(crate::specs::Pairs::pairs_after, crate::specs::Pairs::pairs_of))]
pub fn pairs(alloc: Global, font: &Font) -> Result<Vec<Pair>, AllocError>
    ensures { IfOk result (λ pairs. pairs.items ≡ pairs_of font.now) }
{
    let lefts = lefts(alloc, font)?;
    let rights = rights(alloc, font)?;
    let mut pairs = Vec::new(alloc);
    for left in &lefts {
        push_pairs_after(&mut pairs, font, *left, rights.as_slice())?;
    }
    Ok(pairs)
}

/// Appends the pairs with this symbol on the left and one of `rights` on the right.
fn push_pairs_after(pairs: &mut Vec<Pair>, font: &Font, left: Symbol, rights: &[Symbol]) -> Pushed
    ensures { OnOk result (pairs.new.items ≡ pairs.old.items
        ++ flat_map (λ right. pair_with left right (action_between font.now left right)) rights.now) }
{
    for right in rights {
        push_pair(pairs, font, left, *right)?;
    }
    Ok(())
}

/// Appends this pair, if it has an action.
fn push_pair(pairs: &mut Vec<Pair>, font: &Font, left: Symbol, right: Symbol) -> Pushed
    ensures { OnOk result (pairs.new.items ≡ pairs.old.items
        ++ pair_with left right (action_between font.now left right)) }
{
    if let Some(action) = first_match(font, left, right) {
        pairs.push(Pair {
            left,
            right,
            action,
        })?;
    }
    Ok(())
}

/// Returns the symbols that may be on the left.
#[tactic(auto, unfolding(crate::specs::Pairs::left_symbols))]
fn lefts(alloc: Global, font: &Font) -> Result<Vec<Symbol>, AllocError>
    ensures { IfOk result (λ symbols. symbols.items ≡ left_symbols font.now.words) }
{
    let mut symbols = Vec::new(alloc);
    symbols.push(Symbol::Left)?;
    push_characters(&mut symbols, font)?;
    Ok(symbols)
}

/// Returns the symbols that may be on the right.
#[tactic(auto, unfolding(crate::specs::Pairs::right_symbols))]
fn rights(alloc: Global, font: &Font) -> Result<Vec<Symbol>, AllocError>
    ensures { IfOk result (λ symbols. symbols.items ≡ right_symbols font.now.words) }
{
    let mut symbols = Vec::new(alloc);
    push_characters(&mut symbols, font)?;
    symbols.push(Symbol::Right)?;
    Ok(symbols)
}

/// Appends the existing characters in the order of their codes.
#[tactic(auto, using(crate::proofs::ListingLemmas::more))]
fn push_characters(symbols: &mut Vec<Symbol>, font: &Font) -> Pushed
    ensures { OnOk result (symbols.new.items ≡ symbols.old.items ++ characters font.now.words) }
{
    for code in 0..256u16 {
        push_where_exists(symbols, font, code as u8)?;
    }
    Ok(())
}

fn push_where_exists(symbols: &mut Vec<Symbol>, font: &Font, code: u8) -> Pushed
    ensures { OnOk result (symbols.new.items ≡ symbols.old.items
        ++ (if exists font.now.words code then Symbol.Char code ∷ [] else [])) }
{
    if font.exists(code) {
        symbols.push(Symbol::Char(code))?;
    }
    Ok(())
}
