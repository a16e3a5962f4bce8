//! Makes the steps of a run.
ghost use Rattle.std.specs.Prelude.{◌≡◌, ◌+◌, ◌*◌, ◌^◌, ◌<◌, ◌≤◌, ◌++◌, Bool, List, [], ◌∷◌, drop, length, Some, IfOk, IfSome, OnOk, MatchOption};
ghost use Rattle.std.specs.List.{slice_get};
ghost use Rattle.tfm_words.specs.Appending.{StaysInFront};
ghost use Rattle.tfm_tables.specs.Font.{FontValue};
ghost use Rattle.lig_kern.specs.declared.item.Item.TheVariants.{Kern as KernItem};
ghost use Rattle.lig_kern.specs.declared.placed_symbol.PlacedSymbol.{PlacedSymbol as SymbolValue};
ghost use Rattle.lig_kern.specs.Places.{before as before_place, codes_ahead, inserted_place, kept, placed_items, placed_of};
ghost use Rattle.lig_kern.specs.Walking.{EndsAfter, HasMoved};

use crate::ahead::SymbolsAhead;
use crate::beginning::Beginning;
use crate::placed_symbol::PlacedSymbol;
use crate::{Action, ByteRange, Item, Plain, RunItem, Symbol, WordFont, plain_action};
use std::alloc::AllocError;

/// Returns the empty place before another one.
fn before(next: ByteRange) -> ByteRange
    ensures { result ≡ before_place next }
{
    ByteRange {
        start: next.start,
        end: next.start,
    }
}

/// Returns the place of a character that a ligature inserts between two neighbours, which it keeps or
/// deletes.
fn inserted(keep_left: bool, keep_right: bool, current: ByteRange, next: ByteRange) -> ByteRange
    ensures { result ≡ inserted_place keep_left keep_right current next }
{
    match (keep_left, keep_right) {
        (false, false) => ByteRange {
            start: current.start,
            end: next.end,
        },
        (false, true) => current,
        (true, false) => next,
        (true, true) => before(next),
    }
}

/// Appends the item of a symbol: a character with its width; a boundary has no item.
#[tactic(auto, using(tfm_words::proofs::AppendingLemmas::fronts), unfolding(crate::specs::Places::placed_items))]
pub(crate) fn push_symbol<F: WordFont, O: RunItem>(
    font: &F,
    one: PlacedSymbol,
    out: &mut Vec<O>,
) -> Result<(), AllocError>
    ensures few { OnOk result (length out.new.items ≤ length out.old.items + 1) }
    ensures front { StaysInFront out.old.items out.new.items }
    ensures sent { (value : FontValue) → F.is_of font.now value
        → OnOk result (out.new.items ≡ out.old.items ++ placed_items O.made value (placed_of one ∷ [])) }
{
    if let Symbol::Char(code) = one.symbol {
        let width = font.code_width(code);
        out.push(O::new(Item::Char { code, width }, one.place))?;
    }
    Ok(())
}

/// Appends the item of a symbol if it is kept.
#[tactic(auto, using(tfm_words::proofs::AppendingLemmas::fronts), unfolding(crate::specs::Places::placed_items))]
fn push_kept<F: WordFont, O: RunItem>(
    font: &F,
    keep: bool,
    one: PlacedSymbol,
    out: &mut Vec<O>,
) -> Result<(), AllocError>
    ensures few { OnOk result (length out.new.items ≤ length out.old.items + 1) }
    ensures front { StaysInFront out.old.items out.new.items }
    ensures sent { (value : FontValue) → F.is_of font.now value
        → OnOk result
        (out.new.items ≡ out.old.items ++ placed_items O.made value (kept keep (placed_of one))) }
{
    if keep {
        push_symbol(font, one, out)
    } else {
        Ok(())
    }
}

/// Appends the item of a symbol, and a kern of this amount before the next one.
#[tactic(auto, using(tfm_words::proofs::AppendingLemmas::fronts))]
fn push_with_kern<F: WordFont, O: RunItem>(
    font: &F,
    one: PlacedSymbol,
    amount: i32,
    next: ByteRange,
    out: &mut Vec<O>,
) -> Result<(), AllocError>
    ensures few { OnOk result (length out.new.items ≤ length out.old.items + 2) }
    ensures front { StaysInFront out.old.items out.new.items }
    ensures sent { (value : FontValue) → F.is_of font.now value → OnOk result (out.new.items
        ≡ out.old.items ++ placed_items O.made value (placed_of one ∷ [])
        ++ O.made (KernItem amount) (before_place next) ∷ []) }
{
    push_symbol(font, one, out)?;
    out.push(O::new(Item::Kern(amount), before(next)))?;
    Ok(())
}

/// Makes one step between the current symbol and the next one, which is the first symbol ahead. Appends
/// the items of the symbols that the step passes, and of its kern, and returns the symbol that is
/// current afterwards.
#[tactic(auto, using(tfm_words::proofs::AppendingLemmas::fronts))]
fn step<F: WordFont, O: RunItem>(
    font: &F,
    current: PlacedSymbol,
    next: PlacedSymbol,
    ahead: &mut SymbolsAhead<'_>,
    out: &mut Vec<O>,
) -> Result<PlacedSymbol, AllocError>
    requires { slice_get ahead.now 0 ≡ Some next }
    ensures few { OnOk result (length out.new.items ≤ length out.old.items + 2) }
    ensures front { StaysInFront out.old.items out.new.items }
    ensures moved { (value : FontValue) → F.is_of font.now value → IfOk result (λ after.
        HasMoved O.made value 1 current ahead.old after ahead.new out.old.items out.new.items) }
{
    match font.action(current.symbol, next.symbol) {
        None => {
            push_symbol(font, current, out)?;
            ahead.pass();
            Ok(next)
        }
        Some(Action::Kern(amount)) => {
            push_with_kern(font, current, amount, next.place, out)?;
            ahead.pass();
            Ok(next)
        }
        Some(
            Action::Lig {
                code,
                keep_left,
                keep_right,
                pass,
            },
        ) => {
            let place = inserted(keep_left, keep_right, current.place, next.place);
            let ligature = PlacedSymbol {
                symbol: Symbol::Char(code),
                place,
            };
            ahead.pass_unless(keep_right);
            let passed_left = u8::from(keep_left);
            if pass < passed_left {
                ahead.put(ligature)?;
                return Ok(current);
            }
            push_kept(font, keep_left, current, out)?;
            if pass == passed_left {
                return Ok(ligature);
            }
            push_symbol(font, ligature, out)?;
            ahead.pass();
            Ok(next)
        }
    }
}

/// Makes one step between the current symbol and the next one if the action between them is a plain one, and
/// returns the symbol that is current afterwards. Otherwise returns `None`, with nothing appended.
#[tactic(auto, using(tfm_words::proofs::AppendingLemmas::fronts))]
fn plain_step<F: WordFont, O: RunItem>(
    font: &F,
    current: PlacedSymbol,
    next: PlacedSymbol,
    out: &mut Vec<O>,
) -> Result<Option<PlacedSymbol>, AllocError>
    ensures few { IfOk result (λ after. MatchOption after (out.new.items ≡ out.old.items)
        (λ _. length out.new.items ≤ length out.old.items + 2)) }
    ensures front { StaysInFront out.old.items out.new.items }
    ensures moved { (value : FontValue) → F.is_of font.now value → IfOk result (λ after.
        MatchOption after (out.new.items ≡ out.old.items) (λ symbol. (rest : List SymbolValue)
        → HasMoved O.made value 1 current (next ∷ rest) symbol rest out.old.items out.new.items)) }
{
    match plain_action(font.action(current.symbol, next.symbol)) {
        None => Ok(None),
        Some(Plain::Passes(None)) => {
            push_symbol(font, current, out)?;
            Ok(Some(next))
        }
        Some(Plain::Passes(Some(amount))) => {
            push_with_kern(font, current, amount, next.place, out)?;
            Ok(Some(next))
        }
        Some(Plain::Replaces(code)) => Ok(Some(PlacedSymbol {
            symbol: Symbol::Char(code),
            place: inserted(false, false, current.place, next.place),
        })),
    }
}

/// How far the setting of a run has come: the number of steps made, and the symbol that is current.
#[derive(Clone, Copy)]
pub(crate) struct RunState {
    pub steps: u32,
    pub current: PlacedSymbol,
}

/// Makes steps from the first symbol of a run, after which these codes follow, while the action of each step is a
/// plain one. The number of steps is also the number of codes passed. This is the fast path: it needs no list of
/// symbols ahead.
#[tactic(auto, using(tfm_words::proofs::AppendingLemmas::fronts))]
pub(crate) fn walk_plainly<F: WordFont, O: RunItem>(
    font: &F,
    run: Beginning<'_>,
    steps_left: u32,
    out: &mut Vec<O>,
) -> Result<RunState, AllocError>
    requires { run.at + length run.codes.now < 2 ^ 64 }
    ensures within { IfOk result (λ reached.
        (reached.steps ≤ steps_left) × (reached.steps ≤ length run.entry.codes.now)) }
    ensures few { IfOk result (λ reached. length out.new.items ≤ length out.old.items + 2 * reached.steps) }
    ensures front { StaysInFront out.old.items out.new.items }
    ensures moved { (value : FontValue) → F.is_of font.now value → IfOk result (λ reached. (stands : Bool)
        → HasMoved O.made value reached.steps run.entry.first (codes_ahead run.entry.codes.now run.entry.at run.entry.hyphen stands)
        reached.current (codes_ahead (drop reached.steps run.entry.codes.now) (run.entry.at + reached.steps) run.entry.hyphen stands)
        out.old.items out.new.items) }
{
    let most = if run.codes.len() < steps_left as usize {
        run.codes.len() as u32
    } else {
        steps_left
    };
    let mut current = run.first;
    for used in 0..most {
        let at = run.at + used as usize;
        let next = PlacedSymbol::new(Symbol::Char(run.codes[used as usize]), at, at + 1);
        match plain_step(font, current, next, out)? {
            None => {
                return Ok(RunState {
                    steps: used,
                    current,
                });
            }
            Some(after) => current = after,
        }
    }
    Ok(RunState {
        steps: most,
        current,
    })
}

/// Makes steps until no symbol is ahead of the current one, and then appends the item of the current one.
/// Returns the number of all steps of the run, including those before this call, or `None` if `steps_left` steps
/// in all don't reach the end.
#[tactic(auto, using(tfm_words::proofs::AppendingLemmas::fronts))]
pub(crate) fn walk<F: WordFont, O: RunItem>(
    font: &F,
    reached: RunState,
    ahead: &mut SymbolsAhead<'_>,
    steps_left: u32,
    out: &mut Vec<O>,
) -> Result<Option<u32>, AllocError>
    requires { reached.steps ≤ steps_left }
    ensures few { IfOk result (λ steps. IfSome steps (λ n.
        (n ≤ steps_left) × (length out.new.items + 2 * reached.steps ≤ length out.old.items + 2 * n + 1))) }
    ensures front { StaysInFront out.old.items out.new.items }
    ensures ended { (value : FontValue) → F.is_of font.now value → IfOk result (λ steps.
        (first : SymbolValue) (symbols : List SymbolValue) (before : List O)
        → HasMoved O.made value reached.steps first symbols reached.current ahead.old before out.old.items
        → EndsAfter O.made value (first ∷ symbols) steps_left before out.new.items steps) }
{
    let mut current = reached.current;
    let mut used = reached.steps;
    while let Some(next) = ahead.first() {
        if used == steps_left {
            return Ok(None);
        }
        current = step(font, current, next, ahead, out)?;
        used += 1;
    }
    push_symbol(font, current, out)?;
    Ok(Some(used))
}
