ghost use Rattle.std.specs.Prelude.{◌≡◌, [], None, OnErr, IfOk, IfErr, MatchOption};
ghost use Rattle.std.specs.Arc.{arc_value};
ghost use Rattle.set_line.specs.declared.outcome.LineRefusal.TheVariants.{Steps};
ghost use Rattle.set_line.specs.declared.outcome.Outcome.TheVariants.{Refused};
ghost use Rattle.set_line.specs.Answer.{answer_of, outcome_of, refusal_of};

use crate::portions::is_refused;
use crate::{
    Answer, Items, Line, LineRefusal, OutOfMemory, Outcome, Terms, set_stretch, total_width,
};
use lig_kern::Item;
use std::alloc::{AllocError, Global};
use std::mem;
use std::sync::Arc;

/// The largest number of bytes in a line that is set.
pub const MOST_BYTES: usize = 65_535;

/// Returns the refusal that is known before a line is set: it has more than [`MOST_BYTES`] bytes, or a
/// missing character that is refused, of which the first is reported. This allocates no memory.
#[tactic(auto, using(crate::proofs::AnswerLemmas::refusal_long))]
pub fn find_refusal(terms: &Terms, line: &[u8]) -> Option<LineRefusal>
    ensures { result ≡ refusal_of terms.now line.now }
{
    if line.len() > MOST_BYTES {
        return Some(LineRefusal::TooLong(line.len()));
    }
    let offset = line.iter().position(|byte| is_refused(terms, *byte))?;
    let code = line[offset];
    Some(LineRefusal::Missing { offset, code })
}

/// Sets a line, unless it is too long. `items` is cleared first, and its memory is used for the items of the
/// outcome: 5 items for 4 bytes are reserved, which most lines need at most. Returns `None` if the line is
/// too long, a byte is refused or the line takes more steps than the limit.
fn set_items(
    terms: &Terms,
    line: &[u8],
    items: &mut Vec<Item>,
) -> Result<Option<Outcome>, AllocError>
    ensures { IfOk result (λ outcome. MatchOption outcome
        (refusal_of terms.now line.now ≡ None → Refused (Steps terms.now.limit) ≡ outcome_of terms.now line.now)
        (λ outcome. outcome ≡ outcome_of terms.now line.now)) }
{
    items.clear();
    if line.len() > MOST_BYTES {
        return Ok(None);
    }
    items.reserve(line.len() + line.len() / 4)?;
    let Some(steps) = set_stretch(terms, line, true, 0, items)? else {
        return Ok(None);
    };
    let width = total_width(items);
    let empty = Vec::new(*items.allocator());
    Ok(Some(Outcome::Set {
        items: Items::new(mem::replace(items, empty)),
        width,
        steps,
    }))
}

/// Sets the line of these bytes, and returns its result. The memory of `list` is used for the items, so that
/// a caller who sets many lines needs no allocation for most of them: after a line that is set, the list is
/// in the outcome, and [`Outcome::give_back`] returns it. After a refused line or a failed allocation the
/// memory is still in `list`. In every case `list` is empty afterwards, and its earlier contents are dropped.
/// A line that is too long, or has a missing character that is refused, gets this refusal even if an
/// allocation fails.
#[tactic(auto, using(crate::proofs::AnswerLemmas::outcomes))]
pub fn set_bytes(terms: &Terms, line: &[u8], list: &mut Vec<Item>) -> Result<Outcome, OutOfMemory>
    ensures ok { IfOk result (λ outcome. outcome ≡ outcome_of terms.now line.now) }
    ensures memory { OnErr result (refusal_of terms.now line.now ≡ None) }
    ensures emptied { list.new.items ≡ [] }
{
    let made = set_items(terms, line, list);
    list.clear();
    match made {
        Ok(Some(outcome)) => Ok(outcome),
        Ok(None) => {
            let steps = LineRefusal::Steps(terms.limit().get());
            Ok(Outcome::Refused(find_refusal(terms, line).unwrap_or(steps)))
        }
        Err(_) => match find_refusal(terms, line) {
            Some(refusal) => Ok(Outcome::Refused(refusal)),
            None => Err(OutOfMemory),
        },
    }
}

/// Sets a line, and returns its result with the line and its settings. If an allocation fails, the line is
/// handed back. A line that is too long, or has a missing character that is refused, gets this refusal even
/// if an allocation fails.
pub fn set(alloc: Global, terms: Arc<Terms>, line: Line) -> Result<Answer, (Line, OutOfMemory)>
    ensures ok { IfOk result (λ answer. answer ≡ answer_of (arc_value terms) line) }
    ensures line { IfErr result (λ refused. refused.0 ≡ line) }
    ensures memory { OnErr result (refusal_of (arc_value terms) line ≡ None) }
{
    match set_bytes(&terms, line.bytes(), &mut Vec::new(alloc)) {
        Ok(outcome) => Ok(Answer::new(terms, line, outcome)),
        Err(fault) => Err((line, fault)),
    }
}
