ghost use Rattle.std.specs.Prelude.{◌≡◌, ◌<◌, ◌≤◌};
ghost use Rattle.tfm_words.specs.declared.table.Table.TheVariants.{LigKern};
ghost use Rattle.tfm_tables.specs.Table.{entries_of};
ghost use Rattle.tfm_tables.specs.Program.{step_at};
ghost use Rattle.lig_kern.specs.Matching.{action_between, action_of, ligature_by, operation_of};

use crate::{Action, Symbol};
use tfm_tables::{Font, LeftSide};

/// Returns the ligature action of an op code below 128, with the code of the character that it inserts: one
/// of the eight operations (tftopl.web, section 13), or LIG for a code that isn't among them.
#[tactic(auto, unfolding(crate::specs::Matching::operation_of))]
pub fn ligature(op: u8, code: u8) -> Action
    ensures { result ≡ ligature_by (operation_of op) code }
{
    let (keep_left, keep_right, pass) = match op {
        1 => (false, true, 0),
        2 => (true, false, 0),
        3 => (true, true, 0),
        5 => (false, true, 1),
        6 => (true, false, 1),
        7 => (true, true, 1),
        11 => (true, true, 2),
        _ => (false, false, 0),
    };
    Action::Lig {
        code,
        keep_left,
        keep_right,
        pass,
    }
}

/// Returns the action of the instruction at an address.
#[tactic(auto, unfolding(crate::specs::Matching::action_of))]
fn action(font: &Font, address: usize) -> Action
    requires within { address < entries_of font.now.words LigKern }
    requires skip { (step_at font.now.words address).skip ≤ 128 }
    ensures { result ≡ action_of font.now (step_at font.now.words address) }
{
    let step = font.step(address);
    match step.kern_index() {
        Some(kern) => Action::Kern(font.kern(kern)),
        None => ligature(step.op, step.remainder),
    }
}

/// Returns the action of a font's lig/kern program between two neighbours (tftopl.web, section 13;
/// tex.web, section 1039): the action of the first instruction in the program of the left neighbour
/// that applies to the code of the right neighbour. An instruction with a skip above 128 never applies.
/// The right boundary has the code of the font's right boundary character.
///
/// Returns `None` if no instruction applies, if `left` is the right boundary, if `right` is the left
/// boundary, and if `right` is the right boundary but the font has no right boundary character.
#[tactic(auto, unfolding(crate::specs::Matching::action_between, crate::specs::Matching::match_of))]
pub fn first_match(font: &Font, left: Symbol, right: Symbol) -> Option<Action>
    ensures { result ≡ action_between font.now left right }
{
    let side = match left {
        Symbol::Left => LeftSide::Boundary,
        Symbol::Char(code) => LeftSide::Char(code),
        Symbol::Right => return None,
    };
    let code = match right {
        Symbol::Left => return None,
        Symbol::Char(code) => code,
        Symbol::Right => font.right_boundary()?,
    };
    let address = font.find(side, code)?;
    Some(action(font, address))
}
