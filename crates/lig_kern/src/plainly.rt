ghost use Rattle.std.specs.Prelude.{◌≡◌};
ghost use Rattle.lig_kern.specs.Plain.{plain_of};

use crate::Action;

/// An action between two neighbours after which neither of them is left for a further action, except for the right
/// one as the current symbol.
#[derive(Clone, Copy, Debug, PartialEq, Eq)]
pub enum Plain {
    /// The current symbol is passed, with this kern after it, and the next symbol becomes current.
    Passes(Option<i32>),
    /// A character with this code replaces both, and becomes current.
    Replaces(u8),
}

/// Returns an action as a plain one, where `None` is the action of two neighbours that don't match. Returns `None`
/// for a ligature that keeps a neighbour or passes over an element.
pub fn plain_action(action: Option<Action>) -> Option<Plain>
    ensures { result ≡ plain_of action }
{
    match action {
        None => Some(Plain::Passes(None)),
        Some(Action::Kern(amount)) => Some(Plain::Passes(Some(amount))),
        Some(
            Action::Lig {
                code,
                keep_left: false,
                keep_right: false,
                pass: 0,
            },
        ) => Some(Plain::Replaces(code)),
        Some(Action::Lig { .. }) => None,
    }
}
