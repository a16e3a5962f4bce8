ghost use Rattle.std.specs.Prelude.{◌≡◌, Some, None};

use crate::LineSource;
use lanes::SourceFault;
use set_line::Line;
use std::snapshot::Snapshot;
use std::vec;

/// A source that returns the lines of a list, in order, and never fails.
#[derive(Drop)]
pub struct ListSource {
    lines: vec::IntoIter<Line>,
    made_of: Snapshot<Vec<Line>>,
}

impl ListSource {
    /// Returns a source of these lines. The contract also states that a list of lines never fails.
    pub fn new(lines: Vec<Line>) -> Self
        ensures to_come { ⟦<ListSource as LineSource>⟧.to_come result ≡ Some lines.items }
        ensures origin { ⟦<ListSource as LineSource>⟧.origin result ≡ lines.items }
        ensures never { (source : ListSource) → ⟦<ListSource as LineSource>⟧.failed source ≡ None }
    {
        let made_of = Snapshot::of(&lines);
        ListSource {
            lines: lines.into_iter(),
            made_of,
        }
    }
}

impl LineSource for ListSource {
    ghost use Rattle.std.specs.Prelude.{ℕ, List, Some, None};
    ghost use Rattle.std.specs.Vec.Iter.{into_iter_items};

    ghost to_come = { λ source. Some (into_iter_items source.lines) };

    ghost failed = { λ source. None };

    ghost Origin = { List (List ℕ) };

    ghost origin = { λ source. source.made_of.value.items };

    fn next_line(&mut self) -> Result<Option<Line>, SourceFault> {
        Ok(self.lines.next())
    }
}
