//! Sources of lines.
ghost use Rattle.std.specs.Prelude.{◌≡◌, ℕ, List, Option};
ghost use Rattle.lanes.specs.declared.fault.SourceFault.{SourceFault as Fault};
ghost use Rattle.batch.specs.Sources.{Reads};

use batch::ItemSource;
use lanes::SourceFault;
use set_line::Line;
use std::marker::Model;

pub(crate) mod list_source;
pub(crate) mod reader_source;

/// A source of lines. For the proof: `to_come` is the list of the lines still to come, or `None` if they
/// aren't known to the contract. Lines that are known stay known until the source fails. `failed` is the
/// error, once the source has failed. `origin` is what the source was made from, and never changes.
pub trait LineSource {
    ghost to_come: { Self → Option (List (List ℕ)) };

    ghost failed: { Self → Option Fault };

    ghost Origin: { Type 0 };

    ghost origin: { Self → Origin };

    /// Returns the next line, or `None` if no line is left. After an error each later call returns the same
    /// error.
    fn next_line(&mut self) -> Result<Option<Line>, SourceFault>
        ensures reads { Reads (to_come self.old) (failed self.old) result (to_come self.new) (failed self.new) }
        ensures origin { origin self.new ≡ origin self.old };
}

/// A source of lines as a source of items. Contracts see it as the source.
#[derive(Drop)]
pub(crate) struct LineItems<S> {
    source: S,
}

impl<S> Model for LineItems<S> {
    ghost Value = { S };

    ghost coded = { S.code };

    ghost view = { λ items. items.source };
}

impl<S> LineItems<S> {
    pub fn new(source: S) -> Self
        ensures { result ≡ source }
    {
        LineItems { source }
    }

    pub fn into_source(self) -> S
        ensures { result ≡ self }
    {
        let LineItems { source } = self;
        source
    }
}

impl<S: LineSource> ItemSource<Line> for LineItems<S> {
    ghost use Rattle.batch.specs.Sources.{gives_known};

    ghost next_gives = { gives_known S.to_come S.failed };

    ghost Origin = { S.Origin };

    ghost origin = { S.origin };

    fn next_item(&mut self) -> Result<Option<Line>, SourceFault> {
        self.source.next_line()
    }
}
