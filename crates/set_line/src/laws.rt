//! A law of the definitions that callers need, as the contract of a function with an empty body.
ghost use Rattle.std.specs.Prelude.{◌≡◌, ℕ, List, []};
ghost use Rattle.set_line.specs.Lines.{AreWholeText, AreWholeWithFeed, IsCutAtFeed, IsOneLine, lines_of};

/// States how a text is cut into lines. The first line ends at the first line feed, and the other lines are
/// those of the bytes after it. A text without a line feed is one line, unless it is empty. The lines of a
/// text that isn't empty, each followed by a line feed, joined together are the text, followed by a line
/// feed if it doesn't end with one.
#[tactic(auto, using(crate::proofs::LineLemmas::laws))]
pub fn cut_at_feeds()
    ensures first { (line rest : List ℕ) → IsCutAtFeed line rest }
    ensures last { (line : List ℕ) → IsOneLine line }
    ensures nothing { lines_of [] ≡ [] }
    ensures whole { (text : List ℕ) → AreWholeText text }
    ensures ended { (text : List ℕ) (last : ℕ) → AreWholeWithFeed text last }
{}
