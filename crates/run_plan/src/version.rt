ghost use Rattle.std.specs.Prelude.{◌≡◌};
ghost use Rattle.run_plan.specs.Versions.{is_json, label as label_of};

/// The format of records.
#[derive(Clone, Copy, Debug, PartialEq, Eq)]
pub enum Version {
    /// Format 1: for a line that is set, its width and items.
    One,
    /// Format 2: also its number of steps.
    Two,
    /// The contents of format 2 as a JSON object.
    Json,
}

impl Version {
    /// Returns whether this is JSON.
    pub fn is_json(self) -> bool
        ensures { result ≡ is_json self }
    {
        matches!(self, Version::Json)
    }

    /// Returns `words` in formats 1 and 2, and `object` in JSON.
    pub fn label<'a>(self, words: &'a [u8], object: &'a [u8]) -> &'a [u8]
        ensures { result.now ≡ label_of self words.now object.now }
    {
        if self.is_json() { object } else { words }
    }
}
