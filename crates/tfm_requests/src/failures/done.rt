ghost use Rattle.std.specs.Prelude.{◌≡◌};
ghost use Rattle.tfm_requests.specs.Status.{done_status};

/// How a request ended whose whole output was written.
#[derive(Clone, Copy, Debug, PartialEq, Eq)]
pub enum Done {
    /// Every line was set, or every font is accepted, or the output is that of `counts`, `list` or `pairs`.
    AllSet,
    /// Some line was refused, or with `check` some font.
    SomeRefused,
    /// The bytes of a font of `check` weren't read.
    FontNotRead,
    /// A file or standard input wasn't read to its end.
    FileNotEnded,
    /// An allocation failed in a thread of the batch. The end line of the source says so.
    LaneAbandoned,
}

impl Done {
    /// Returns the exit status of the program.
    pub fn status(self) -> u8
        ensures { result ≡ done_status self }
    {
        match self {
            Done::AllSet => 0,
            Done::SomeRefused => 1,
            Done::FontNotRead | Done::FileNotEnded => 4,
            Done::LaneAbandoned => 5,
        }
    }

    /// Returns the message of the program on standard error, if there is one.
    pub fn message(self) -> Option<&'static str> {
        match self {
            Done::AllSet | Done::SomeRefused => None,
            Done::FontNotRead => Some("tfmset: some font was not read\n"),
            Done::FileNotEnded => Some("tfmset: some file was not read to its end\n"),
            Done::LaneAbandoned => Some("tfmset: out of memory\n"),
        }
    }
}
