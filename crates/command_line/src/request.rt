//! The requests that arguments can state.
use encodings::Encoding;
use formats::{ListLayout, OutputFormat, PairsLayout, RecordFormat};
use run_plan::{Limit, Plan, Policy};
use tfm_words::Size;

/// What the arguments state: a request, and the file with its encoding vector if `--encoding` names one.
#[derive(Drop)]
pub struct Arguments<'a> {
    /// The request. If `vector` names a file, the request has no encoding, and that of the vector takes its place.
    pub request: Request<'a>,
    /// The name of the file with the encoding vector; `None` if the encoding is one that has a name, or if
    /// the request has no encoding.
    pub vector: Option<&'a str>,
}

/// The request that the arguments state, one variant for each subcommand.
#[derive(Drop)]
pub enum Request<'a> {
    /// Prints the twelve counts and the design size of a font.
    Counts {
        /// The name of the font; `-` is standard input.
        font: &'a str,
        /// Whether the causes of errors are printed on standard error.
        verbose: bool,
    },
    /// Prints the contents of a font.
    List(Listing<'a>),
    /// Prints the pairs of a font for which its lig/kern program has an action.
    Pairs(Pairing<'a>),
    /// Checks whether fonts are accepted, and prints one line for each.
    Check(Checking<'a>),
    /// Sets the lines of files with one font, and prints nothing until all are set.
    Set(Setting<'a>),
    /// Sets the lines of files or of standard input with one font, and prints each record as soon as it is
    /// ready.
    Stream(Setting<'a>),
    /// Sets the lines of files, each with its own font and step limit, and prints nothing until all are set.
    Each(Jobs<'a>),
}

/// The options that `set`, `stream` and `each` have in common: how lines are set, and how they are printed.
#[derive(Clone, Copy)]
pub struct Layout {
    /// The size of all fonts, in sp; `None` means the design size of each font.
    pub size: Option<Size>,
    /// Whether the size was given as a number without a unit.
    pub plain_size: bool,
    /// The missing-character policy.
    pub policy: Policy,
    /// Whether one carriage return before each line feed is stripped from the files with lines.
    pub crlf: bool,
    /// The encoding of the font, if the lines are text in UTF-8; `None` if they are bytes, which are codes of the
    /// font.
    pub encoding: Option<Encoding<'static>>,
    /// The capacity and the block of each lane, and the largest number of workers.
    pub plan: Plan,
    /// Whether a block has the whole lines of one read, and not the plan's number of lines: `stream` without
    /// `--block`.
    pub whole_reads: bool,
    /// The record format.
    pub format: RecordFormat,
    /// Whether the causes of errors, and a summary, are printed on standard error.
    pub verbose: bool,
}

/// The font that `list` prints.
#[derive(Clone, Copy)]
pub struct Listing<'a> {
    /// The name of the font; `-` is standard input.
    pub font: &'a str,
    /// The size of the font, in sp; `None` means its design size.
    pub size: Option<Size>,
    /// Whether the size was given as a number without a unit.
    pub plain_size: bool,
    /// The format of the output, and the unit of dimensions.
    pub layout: ListLayout,
    /// Whether the counts, the extensible recipes and all words of the file are printed, too.
    pub all: bool,
    /// Whether the causes of errors are printed on standard error.
    pub verbose: bool,
}

/// The font whose pairs `pairs` prints.
#[derive(Clone, Copy)]
pub struct Pairing<'a> {
    /// The name of the font; `-` is standard input.
    pub font: &'a str,
    /// The size of the font, in sp; `None` means its design size.
    pub size: Option<Size>,
    /// Whether the size was given as a number without a unit.
    pub plain_size: bool,
    /// The format of the output, the encoding whose characters are printed after the codes, and the unit of
    /// kerns.
    pub layout: PairsLayout,
    /// Whether the causes of errors are printed on standard error.
    pub verbose: bool,
}

/// The fonts that `check` reads.
#[derive(Drop)]
pub struct Checking<'a> {
    /// The names of the fonts, in order. At most one may be `-`, for standard input; `requested` doesn't
    /// check this. The list is empty only if `list` has a name.
    pub fonts: Vec<&'a str>,
    /// The name of a file with the names of further fonts; `-` is standard input.
    pub list: Option<&'a str>,
    /// Whether the names in that file end with a zero byte, and not with a line feed.
    pub null: bool,
    /// The other options.
    pub layout: CheckLayout,
}

/// The options of `check`: how the findings are printed.
#[derive(Clone, Copy)]
pub struct CheckLayout {
    /// The format of the output.
    pub format: OutputFormat,
    /// Whether the warnings of accepted fonts are printed.
    pub strict: bool,
    /// Whether the lines of accepted fonts are left out.
    pub quiet: bool,
    /// Whether a last line with the numbers of fonts is printed.
    pub summary: bool,
    /// Whether the causes of errors are printed on standard error.
    pub verbose: bool,
}

/// The arguments of `set` or `stream`: a font, and files with lines.
#[derive(Drop)]
pub struct Setting<'a> {
    /// The name of the font; `-` is standard input.
    pub font: &'a str,
    /// The largest number of steps for a line.
    pub limit: Limit,
    /// The names of the files with lines, in order. With `stream` the list may be empty; the lines are then
    /// read from standard input.
    pub files: Vec<&'a str>,
    /// The options that this subcommand shares with others.
    pub layout: Layout,
}

/// The arguments of `each`.
#[derive(Drop)]
pub struct Jobs<'a> {
    /// The triples FONT LIMIT FILE, as one list in order. `requested` doesn't check that they are triples.
    pub words: Vec<&'a str>,
    /// The options that `each` shares with other subcommands.
    pub layout: Layout,
}
