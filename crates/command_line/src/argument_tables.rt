//! The arguments of the subcommands, as tables.
use crate::help::{
    ALL_HELP, BLOCK_HELP, BOX_UNIT_HELP, CAPACITY_HELP, CAUSES_HELP, CRLF_HELP, ENCODING_HELP,
    FILE_HELP, FILES_FROM_HELP, FONT_HELP, FONTS_HELP, FORMAT_HELP, JSON_FORMAT_HELP, LIMIT_HELP,
    MISSING_HELP, NULL_HELP, QUIET_HELP, RECORD_HELP, SIZE_HELP, STREAM_BLOCK_HELP,
    STREAM_FILE_HELP, STRICT_HELP, SUMMARY_HELP, UNIT_HELP, VERBOSE_HELP, WORDS_HELP, WORKERS_HELP,
};

/// What an argument takes.
#[derive(Clone, Copy)]
pub(crate) enum Kind<'a> {
    /// One value, which is required, without an option.
    One,
    /// One or more values without an option. The flag states that the argument is required.
    Many(bool),
    /// Nothing: the option is a flag.
    Flag,
    /// Nothing: the option is a flag, whose short form is `-v`.
    Verbose,
    /// Any text, which has this name in the help. The flag states that the help doesn't mention the option.
    Text(&'a str, bool),
    /// A number from 1 to this one.
    Number(u32),
    /// One of these words, which have this name in the help.
    Word(&'a str, &'a [&'a str]),
}

/// An argument: its name, its help, what it takes, and its default value.
pub(crate) type Row<'a> = (&'a str, &'a str, Kind<'a>, Option<&'a str>);

const SIZE: Row<'static> = ("size", SIZE_HELP, Kind::Text("N", false), None);

const LIMIT: Row<'static> = (
    "limit",
    LIMIT_HELP,
    Kind::Number(16_777_216),
    Some("1048576"),
);

const UNITS: &[&str] = &["sp", "pt", "bp", "mm", "cm", "in", "pc"];

const UNIT: Row<'static> = ("unit", UNIT_HELP, Kind::Word("U", UNITS), Some("sp"));

const JSON_FORMAT: Row<'static> = (
    "format",
    JSON_FORMAT_HELP,
    Kind::Word("F", &["text", "json"]),
    Some("text"),
);

const ENCODING: Row<'static> = (
    "encoding",
    ENCODING_HELP,
    Kind::Text("E", false),
    Some("bytes"),
);

const CAUSES: Row<'static> = ("verbose", CAUSES_HELP, Kind::Verbose, None);

const FONT: Row<'static> = ("FONT", FONT_HELP, Kind::One, None);

const MISSING: Row<'static> = (
    "missing",
    MISSING_HELP,
    Kind::Word("P", &["refuse", "skip"]),
    Some("refuse"),
);

const CRLF: Row<'static> = ("crlf", CRLF_HELP, Kind::Flag, None);

const WORKERS: Row<'static> = ("workers", WORKERS_HELP, Kind::Number(16), Some("2"));

const CAPACITY: Row<'static> = ("capacity", CAPACITY_HELP, Kind::Number(65_536), Some("16"));

const BLOCK: Row<'static> = ("block", BLOCK_HELP, Kind::Number(8), Some("1"));

const RECORD: Row<'static> = (
    "record",
    RECORD_HELP,
    Kind::Word("V", &["1", "2", "json", "box"]),
    Some("1"),
);

const BOX_UNIT: Row<'static> = ("unit", BOX_UNIT_HELP, Kind::Word("U", UNITS), None);

const VERBOSE: Row<'static> = ("verbose", VERBOSE_HELP, Kind::Verbose, None);

/// The arguments of `counts`.
pub(crate) static COUNTS: [Row<'static>; 2] = [CAUSES, FONT];

/// The arguments of `list`.
pub(crate) static LIST: [Row<'static>; 6] = [
    SIZE,
    UNIT,
    JSON_FORMAT,
    ("all", ALL_HELP, Kind::Flag, None),
    CAUSES,
    FONT,
];

/// The arguments of `pairs`.
pub(crate) static PAIRS: [Row<'static>; 6] = [
    SIZE,
    UNIT,
    (
        "format",
        FORMAT_HELP,
        Kind::Word("F", &["text", "csv", "json"]),
        Some("text"),
    ),
    ENCODING,
    CAUSES,
    FONT,
];

/// The arguments of `check`.
pub(crate) static CHECK: [Row<'static>; 9] = [
    ("size", SIZE_HELP, Kind::Text("N", true), None),
    ("strict", STRICT_HELP, Kind::Flag, None),
    ("quiet", QUIET_HELP, Kind::Flag, None),
    ("summary", SUMMARY_HELP, Kind::Flag, None),
    JSON_FORMAT,
    (
        "files-from",
        FILES_FROM_HELP,
        Kind::Text("FILE", false),
        None,
    ),
    ("null", NULL_HELP, Kind::Flag, None),
    CAUSES,
    ("FONT", FONTS_HELP, Kind::Many(false), None),
];

/// The arguments of `set`.
pub(crate) static SET: [Row<'static>; 13] = [
    SIZE,
    LIMIT,
    MISSING,
    CRLF,
    ENCODING,
    WORKERS,
    CAPACITY,
    BLOCK,
    RECORD,
    BOX_UNIT,
    VERBOSE,
    FONT,
    ("FILE", FILE_HELP, Kind::Many(true), None),
];

/// The arguments of `stream`.
pub(crate) static STREAM: [Row<'static>; 13] = [
    SIZE,
    LIMIT,
    MISSING,
    CRLF,
    ENCODING,
    WORKERS,
    CAPACITY,
    ("block", STREAM_BLOCK_HELP, Kind::Number(8), None),
    RECORD,
    BOX_UNIT,
    VERBOSE,
    FONT,
    ("FILE", STREAM_FILE_HELP, Kind::Many(false), None),
];

/// The arguments of `each`.
pub(crate) static EACH: [Row<'static>; 11] = [
    SIZE,
    MISSING,
    CRLF,
    ENCODING,
    WORKERS,
    CAPACITY,
    BLOCK,
    RECORD,
    BOX_UNIT,
    VERBOSE,
    ("WORD", WORDS_HELP, Kind::Many(true), None),
];
