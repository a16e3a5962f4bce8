//! Returns the request that the arguments state, and the encoding vector that they name, from the values that
//! a parse finds for them.
ghost use Rattle.std.specs.Prelude.{◌≡◌, [], map, IfErr, IfOk, Some, codes, option_and_then, option_map, unwrap_or};
ghost use Rattle.clap.specs.Words.{all_of, first_of, found_of, kind_of, one_of, rows_of, subcommand_rows_of};
ghost use Rattle.command_line.specs.Commands.{AllChoices, IsCommandOf, tfmset_app};
ghost use Rattle.command_line.specs.Asked.{AreJobs, Asks, AsksFor, Finds, encoding_stated, format_word, has_no_block, has_plain_size, IsAskedBy, IsAskedOf, IsAskedWith, IsBlock, IsChecking, IsEncoding, IsFlag, IsLayout, IsListing, IsListLayout, IsNumberIn, IsPairing, IsPairsLayout, IsPlan, IsRefusedBy, IsRefusedWith, IsSetting, IsSize, IsUnit, IsVerbose, is_path, kind_of_values, kind_without_request, misstates_encoding, misstates_size, policy_word, texts, vector_in, vector_named, format_stated, misplaces_unit, version_named, output_format_word, has_no_font as has_no_font_in, IsCheckLayout};

use crate::commands::{alone, tfmset_command};
use crate::help::{ENCODING_ERROR, FONT_ERROR, SIZE_ERROR, UNIT_ERROR};
use crate::request::{
    Arguments, CheckLayout, Checking, Jobs, Layout, Listing, Pairing, Request, Setting,
};
use clap::error::ErrorKind;
use clap::{ArgMatches, Command, Error};
use encodings::Encoding;
use formats::{ListLayout, OutputFormat, PairsFormat, PairsLayout, RecordFormat};
use run_plan::{Block, Capacity, Limit, Plan, Policy, Version, Workers};
use std::alloc::{AllocError, Global};
use std::convert::AsStr;
use tex_sizes::{LengthUnit, is_plain, read_size};
use tfm_words::Size;

/// Parses the arguments that follow the program's name, and returns the request that they state, with the
/// name of the file with its encoding vector if `--encoding` names one. The error is the first usage error,
/// or the help or version text if the arguments request it, or a failed allocation.
pub fn requested<'a, S: AsStr>(alloc: Global, words: &'a [S]) -> Result<Arguments<'a>, Error>
    ensures asked { IfOk result (IsAskedBy (map S.text words.entry.now)) }
    ensures refused { IfErr result (IsRefusedBy (map S.text words.entry.now)) }
{
    let mut command = tfmset_command(alloc)?;
    requested_of(alloc, &mut command, words)
}

/// Parses the arguments with this command, and returns the request that they state, or the error of the
/// parse.
fn requested_of<'a, S: AsStr>(
    alloc: Global,
    command: &mut Command<'a>,
    words: &'a [S],
) -> Result<Arguments<'a>, Error>
    ensures asked { (choices : AllChoices) → IsCommandOf (tfmset_app choices) command.old
        → IfOk result (IsAskedWith choices (map S.text words.entry.now)) }
    ensures refused { (choices : AllChoices) → IsCommandOf (tfmset_app choices) command.old
        → IfErr result (IsRefusedWith choices (map S.text words.entry.now)) }
{
    let matches = command.try_get_matches_from_mut(words)?;
    match given(alloc, &matches)? {
        Some(requested) => Ok(requested),
        None => Err(without_request(alloc, command, &matches)?),
    }
}

/// Returns the error of arguments that state no request although the parse has no error: `--size` states no
/// size, `--encoding` states no encoding and names no file, `--unit` is given without `--record box`, `check` has no
/// font, or there is no subcommand.
fn without_request<'a>(
    alloc: Global,
    command: &mut Command<'a>,
    matches: &ArgMatches<'a>,
) -> Result<Error, AllocError>
    ensures { IfOk result (λ error. kind_of error ≡ kind_without_request (subcommand_rows_of matches.now)) }
{
    match matches.subcommand() {
        Some((name, matches)) => wrong_values(alloc, &mut alone(alloc, name)?, matches),
        None => no_subcommand(command),
    }
}

/// Returns the error of the values of this subcommand that state no request.
fn wrong_values<'a>(
    alloc: Global,
    command: &mut Command<'a>,
    matches: &ArgMatches<'a>,
) -> Result<Error, AllocError>
    ensures { IfOk result (λ error. kind_of error ≡ kind_of_values (rows_of (found_of matches.now))) }
{
    if misstated(matches) {
        return wrong_size(alloc, command, matches);
    }
    if misnamed(matches) {
        return wrong_encoding(alloc, command, matches);
    }
    if misplaced(matches) {
        return command.error(ErrorKind::ArgumentConflict, UNIT_ERROR);
    }
    command.error(ErrorKind::MissingRequiredArgument, FONT_ERROR)
}

/// Returns the error of a missing subcommand.
fn no_subcommand(command: &mut Command<'_>) -> Result<Error, AllocError>
    ensures { IfOk result (λ error. kind_of error ≡ ErrorKind.MissingSubcommand) }
{
    command.error(ErrorKind::MissingSubcommand, "no subcommand was given")
}

/// Returns whether `--size` has a value that states no size.
fn misstated(matches: &ArgMatches<'_>) -> bool
    ensures { result ≡ misstates_size (rows_of (found_of matches.now)) }
{
    match value_of(matches, "size") {
        Some(text) => read_size(text.as_bytes()).is_none(),
        None => false,
    }
}

/// Returns the error of a value of `--size` that states no size.
fn wrong_size<'a>(
    alloc: Global,
    command: &mut Command<'a>,
    matches: &ArgMatches<'a>,
) -> Result<Error, AllocError>
    ensures { IfOk result (λ error. kind_of error ≡ ErrorKind.ValueValidation) }
{
    let value = value_of(matches, "size").unwrap_or("");
    let message = format!(in alloc; "invalid value '{value}' for '--size <N>': {SIZE_ERROR}")?;
    command.error(ErrorKind::ValueValidation, message.as_str())
}

/// Returns whether `--encoding` has a value that states no encoding and names no file.
fn misnamed(matches: &ArgMatches<'_>) -> bool
    ensures { result ≡ misstates_encoding (rows_of (found_of matches.now)) }
{
    match value_of(matches, "encoding") {
        Some(value) => encoding_of(value).is_none(),
        None => false,
    }
}

/// Returns the error of a value of `--encoding` that states no encoding and names no file.
fn wrong_encoding<'a>(
    alloc: Global,
    command: &mut Command<'a>,
    matches: &ArgMatches<'a>,
) -> Result<Error, AllocError>
    ensures { IfOk result (λ error. kind_of error ≡ ErrorKind.InvalidValue) }
{
    let value = value_of(matches, "encoding").unwrap_or("");
    let message = if value.is_empty() {
        format!(in alloc;
            "a value is required for '--encoding <E>' but none was supplied{ENCODING_ERROR}"
        )?
    } else {
        format!(in alloc; "invalid value '{value}' for '--encoding <E>'{ENCODING_ERROR}")?
    };
    command.error(ErrorKind::InvalidValue, message.as_str())
}

/// Returns whether `--unit` has a value, and `--record` has one other than `box`.
fn misplaced(matches: &ArgMatches<'_>) -> bool
    ensures { result ≡ misplaces_unit (rows_of (found_of matches.now)) }
{
    match value_of(matches, "record") {
        Some(value) => value_of(matches, "unit").is_some() && value != "box",
        None => false,
    }
}

/// Returns the request of the subcommand that the parse found, or `None` if it states none.
fn given<'a>(alloc: Global, matches: &ArgMatches<'a>) -> Result<Option<Arguments<'a>>, AllocError>
    ensures { IfOk result (Finds (IsAskedOf (subcommand_rows_of matches.now))) }
{
    match matches.subcommand() {
        Some((name, matches)) => asked_with_vector(alloc, name, matches),
        None => Ok(None),
    }
}

/// Returns the request that the subcommand of this name states, with the file of its encoding vector, or
/// `None` if it states none.
fn asked_with_vector<'a>(
    alloc: Global,
    name: &str,
    matches: &ArgMatches<'a>,
) -> Result<Option<Arguments<'a>>, AllocError>
    ensures { IfOk result (Finds (Asks (rows_of (found_of matches.now)) name.now)) }
{
    let vector = asked_vector(matches);
    match asked_by(alloc, name, matches)? {
        Some(request) => Ok(Some(Arguments { request, vector })),
        None => Ok(None),
    }
}

/// Returns the request that the subcommand of this name states, or `None` if it states none.
fn asked_by<'a>(
    alloc: Global,
    name: &str,
    matches: &ArgMatches<'a>,
) -> Result<Option<Request<'a>>, AllocError>
    ensures { IfOk result (Finds (AsksFor (rows_of (found_of matches.now)) name.now)) }
{
    match name {
        "counts" => {
            let verbose = asked_verbose(matches);
            Ok(text(matches, "FONT").map(|font| Request::Counts { font, verbose }))
        }
        "list" => match asked_list(matches) {
            Some(asked) => Ok(Some(Request::List(asked))),
            None => Ok(None),
        },
        "pairs" => match asked_pairs(matches) {
            Some(asked) => Ok(Some(Request::Pairs(asked))),
            None => Ok(None),
        },
        "check" => Ok(asked_fonts(alloc, matches)?.map(Request::Check)),
        "set" => Ok(asked_setting(alloc, matches)?.map(Request::Set)),
        "stream" => Ok(asked_setting(alloc, matches)?.map(Request::Stream)),
        "each" => Ok(asked_jobs(alloc, matches)?.map(Request::Each)),
        _ => Ok(None),
    }
}

/// Returns the font that `list` prints, and its options.
fn asked_list<'a>(matches: &ArgMatches<'a>) -> Option<Listing<'a>>
    ensures { Finds (IsListing (rows_of (found_of matches.now))) result }
{
    Some(Listing {
        font: text(matches, "FONT")?,
        size: asked_size(matches)?,
        plain_size: asked_plain_size(matches),
        layout: asked_list_layout(matches)?,
        all: flag(matches, "all"),
        verbose: asked_verbose(matches),
    })
}

/// Returns the format of the output of `list`, and the unit of its dimensions.
fn asked_list_layout(matches: &ArgMatches<'_>) -> Option<ListLayout>
    ensures { Finds (IsListLayout (rows_of (found_of matches.now))) result }
{
    Some(ListLayout {
        format: asked_output_format(matches)?,
        unit: asked_unit(matches)?,
    })
}

/// Returns the font whose pairs `pairs` prints, and its options.
fn asked_pairs<'a>(matches: &ArgMatches<'a>) -> Option<Pairing<'a>>
    ensures { Finds (IsPairing (rows_of (found_of matches.now))) result }
{
    Some(Pairing {
        font: text(matches, "FONT")?,
        size: asked_size(matches)?,
        plain_size: asked_plain_size(matches),
        layout: asked_pairs_layout(matches)?,
        verbose: asked_verbose(matches),
    })
}

/// Returns the format of the output of `pairs`, the encoding of its characters, and the unit of its kerns.
fn asked_pairs_layout(matches: &ArgMatches<'_>) -> Option<PairsLayout>
    ensures { Finds (IsPairsLayout (rows_of (found_of matches.now))) result }
{
    let format = asked_format(matches)?;
    let encoding = asked_encoding(matches)?;
    let unit = asked_unit(matches)?;
    Some(PairsLayout {
        format,
        encoding,
        unit,
    })
}

/// Returns the fonts that `check` reads, and its options. A size has no effect, but must be one.
fn asked_fonts<'a>(
    alloc: Global,
    matches: &ArgMatches<'a>,
) -> Result<Option<Checking<'a>>, AllocError>
    ensures { IfOk result (Finds (IsChecking (rows_of (found_of matches.now)))) }
{
    if misstated(matches) || has_no_font(matches) {
        return Ok(None);
    }
    let fonts = asked_words(alloc, matches, "FONT")?;
    let Some(layout) = asked_check_layout(matches) else {
        return Ok(None);
    };
    Ok(Some(Checking {
        fonts,
        list: value_of(matches, "files-from"),
        null: flag(matches, "null"),
        layout,
    }))
}

/// Returns whether `check` has neither a font nor a list of fonts.
fn has_no_font(matches: &ArgMatches<'_>) -> bool
    ensures { result ≡ has_no_font_in (rows_of (found_of matches.now)) }
{
    words(matches, "FONT").is_none() && value_of(matches, "files-from").is_none()
}

/// Returns how the findings of `check` are printed.
fn asked_check_layout(matches: &ArgMatches<'_>) -> Option<CheckLayout>
    ensures { Finds (IsCheckLayout (rows_of (found_of matches.now))) result }
{
    Some(CheckLayout {
        format: asked_output_format(matches)?,
        strict: flag(matches, "strict"),
        quiet: flag(matches, "quiet"),
        summary: flag(matches, "summary"),
        verbose: asked_verbose(matches),
    })
}

fn asked_output_format(matches: &ArgMatches<'_>) -> Option<OutputFormat>
    ensures { Finds (λ format. first_of (codes "format") (rows_of (found_of matches.now))
        ≡ Some (output_format_word format)) result }
{
    match text(matches, "format")? {
        "text" => Some(OutputFormat::Text),
        "json" => Some(OutputFormat::Json),
        _ => None,
    }
}

/// Returns the font, the limit, the files and the layout of `set` or `stream`.
fn asked_setting<'a>(
    alloc: Global,
    matches: &ArgMatches<'a>,
) -> Result<Option<Setting<'a>>, AllocError>
    ensures { IfOk result (Finds (IsSetting (rows_of (found_of matches.now)))) }
{
    let files = asked_words(alloc, matches, "FILE")?;
    let Some((font, limit, layout)) = font_limit_layout(matches) else {
        return Ok(None);
    };
    Ok(Some(Setting {
        font,
        limit,
        files,
        layout,
    }))
}

fn font_limit_layout<'a>(matches: &ArgMatches<'a>) -> Option<(&'a str, Limit, Layout)>
    ensures { Finds (λ found.
        (first_of (codes "FONT") (rows_of (found_of matches.now)) ≡ Some found.0.now)
        × IsNumberIn 1 16777216 (one_of (codes "limit") (rows_of (found_of matches.now))) found.1
        × IsLayout (rows_of (found_of matches.now)) found.2) result }
{
    let font = text(matches, "FONT")?;
    let limit = asked_limit(matches)?;
    let Some(layout) = asked_layout(matches) else {
        return None;
    };
    Some((font, limit, layout))
}

/// Returns all values of this argument, an empty list if there are none.
fn asked_words<'a>(
    alloc: Global,
    matches: &ArgMatches<'a>,
    name: &str,
) -> Result<Vec<&'a str>, AllocError>
    ensures { IfOk result (λ words.
        unwrap_or (all_of name.now (rows_of (found_of matches.now))) [] ≡ texts words.items) }
{
    match words(matches, name) {
        Some(words) => Vec::from_slice(alloc, words),
        None => Ok(Vec::new(alloc)),
    }
}

/// Returns the arguments and the layout of `each`.
fn asked_jobs<'a>(alloc: Global, matches: &ArgMatches<'a>) -> Result<Option<Jobs<'a>>, AllocError>
    ensures { IfOk result (Finds (AreJobs (rows_of (found_of matches.now)))) }
{
    let Some(words) = words(matches, "WORD") else {
        return Ok(None);
    };
    let Some(layout) = asked_layout(matches) else {
        return Ok(None);
    };
    let words = Vec::from_slice(alloc, words)?;
    Ok(Some(Jobs { words, layout }))
}

/// Returns the options that `set`, `stream` and `each` have in common.
fn asked_layout(matches: &ArgMatches<'_>) -> Option<Layout>
    ensures { Finds (IsLayout (rows_of (found_of matches.now))) result }
{
    Some(Layout {
        size: asked_size(matches)?,
        plain_size: asked_plain_size(matches),
        policy: asked_policy(matches)?,
        crlf: flag(matches, "crlf"),
        encoding: asked_encoding(matches)?,
        plan: asked_plan(matches)?,
        whole_reads: asked_whole_reads(matches),
        format: asked_records(matches)?,
        verbose: asked_verbose(matches),
    })
}

fn asked_verbose(matches: &ArgMatches<'_>) -> bool
    ensures { IsVerbose (rows_of (found_of matches.now)) result }
{
    flag(matches, "verbose")
}

fn asked_policy(matches: &ArgMatches<'_>) -> Option<Policy>
    ensures { Finds (λ policy. first_of (codes "missing") (rows_of (found_of matches.now))
        ≡ Some (policy_word policy)) result }
{
    match text(matches, "missing")? {
        "refuse" => Some(Policy::Refuse),
        "skip" => Some(Policy::Skip),
        _ => None,
    }
}

/// Returns the encoding that `--encoding` states: none if the lines are bytes, or if it names a file.
fn asked_encoding(matches: &ArgMatches<'_>) -> Option<Option<Encoding<'static>>>
    ensures { Finds (IsEncoding (rows_of (found_of matches.now))) result }
{
    match value_of(matches, "encoding") {
        Some(value) => encoding_of(value),
        None => None,
    }
}

/// Returns the encoding that a value of `--encoding` states: none for `bytes`, and if it names a file.
fn encoding_of(value: &str) -> Option<Option<Encoding<'static>>>
    ensures { result ≡ encoding_stated value.now }
{
    if value == "bytes" {
        return Some(None);
    }
    match Encoding::from_name(value) {
        Some(encoding) => Some(Some(encoding)),
        None => vector_of(value).map(|_| None),
    }
}

/// Returns the file with an encoding vector that `--encoding` names, if it names one.
fn asked_vector<'a>(matches: &ArgMatches<'a>) -> Option<&'a str>
    ensures { option_map (λ file. file.now) result ≡ vector_in (rows_of (found_of matches.now)) }
{
    match value_of(matches, "encoding") {
        Some(value) => vector_of(value),
        None => None,
    }
}

/// Returns this value of `--encoding` if it names a file with an encoding vector.
fn vector_of(value: &str) -> Option<&str>
    ensures { option_map (λ file. file.now) result ≡ vector_named value.now }
{
    if Encoding::from_name(value).is_none() && has_path_mark(value) {
        return Some(value);
    }
    None
}

/// Returns whether this value contains a slash or a period.
fn has_path_mark(value: &str) -> bool
    ensures { result ≡ is_path value.now }
{
    value.bytes().any(|byte| byte == b'/' || byte == b'.')
}

/// Returns the record format that `--record` and `--unit` state.
fn asked_records(matches: &ArgMatches<'_>) -> Option<RecordFormat>
    ensures { Finds (λ format. option_and_then (format_stated (first_of (codes "unit") (rows_of (found_of matches.now))))
        (first_of (codes "record") (rows_of (found_of matches.now))) ≡ Some format) result }
{
    let unit = value_of(matches, "unit");
    match value_of(matches, "record") {
        Some(value) => format_of(unit, value),
        None => None,
    }
}

/// Returns the record format that these values of `--unit` and `--record` state. Only `box` takes a unit.
fn format_of(unit: Option<&str>, value: &str) -> Option<RecordFormat>
    ensures { result ≡ format_stated (option_map (λ text. text.now) unit.entry) value.now }
{
    if value == "box" {
        return LengthUnit::from_name(unit.unwrap_or("sp")).map(RecordFormat::Box);
    }
    if unit.is_some() {
        return None;
    }
    version_of(value).map(RecordFormat::Items)
}

/// Returns the format of records with items that a value of `--record` states.
fn version_of(value: &str) -> Option<Version>
    ensures { result ≡ version_named value.now }
{
    match value {
        "1" => Some(Version::One),
        "2" => Some(Version::Two),
        "json" => Some(Version::Json),
        _ => None,
    }
}

fn asked_format(matches: &ArgMatches<'_>) -> Option<PairsFormat>
    ensures { Finds (λ format. first_of (codes "format") (rows_of (found_of matches.now))
        ≡ Some (format_word format)) result }
{
    match text(matches, "format")? {
        "text" => Some(PairsFormat::Text),
        "csv" => Some(PairsFormat::Csv),
        "json" => Some(PairsFormat::Json),
        _ => None,
    }
}

fn asked_unit(matches: &ArgMatches<'_>) -> Option<LengthUnit>
    ensures { Finds (IsUnit (rows_of (found_of matches.now))) result }
{
    match value_of(matches, "unit") {
        Some(name) => LengthUnit::from_name(name),
        None => None,
    }
}

fn asked_plan(matches: &ArgMatches<'_>) -> Option<Plan>
    ensures { Finds (IsPlan (rows_of (found_of matches.now))) result }
{
    Some(Plan {
        capacity: asked_capacity(matches)?,
        block: asked_block(matches)?,
        workers: asked_workers(matches)?,
    })
}

fn asked_size(matches: &ArgMatches<'_>) -> Option<Option<Size>>
    ensures { Finds (IsSize (rows_of (found_of matches.now))) result }
{
    match value_of(matches, "size") {
        Some(text) => Some(Some(read_size(text.as_bytes())?)),
        None => Some(None),
    }
}

/// Returns the first value of this argument.
fn value_of<'a>(matches: &ArgMatches<'a>, name: &str) -> Option<&'a str>
    ensures { option_map (λ text. text.now) result ≡ first_of name.now (rows_of (found_of matches.now)) }
{
    matches.get_str(name)
}

fn asked_plain_size(matches: &ArgMatches<'_>) -> bool
    ensures { result ≡ has_plain_size (rows_of (found_of matches.now)) }
{
    match value_of(matches, "size") {
        Some(text) => is_plain(text.as_bytes()),
        None => false,
    }
}

fn asked_limit(matches: &ArgMatches<'_>) -> Option<Limit>
    ensures { Finds (IsNumberIn 1 16777216 (one_of (codes "limit") (rows_of (found_of matches.now)))) result }
{
    Limit::new(number(matches, "limit")?)
}

fn asked_capacity(matches: &ArgMatches<'_>) -> Option<Capacity>
    ensures { Finds (IsNumberIn 1 65536 (one_of (codes "capacity") (rows_of (found_of matches.now)))) result }
{
    Capacity::new(number(matches, "capacity")? as usize)
}

/// Returns the number of lines in a block; 8, the largest, if `--block` has no value.
fn asked_block(matches: &ArgMatches<'_>) -> Option<Block>
    ensures { Finds (IsBlock (first_of (codes "block") (rows_of (found_of matches.now)))
        (one_of (codes "block") (rows_of (found_of matches.now)))) result }
{
    if asked_whole_reads(matches) {
        return Block::new(8);
    }
    Block::new(number(matches, "block")? as usize)
}

fn asked_whole_reads(matches: &ArgMatches<'_>) -> bool
    ensures { result ≡ has_no_block (rows_of (found_of matches.now)) }
{
    match value_of(matches, "block") {
        Some(_) => false,
        None => true,
    }
}

fn asked_workers(matches: &ArgMatches<'_>) -> Option<Workers>
    ensures { Finds (IsNumberIn 1 16 (one_of (codes "workers") (rows_of (found_of matches.now)))) result }
{
    Workers::new(number(matches, "workers")? as usize)
}

/// Returns the number that this option has.
fn number(matches: &ArgMatches<'_>, name: &str) -> Option<u32>
    ensures { Finds (IsNumberIn 0 4294967295 (one_of name.now (rows_of (found_of matches.now)))) result }
{
    matches.get_one(name)
}

/// Returns the first value of this argument.
fn text<'a>(matches: &ArgMatches<'a>, name: &str) -> Option<&'a str>
    ensures { Finds (λ text. first_of name.now (rows_of (found_of matches.now)) ≡ Some text.now) result }
{
    matches.get_str(name)
}

/// Returns all values of this argument.
fn words<'b, 'a>(matches: &'b ArgMatches<'a>, name: &str) -> Option<&'b [&'a str]>
    ensures { option_map (λ words. texts words.now) result ≡ all_of name.now (rows_of (found_of matches.now)) }
{
    matches.get_strs(name)
}

/// Returns whether this flag is set.
fn flag(matches: &ArgMatches<'_>, name: &str) -> bool
    ensures { IsFlag (one_of name.now (rows_of (found_of matches.now))) result }
{
    matches.get_flag(name)
}
