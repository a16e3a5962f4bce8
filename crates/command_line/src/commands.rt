//! Builds the `clap` command: its subcommands and their arguments, with ranges and defaults.
ghost use Rattle.std.specs.Prelude.{◌≡◌, map, IfOk};
ghost use Rattle.clap.specs.Words.{App, Rule, Shape, new_app, with_rule, with_subcommand};
ghost use Rattle.command_line.specs.Commands.{AllChoices, IsArgument, IsBuilt, IsCommandOf, IsSubcommand, bare_app, rule_in, rule_of_kind, subcommand_name, tfmset_app, with_rules};

use crate::argument_tables::{CHECK, COUNTS, EACH, Kind, LIST, PAIRS, Row, SET, STREAM};
use crate::help::{
    ABOUT, AFTER_HELP, CHECK_ABOUT, CHECK_AFTER_HELP, COUNTS_ABOUT, COUNTS_AFTER_HELP, EACH_ABOUT,
    EACH_AFTER_HELP, LIST_ABOUT, LIST_AFTER_HELP, PAIRS_ABOUT, PAIRS_AFTER_HELP, SET_ABOUT,
    SET_AFTER_HELP, STREAM_ABOUT, STREAM_AFTER_HELP,
};
use clap::builder::ValueParser;
use clap::{Arg, ArgAction, Command};
use std::alloc::{AllocError, Global};
use std::mem::replace;

const VERSION: &str = "0.1.0";

/// A subcommand of `tfmset`.
#[derive(Clone, Copy)]
enum Subcommand {
    Counts,
    List,
    Pairs,
    Check,
    Set,
    Stream,
    Each,
}

/// What the help and the usage errors of a subcommand say.
#[derive(Clone, Copy)]
struct SubcommandTexts<'a> {
    name: &'a str,
    /// The name after that of the program, as in its usage line.
    full_name: &'a str,
    about: &'a str,
    after_help: &'a str,
}

impl Subcommand {
    /// Returns the subcommand of this name.
    fn of(name: &str) -> Option<Subcommand> {
        match name {
            "counts" => Some(Subcommand::Counts),
            "list" => Some(Subcommand::List),
            "pairs" => Some(Subcommand::Pairs),
            "check" => Some(Subcommand::Check),
            "set" => Some(Subcommand::Set),
            "stream" => Some(Subcommand::Stream),
            "each" => Some(Subcommand::Each),
            _ => None,
        }
    }

    /// Returns the texts of the subcommand.
    fn texts<'a>(self) -> SubcommandTexts<'a>
        ensures { result.name.now ≡ subcommand_name self }
    {
        let (name, full_name, about, after_help) = match self {
            Subcommand::Counts => ("counts", "tfmset counts", COUNTS_ABOUT, COUNTS_AFTER_HELP),
            Subcommand::List => ("list", "tfmset list", LIST_ABOUT, LIST_AFTER_HELP),
            Subcommand::Pairs => ("pairs", "tfmset pairs", PAIRS_ABOUT, PAIRS_AFTER_HELP),
            Subcommand::Check => ("check", "tfmset check", CHECK_ABOUT, CHECK_AFTER_HELP),
            Subcommand::Set => ("set", "tfmset set", SET_ABOUT, SET_AFTER_HELP),
            Subcommand::Stream => ("stream", "tfmset stream", STREAM_ABOUT, STREAM_AFTER_HELP),
            Subcommand::Each => ("each", "tfmset each", EACH_ABOUT, EACH_AFTER_HELP),
        };
        SubcommandTexts {
            name,
            full_name,
            about,
            after_help,
        }
    }
}

/// Builds the whole command: `tfmset` with its seven subcommands.
pub(crate) fn tfmset_command<'a>(alloc: Global) -> Result<Command<'a>, AllocError>
    ensures { IfOk result (λ command. (choices : AllChoices) × IsCommandOf (tfmset_app choices) command) }
{
    let mut command = bare_command(alloc)?;
    add_subcommands(alloc, &mut command)?;
    Ok(command)
}

/// Adds the seven subcommands.
fn add_subcommands(alloc: Global, command: &mut Command<'_>) -> Result<(), AllocError>
    ensures { IfOk result (λ _. IsCommandOf bare_app command.old
        → (choices : AllChoices) × IsCommandOf (tfmset_app choices) command.new) }
{
    add_subcommand(alloc, command, Subcommand::Counts)?;
    add_subcommand(alloc, command, Subcommand::List)?;
    add_subcommand(alloc, command, Subcommand::Pairs)?;
    add_subcommand(alloc, command, Subcommand::Check)?;
    add_subcommand(alloc, command, Subcommand::Set)?;
    add_subcommand(alloc, command, Subcommand::Stream)?;
    add_subcommand(alloc, command, Subcommand::Each)
}

/// Builds the command without its subcommands.
fn bare_command<'a>(alloc: Global) -> Result<Command<'a>, AllocError>
    ensures { IfOk result (IsCommandOf bare_app) }
{
    let command = Command::new(alloc, "tfmset")
        .no_binary_name(true)
        .version(VERSION)
        .about(ABOUT)
        .after_help(AFTER_HELP)
        .arg_required_else_help(true)
        .subcommand_required(true);
    command.bin_name("tfmset")
}

/// Builds a subcommand and adds it.
fn add_subcommand(
    alloc: Global,
    command: &mut Command<'_>,
    subcommand: Subcommand,
) -> Result<(), AllocError>
    ensures { IfOk result (λ _. (added : Command) × IsBuilt subcommand added × ((app : App) (shape : Shape)
        → IsCommandOf app command.old → IsSubcommand shape added
        → IsCommandOf (with_subcommand app shape) command.new)) }
{
    let built = built(alloc, subcommand)?;
    *command = replace(command, Command::new(alloc, "")).subcommand(built)?;
    Ok(())
}

/// Builds the subcommand of this name by itself, whose errors have its usage.
pub(crate) fn alone<'a>(alloc: Global, name: &str) -> Result<Command<'a>, AllocError> {
    match Subcommand::of(name) {
        Some(subcommand) => built(alloc, subcommand)?.bin_name(subcommand.texts().full_name),
        None => bare_command(alloc),
    }
}

/// Builds a subcommand.
fn built<'a>(alloc: Global, subcommand: Subcommand) -> Result<Command<'a>, AllocError>
    ensures { IfOk result (IsBuilt subcommand) }
{
    let mut command = without_arguments(alloc, subcommand.texts());
    add_arguments(alloc, &mut command, subcommand)?;
    Ok(command)
}

/// Builds a subcommand without its arguments.
fn without_arguments<'a>(alloc: Global, texts: SubcommandTexts<'a>) -> Command<'a>
    ensures { IsCommandOf (new_app texts.entry.name.now) result }
{
    Command::new(alloc, texts.name)
        .about(texts.about)
        .after_help(texts.after_help)
}

/// Adds the arguments of a subcommand.
fn add_arguments(
    alloc: Global,
    command: &mut Command<'_>,
    subcommand: Subcommand,
) -> Result<(), AllocError>
    ensures { IfOk result (λ _. IsCommandOf (new_app (subcommand_name subcommand)) command.old → IsBuilt subcommand command.new) }
{
    match subcommand {
        Subcommand::Counts => add_rows(alloc, command, &COUNTS),
        Subcommand::List => add_rows(alloc, command, &LIST),
        Subcommand::Pairs => add_rows(alloc, command, &PAIRS),
        Subcommand::Check => add_rows(alloc, command, &CHECK),
        Subcommand::Set => add_rows(alloc, command, &SET),
        Subcommand::Stream => add_rows(alloc, command, &STREAM),
        Subcommand::Each => add_rows(alloc, command, &EACH),
    }
}

/// Adds these arguments in order.
fn add_rows<'a>(
    alloc: Global,
    command: &mut Command<'a>,
    rows: &[Row<'a>],
) -> Result<(), AllocError>
    ensures { IfOk result (λ _. (app : App) → IsCommandOf app command.old
        → IsCommandOf (with_rules app (map rule_in rows.now)) command.new) }
{
    for row in rows {
        add(alloc, command, argument(alloc, row))?;
    }
    Ok(())
}

/// Adds an argument. For the proof: a command is passed by reference, since each move of one is slow to prove.
fn add<'a>(alloc: Global, command: &mut Command<'a>, argument: Arg<'a>) -> Result<(), AllocError>
    ensures { IfOk result (λ _. (app : App) (rule : Rule)
        → IsCommandOf app command.old → IsArgument rule argument.entry
        → IsCommandOf (with_rule app rule) command.new) }
{
    *command = replace(command, Command::new(alloc, "")).arg(argument)?;
    Ok(())
}

/// Builds an argument.
fn argument<'a>(alloc: Global, row: &Row<'a>) -> Arg<'a>
    ensures { IsArgument (rule_in row.now) result }
{
    let argument = without_default(alloc, row);
    match row.3 {
        Some(value) => argument.default_value(value),
        None => argument,
    }
}

/// Builds an argument without its default value.
fn without_default<'a>(alloc: Global, row: &Row<'a>) -> Arg<'a>
    ensures { IsArgument (rule_of_kind row.now.0.now row.now.2) result }
{
    let (name, help, kind, _) = *row;
    let argument = Arg::new(alloc, name).help(help);
    match kind {
        Kind::One => argument.required(true),
        Kind::Many(required) => argument.num_args(1..).required(required),
        Kind::Flag => argument.long(name).action(ArgAction::SetTrue),
        Kind::Verbose => argument.long(name).action(ArgAction::SetTrue).short('v'),
        Kind::Text(value, hidden) => argument.long(name).value_name(value).hide(hidden),
        Kind::Number(most) => argument
            .long(name)
            .value_name("N")
            .value_parser(ValueParser::signed(1, i64::from(most))),
        Kind::Word(value, words) => argument
            .long(name)
            .value_name(value)
            .value_parser(words)
            .hide_possible_values(true),
    }
}
