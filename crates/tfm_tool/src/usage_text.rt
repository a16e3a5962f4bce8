//! The text of a usage error, which is that of `clap` except for one tip.
use std::io::Write;
use std::{io, str};

/// The end of the text before the tip, and its beginning.
const TIP: &str = "\n\n  tip: to pass '";

/// The text between the tip and the name of the subcommand.
const USAGE: &str = "\nUsage: tfmset ";

/// A writer of the text of an error of `clap`, which arrives in one piece.
#[derive(Drop)]
struct UsageText<'a, E> {
    err: &'a mut E,
}

impl<E: Write> Write for UsageText<'_, E> {
    fn write(&mut self, bytes: &[u8]) -> io::Result<usize> {
        match str::from_utf8(bytes) {
            Ok(text) => say_text(text, &mut *self.err)?,
            Err(_) => self.err.write_all(bytes)?,
        }
        Ok(bytes.len())
    }

    fn flush(&mut self) -> io::Result<()> {
        self.err.flush()
    }
}

/// Writes the text of a usage error.
pub(crate) fn say_usage<E: Write>(error: &clap::Error, err: &mut E) -> io::Result<()> {
    let mut text = UsageText { err };
    write!(text, "{error}")
}

/// The text for an argument that begins with a dash and is no option of the subcommand.
#[derive(Clone, Copy)]
struct UnknownOption<'t> {
    /// The text before the tip of `clap`.
    before: &'t str,
    /// The argument without its value; after a single dash, `clap` shows one character: `-1` for `-12pt`.
    option: &'t str,
    /// The name of the subcommand.
    subcommand: &'t str,
    /// The text after the tip of `clap` and `USAGE`.
    usage: &'t str,
}

/// Writes the text of an error. The tip of `clap` for an unknown option is `to pass '-x' as a value, use '-- -x'`,
/// which leads nowhere if the option was misspelt, if another subcommand has it, or if it is a negative number.
fn say_text<E: Write>(text: &str, err: &mut E) -> io::Result<()> {
    let Some(unknown) = unknown_option(text) else {
        return err.write_all(text.as_bytes());
    };
    err.write_all(unknown.before.as_bytes())?;
    say_tip(&unknown, err)?;
    write!(err, "{USAGE}{}", unknown.usage)
}

/// Returns the parts of the text for an unknown option, or `None` for any other text.
fn unknown_option(text: &str) -> Option<UnknownOption<'_>> {
    let (before, tip) = text.split_once(TIP)?;
    let (option, further) = tip.split_once("' as a value")?;
    let (_, usage) = further.split_once(USAGE)?;
    let (subcommand, _) = usage.split_once(" ")?;
    Some(UnknownOption {
        before,
        option,
        subcommand,
        usage,
    })
}

/// Writes the tips for an unknown option. The one about files is only for a single dash, since few names of files
/// begin with two.
fn say_tip<E: Write>(unknown: &UnknownOption<'_>, err: &mut E) -> io::Result<()> {
    if is_negative(unknown.option) {
        return err.write_all(
            b"\n\n  tip: no option takes a negative number; a size is a number with a unit, such as 12pt\n",
        );
    }
    let subcommand = unknown.subcommand;
    write!(
        err,
        "\n\n  tip: 'tfmset {subcommand} --help' lists the options of this command\n"
    )?;
    if unknown.option.starts_with("--") {
        return Ok(());
    }
    err.write_all(b"  tip: write './' before the name of a file that begins with '-'\n")
}

/// Returns whether an option that begins with a dash is the beginning of a negative number, such as `-5` or `-.5pt`.
fn is_negative(option: &str) -> bool {
    matches!(option.as_bytes().get(1), Some(b'0'..=b'9' | b'.' | b','))
}
