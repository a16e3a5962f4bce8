ghost use Rattle.std.specs.Prelude.{◌≡◌, ◌≢◌, ◌⊎◌, ◌<◌, ℕ, true, false, List, [], ◌∷◌, map, Contains, Option, IfErr, IfOk};
ghost use Rattle.std.specs.Io.KnownBytes.{Keeps};
ghost use Rattle.std.specs.IoError.{error_kind};
ghost use Rattle.clap.specs.Words.{kind_of};
ghost use Rattle.tfm_requests.specs.Status.{done_status, is_stop, status_of};
ghost use Rattle.tfm_requests.specs.declared.failures.failure.Failure.TheVariants.{Usage};
ghost use Rattle.tfm_tool.specs.Served.{IsServed, IsTurnedDown, IsTurnedDownBy, is_answer, is_refusal, is_usage};
ghost use Rattle.tfm_tool.specs.Verbose.{MayReport};

use crate::usage_text::say_usage;
use crate::verbose::carry_out;
use crate::warning::warn;
use clap::error::ErrorKind as WordsKind;
use command_line::requested;
use run_texts::ToolFault;
use std::convert::AsStr;
use std::io;
use std::io::{ErrorKind, Read, Write};
use std::rt::Files;
use std::sync::Wait;
use std::thread::Threads;
use tfm_requests::{Done, Failure};

/// The tip after the message for a font that wasn't found, if its name has no slash.
const FONT_TIP: &[u8] =
    b"  tip: a font is given by the path of its file, such as \"$(kpsewhich cmr10.tfm)\"\n";

/// Runs the whole program: does what the arguments after its name request, and returns the exit status.
/// `input` is read for the font `-`, except with `each`, and for the lines of `stream` if it names no file.
/// All files, and all other fonts, are opened by their names.
///
/// The exit status is 0 or 1 after the whole output: 1 if a line was refused or `check` refused a font;
/// otherwise, and after help or the version, 0. It is 2 or 3 if the arguments, a font or an encoding vector are
/// refused, 4 if a font or a file wasn't read, and 5 if an allocation, a thread start or a write failed. With 2
/// to 5 the reason is written to `err`: one line, or the text of `clap` if the arguments are invalid. If `err`
/// fails, its error is ignored.
///
/// Without `--verbose`, `counts`, `list`, `set` and `each` write nothing else to `err`. The other three, and these
/// four with `--verbose`, write further lines before the reason: a warning for a size below 65,536 without a unit, the
/// causes of errors with the names of files, and what is likely wrong with a number.
pub fn tool<R, S, I, O, E>(rt: &R, words: &[S], input: &mut I, out: &mut O, err: &mut E) -> u8
where
    R: Files + AllocGlobal + Threads + Wait + Sync,
    R::File: Send,
    S: AsStr,
    I: Read + Send,
    O: Write,
    E: Write,
    ensures statuses { Contains (0 ∷ 1 ∷ 2 ∷ 3 ∷ 4 ∷ 5 ∷ []) result }
    ensures silent { result < 2 → ¬ (MayReport (map S.text words.now)) → err.new ≡ err.old }
    ensures served { result < 2 → (written : Option (List ℕ)) × Keeps written (O.contents out.new)
        × IsServed (map S.text words.now) (I.remaining input.old) (O.contents out.old) written result }
    ensures untouched { (result ≡ 2) ⊎ (result ≡ 3) → Keeps (O.contents out.old) (O.contents out.new) }
    ensures cause { (result ≡ 2) ⊎ (result ≡ 3)
        → IsTurnedDown (map S.text words.now) (I.remaining input.old) result }
{
    let (answered, tipped) = answer(rt, words, input, out, err);
    let flushed = out.flush();
    match (answered, flushed) {
        (Ok(done), Ok(())) => end(done, err),
        (Ok(_), Err(_)) => fail(Failure::Tool(ToolFault::Write), false, err),
        (Err(failure), _) => fail(failure, tipped, err),
    }
}

/// Writes to `err` the reason why the arguments couldn't be read, and returns the exit status: 5 if the kind
/// of the error is `OutOfMemory`, and 2 for any other error, which is reported as an argument that isn't
/// UTF-8. If `err` fails, its error is ignored.
pub fn words_refused<E: Write>(error: &io::Error, err: &mut E) -> u8
    ensures memory { (error_kind error.now ≡ ErrorKind.OutOfMemory) → result ≡ 5 }
    ensures words { (error_kind error.now ≢ ErrorKind.OutOfMemory) → result ≡ 2 }
{
    if error.kind() == ErrorKind::OutOfMemory {
        return fail(Failure::Tool(ToolFault::OutOfMemory), false, err);
    }
    let _ = err.write_all(b"error: invalid UTF-8 was detected in one or more arguments\n");
    2
}

/// Does what the arguments request, with the files of the file system, or writes help or the version. A warning, and
/// what is noted, are written to `err`, whose errors are ignored. Also returns whether the tip about the names of
/// fonts is wanted.
fn answer<R, S, I, O, E>(
    rt: &R,
    words: &[S],
    input: &mut I,
    out: &mut O,
    err: &mut E,
) -> (Result<Done, Failure>, bool)
where
    R: Files + AllocGlobal + Threads + Wait + Sync,
    R::File: Send,
    S: AsStr,
    I: Read + Send,
    O: Write,
    E: Write,
    ensures silent { IfOk result.0 (λ _. ¬ (MayReport (map S.text words.now)) → err.new ≡ err.old) }
    ensures served { IfOk result.0 (λ done. IsServed (map S.text words.now) (I.remaining input.old)
        (O.contents out.old) (O.contents out.new) (done_status done)) }
    ensures untouched { IfErr result.0 (λ failure. is_stop failure ≡ false → out.new ≡ out.old) }
    ensures cause { IfErr result.0 (λ failure. is_refusal failure ≡ true
        → IsTurnedDownBy (map S.text words.now) (I.remaining input.old) failure) }
{
    match requested(rt.alloc(), words) {
        Ok(requested) => {
            warn(&requested.request, err);
            carry_out(rt, &requested, input, out, err)
        }
        Err(error) => (show(error, out), false),
    }
}

/// Writes help or the version, which `clap` returns as errors. Returns any other error as a failure.
fn show<O: Write>(error: clap::Error, out: &mut O) -> Result<Done, Failure>
    ensures answer { IfOk result (λ done. (is_answer (kind_of error) ≡ true) × (done_status done ≡ 0)) }
    ensures untouched { IfErr result (λ failure. is_stop failure ≡ false → out.new ≡ out.old) }
    ensures cause { IfErr result (λ failure. is_refusal failure ≡ true
        → (is_usage (kind_of error) ≡ true) × (failure ≡ Usage error)) }
{
    match error.kind() {
        WordsKind::DisplayHelp | WordsKind::DisplayVersion => match write!(out, "{error}") {
            Ok(()) => Ok(Done::AllSet),
            Err(_) => Err(Failure::Tool(ToolFault::Write)),
        },
        WordsKind::OutOfMemory => Err(Failure::Tool(ToolFault::OutOfMemory)),
        _ => Err(Failure::Usage(error)),
    }
}

/// Writes the message for the end of a request to `err`, if there is one, and returns the exit status. If `err`
/// fails, its error is ignored.
fn end<E: Write>(done: Done, err: &mut E) -> u8
    ensures status { result ≡ done_status done }
    ensures silent { done_status done < 2 → err.new ≡ err.old }
{
    let status = done.status();
    if status < 2 {
        return status;
    }
    if let Some(message) = done.message() {
        let _ = err.write_all(message.as_bytes());
        let _ = err.flush();
    }
    status
}

/// Writes the text of a failure to `err`, and returns the exit status. After that of a font that wasn't read comes
/// the tip if it is wanted. If `err` fails, its error is ignored.
fn fail<E: Write>(failure: Failure, tipped: bool, err: &mut E) -> u8
    ensures { result ≡ status_of failure }
{
    let _ = say(&failure, err);
    if tipped && matches!(failure, Failure::Font(_) | Failure::JobFont(_)) {
        let _ = err.write_all(FONT_TIP);
    }
    let _ = err.flush();
    failure.status()
}

/// Writes the text of a failure.
fn say<E: Write>(failure: &Failure, err: &mut E) -> io::Result<()> {
    match failure {
        Failure::Usage(error) => say_usage(error, err),
        _ => write!(err, "{failure}"),
    }
}
