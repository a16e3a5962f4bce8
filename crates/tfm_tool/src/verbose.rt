//! Carries out a request with the files of the file system, and prints what it notes on standard error.
ghost use Rattle.std.specs.Prelude.{◌≡◌, false, None, IfErr, IfOk};
ghost use Rattle.tfm_requests.specs.Causes.{IsCauseOf};
ghost use Rattle.tfm_requests.specs.Requests.{IsDone};
ghost use Rattle.tfm_requests.specs.Status.{done_status, is_stop};
ghost use Rattle.tfm_tool.specs.Verbose.{is_noted as is_noted_request};

use crate::line_scan::LineKinds;
use crate::notes::{Notes, Scope};
use crate::summary::{say_causes, say_summary};
use crate::watched::{Sink, WatchedFiles, WatchedReader, WatchedWriter, WriterName};
use command_line::{Arguments, Request};
use encodings::Encoding;
use line_chunks::LineCounts;
use std::io;
use std::io::{Read, Write};
use std::marker::Brand;
use std::rt::Files;
use std::sync::Wait;
use std::thread::Threads;
use tfm_requests::{AnyArguments, Disk, Done, Failure, FontError, JobError, Purpose, perform};

/// Returns whether a request has `--verbose`.
fn is_verbose(request: &Request<'_>) -> bool {
    match request {
        Request::Counts { verbose, .. } => *verbose,
        Request::List(asked) => asked.verbose,
        Request::Pairs(asked) => asked.verbose,
        Request::Check(asked) => asked.layout.verbose,
        Request::Set(setting) => setting.layout.verbose,
        Request::Stream(setting) => setting.layout.verbose,
        Request::Each(jobs) => jobs.layout.verbose,
    }
}

/// Returns whether a request prints notes while it is carried out: `check` and `stream` do, and any other with
/// `--verbose`.
fn is_noted(request: &Request<'_>) -> bool
    ensures { result ≡ is_noted_request request.now }
{
    match request {
        Request::Counts { verbose, .. } => *verbose,
        Request::List(asked) => asked.verbose,
        Request::Pairs(asked) => asked.verbose,
        Request::Set(setting) => setting.layout.verbose,
        Request::Each(jobs) => jobs.layout.verbose,
        Request::Check(_) | Request::Stream(_) => true,
    }
}

/// Returns whether a request sets lines, and if so, whether it has `--crlf`.
fn crlf_of(request: &Request<'_>) -> Option<bool> {
    match request {
        Request::Set(setting) | Request::Stream(setting) => Some(setting.layout.crlf),
        Request::Each(jobs) => Some(jobs.layout.crlf),
        _ => None,
    }
}

/// Returns what is noted of a request. `pairs` notes the causes of errors, which it prints if it fails.
fn scope_of(requested: &Arguments<'_>) -> Scope {
    let request = &requested.request;
    let (verbose, encoding) = (is_verbose(request), encoding_of(request));
    let streams = matches!(request, Request::Stream(_));
    let keeps_returns = crlf_of(request) == Some(false);
    Scope {
        causes: is_noted(request) || matches!(request, Request::Pairs(_)),
        verbose,
        wanted: LineKinds {
            text: streams && encoding.is_none() && requested.vector.is_none(),
            returns: streams && keeps_returns,
        },
        counts_returns: verbose && keeps_returns,
        has_summary: verbose && crlf_of(request).is_some(),
        encoding: if verbose || streams { encoding } else { None },
    }
}

/// Returns the encoding of a request, if it has one.
fn encoding_of(request: &Request<'_>) -> Option<Encoding<'static>> {
    match request {
        Request::Pairs(asked) => asked.layout.encoding,
        Request::Set(setting) | Request::Stream(setting) => setting.layout.encoding,
        Request::Each(jobs) => jobs.layout.encoding,
        _ => None,
    }
}

/// Returns what a request reads standard input as.
fn purpose_of_input(request: &Request<'_>) -> Purpose {
    match request {
        Request::Stream(setting) if setting.files.is_empty() => Purpose::Lines,
        Request::Check(asked) if asked.list == Some("-") => Purpose::List,
        _ => Purpose::Font,
    }
}

/// A request that was carried out, and what was noted of it.
#[derive(Drop)]
struct Ending {
    /// The notes.
    notes: Notes,
    /// How it ended.
    done: Result<Done, Failure>,
    /// The numbers of lines that were set and refused, if the output accepted bytes.
    lines: Option<LineCounts>,
    /// The first error of the output.
    error: Option<io::Error>,
}

/// Carries out what arguments request as `perform` does, with the files of the file system. What is noted is printed
/// on `err`, whose errors are ignored: at once if the request is one that prints notes, or if `pairs` fails. Also
/// returns whether the tip about a font that wasn't found is wanted.
pub(crate) fn carry_out<R, I, O, E>(
    rt: &R,
    requested: &Arguments<'_>,
    input: &mut I,
    out: &mut O,
    err: &mut E,
) -> (Result<Done, Failure>, bool)
where
    R: Files + AllocGlobal + Threads + Wait + Sync,
    R::File: Send,
    I: Read + Send,
    O: Write,
    E: Write,
    ensures silent { IfOk result.0 (λ _. is_noted_request requested.now.request ≡ false
        → err.new ≡ err.old) }
    ensures text { IfOk result.0 (λ done. IsDone (λ _. None) (I.remaining input.old)
        (O.contents out.old) (O.contents out.new) requested.now (done_status done)) }
    ensures untouched { IfErr result.0 (λ failure. is_stop failure ≡ false → out.new ≡ out.old) }
    ensures cause { IfErr result.0 (IsCauseOf (λ _. None) (I.remaining input.old) requested.now) }
{
    if is_noted(&requested.request) {
        let ending = note_all::<R, I, O, E, Arguments<'_>>(
            rt,
            requested,
            input,
            out,
            Some(&mut *err),
        );
        return report(rt, ending, err);
    }
    // For the borrow checker: a type without lifetimes; it has no rule for a `None` of `&mut E`.
    let ending = note_all::<R, I, O, Vec<u8>, Arguments<'_>>(rt, requested, input, out, None);
    if ending.done.is_ok() {
        return (ending.done, false);
    }
    report(rt, ending, err)
}

/// Prints what was noted and not yet printed. Returns how the request ended, and whether the tip is wanted.
fn report<R: Wait, E: Write>(rt: &R, ending: Ending, err: &mut E) -> (Result<Done, Failure>, bool)
    ensures { result.0 ≡ ending.done }
{
    let Ending {
        notes,
        done,
        lines,
        error,
    } = ending;
    if is_refused(&done) {
        notes.note_kind(rt);
    }
    notes.print(rt, err);
    let _ = say_causes(&notes, error, err);
    if let (true, Some(lines)) = (notes.has_summary(), &lines) {
        let _ = say_summary(lines, err);
    }
    let _ = err.flush();
    (done, notes.has_bare_unfound())
}

/// Returns whether a request failed because its font is refused.
fn is_refused(done: &Result<Done, Failure>) -> bool {
    matches!(
        done,
        Err(Failure::Font(FontError::Refused(_)) | Failure::JobFont(JobError::Refused(_, _)))
    )
}

/// Carries out what arguments request as `perform` does, with the files of the file system, and notes what it sees.
/// If there is a second writer, what is noted is printed there before the next output.
fn note_all<R, I, O, E, Q>(
    rt: &R,
    arguments: &Q,
    input: &mut I,
    out: &mut O,
    err: Option<&mut E>,
) -> Ending
where
    R: Files + AllocGlobal + Threads + Wait + Sync,
    R::File: Send,
    I: Read + Send,
    O: Write,
    E: Write,
    Q: AnyArguments,
    ensures text { IfOk result.done (λ done. IsDone (λ _. None) (I.remaining input.old)
        (O.contents out.old) (O.contents out.new) (Q.arguments arguments.now) (done_status done)) }
    ensures untouched { IfErr result.done (λ failure. is_stop failure ≡ false → out.new ≡ out.old) }
    ensures cause { IfErr result.done
        (IsCauseOf (λ _. None) (I.remaining input.old) (Q.arguments arguments.now)) }
{
    let notes = Notes::new(rt.alloc(), scope_of(arguments.arguments()));
    let sink = Sink {
        out,
        err,
        lines: None,
        error: None,
    };
    let (sink, done) = perform_watched::<R, I, O, E, Brand, Q>(rt, &notes, arguments, input, sink);
    let Sink {
        out: writer,
        err: _,
        lines,
        error,
    } = sink;
    // For the proof: this use of `writer` shows what `out` holds.
    let _ = &*writer;
    Ending {
        notes,
        done,
        lines,
        error,
    }
}

/// Carries out what arguments request as `perform` does, with the files of the file system, and notes errors and
/// counts.
fn perform_watched<'a, R, I, O, E, K, Q>(
    rt: &R,
    notes: &Notes,
    arguments: &Q,
    input: &mut I,
    sink: Sink<'a, O, E>,
) -> (Sink<'a, O, E>, Result<Done, Failure>)
where
    R: Files + AllocGlobal + Threads + Wait + Sync,
    R::File: Send,
    I: Read + Send,
    O: Write,
    E: Write,
    K: WriterName,
    Q: AnyArguments,
    requires { sink.out.ghost_name ≡ K.name }
    ensures same_reference { result.0.out.ghost_name ≡ sink.entry.out.ghost_name }
    ensures text { IfOk result.1 (λ done. IsDone (λ _. None) (I.remaining input.old)
        (O.contents sink.entry.out.now) (O.contents result.0.out.now)
        (Q.arguments arguments.now) (done_status done)) }
    ensures untouched { IfErr result.1 (λ failure. is_stop failure ≡ false
        → result.0.out.now ≡ sink.entry.out.now) }
    ensures cause { IfErr result.1
        (IsCauseOf (λ _. None) (I.remaining input.old) (Q.arguments arguments.now)) }
{
    let purpose = purpose_of_input(&arguments.arguments().request);
    let files = WatchedFiles::new(rt, Disk::new(rt), notes);
    let mut input = WatchedReader::new(rt, notes, input, "standard input", purpose);
    let mut out: WatchedWriter<'a, '_, '_, R, O, E, K> = WatchedWriter::new(rt, notes, sink);
    let done = perform(rt, &files, arguments, &mut input, &mut out);
    (out.into_sink(files.lines.get()), done)
}
