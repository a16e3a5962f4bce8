//! Carries out requests of all kinds.
ghost use Rattle.std.specs.Prelude.{◌≡◌, false, IfErr, IfOk};
ghost use Rattle.std.specs.Io.KnownBytes.{Appends};
ghost use Rattle.tfm_requests.specs.Causes.{IsCauseOf};
ghost use Rattle.tfm_requests.specs.Requests.{IsDone};
ghost use Rattle.tfm_requests.specs.Status.{done_status, is_stop};
ghost use Rattle.run_texts.specs.declared.fault.ToolFault.TheVariants.{Write as Unwritten};
ghost use Rattle.tfm_requests.specs.declared.failures.done.Done.TheVariants.{AllSet};
ghost use Rattle.tfm_requests.specs.declared.failures.failure.Failure.TheVariants.{Tool};

use crate::any_arguments::AnyArguments;
use crate::batches::delivery::Delivery;
use crate::batches::each::set_jobs;
use crate::batches::setting::{Batch, set_files, stream};
use crate::checking::check;
use crate::failures::done::Done;
use crate::failures::failure::Failure;
use crate::files::opening::Opens;
use crate::texts::{counts_of, listing, pairs};
use command_line::Request;
use run_texts::write_text;
use std::io::{Read, Write};
use std::sync::Wait;
use std::thread::Threads;

/// Carries out what arguments request, with the files that `files` opens: checks the arguments, reads the fonts,
/// then the encoding vector if the arguments name one, and then opens the files with lines. `input` is read for
/// the font `-`, except with `each`, and for the lines of `stream` if it names no file.
///
/// The output is complete if the result is `Ok`. After an error, nothing was written, except for
/// `Tool(OutOfMemory)` and `Tool(Write)`: after these two nothing is stated about how much was written.
pub fn perform<R, F, I, O, Q>(
    rt: &R,
    files: &F,
    arguments: &Q,
    input: &mut I,
    out: &mut O,
) -> Result<Done, Failure>
where
    R: AllocGlobal + Threads + Wait + Sync,
    F: Opens,
    I: Read + Send,
    O: Write,
    Q: AnyArguments,
    ensures text { IfOk result (λ done. IsDone (F.known files.now) (I.remaining input.old)
        (O.contents out.old) (O.contents out.new) (Q.arguments arguments.now) (done_status done)) }
    ensures untouched { IfErr result (λ failure. is_stop failure ≡ false → out.new ≡ out.old) }
    ensures cause { IfErr result
        (IsCauseOf (F.known files.now) (I.remaining input.old) (Q.arguments arguments.now)) }
{
    let requested = arguments.arguments();
    let vector = requested.vector;
    match &requested.request {
        Request::Counts { font, .. } => { written(counts_of(rt.alloc(), files, font, input)?, out) }
        Request::List(asked) => written(listing(rt.alloc(), files, asked, input)?, out),
        Request::Pairs(asked) => written(pairs(rt.alloc(), files, asked, vector, input)?, out),
        Request::Check(asked) => check(rt.alloc(), files, asked, input, out),
        Request::Set(setting) => {
            set_files(
                rt,
                files,
                &Batch::new(setting, vector, Delivery::AtTheEnd),
                input,
                out,
            )
        }
        Request::Stream(setting) => {
            stream(
                rt,
                files,
                &Batch::new(setting, vector, Delivery::AsTheyCome),
                input,
                out,
            )
        }
        Request::Each(jobs) => set_jobs(rt, files, jobs, vector, out),
    }
}

/// Writes the whole output of a request. The error is `Write` if the writer fails.
fn written<O: Write>(text: Vec<u8>, out: &mut O) -> Result<Done, Failure>
    ensures text { IfOk result (λ done. (done ≡ AllSet)
        × Appends (O.contents out.old) (O.contents out.new) text.items) }
    ensures fault { IfErr result (λ failure. failure ≡ Tool Unwritten) }
{
    match write_text(text.as_slice(), out) {
        Ok(()) => Ok(Done::AllSet),
        Err(fault) => Err(Failure::Tool(fault)),
    }
}
