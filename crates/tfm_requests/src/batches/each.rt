//! The subcommand `each`.
ghost use Rattle.std.specs.Prelude.{◌≡◌, false, IfErr, IfOk};
ghost use Rattle.tfm_requests.specs.Causes.{IsJobsCause};
ghost use Rattle.tfm_requests.specs.Requests.{IsEachSet};
ghost use Rattle.tfm_requests.specs.Status.{done_status, is_stop};

use crate::batches::delivery::{Delivery, Output, set_readers};
use crate::batches::jobs::{all_terms, jobs_of};
use crate::failures::done::Done;
use crate::failures::failure::Failure;
use crate::files::opening::Opens;
use crate::files::sources::open_each;
use crate::files::vectors::encoding_of;
use command_line::Jobs;
use std::io::Write;
use std::sync::Wait;
use std::thread::Threads;

/// Does what `each` requests: reads the fonts and the encoding vector, opens the files, sets the lines of each
/// file with the font and the limit of its job, and writes the output.
pub(crate) fn set_jobs<R, F, O>(
    rt: &R,
    files: &F,
    asked: &Jobs<'_>,
    vector: Option<&str>,
    out: &mut O,
) -> Result<Done, Failure>
where
    R: AllocGlobal + Threads + Wait + Sync,
    F: Opens,
    O: Write,
    ensures text { IfOk result (λ done. IsEachSet (F.known files.now)
        (O.contents out.old) (O.contents out.new) asked.now vector.entry (done_status done)) }
    ensures untouched { IfErr result (λ failure. is_stop failure ≡ false → out.new ≡ out.old) }
    ensures cause { IfErr result (IsJobsCause (F.known files.now) asked.now vector.entry) }
{
    let given = jobs_of(rt.alloc(), asked.words.as_slice())?;
    let with_terms = all_terms(rt.alloc(), files, given.as_slice(), &asked.layout)?;
    let encoding = encoding_of(rt.alloc(), files, vector, asked.layout.encoding)?;
    let readers = open_each(rt.alloc(), files, with_terms, &asked.layout)?;
    let output = Output {
        layout: &asked.layout,
        encoding,
        delivery: Delivery::AtTheEnd,
        counts: files.counts(),
    };
    Ok(set_readers(rt, readers, &output, out)?)
}
