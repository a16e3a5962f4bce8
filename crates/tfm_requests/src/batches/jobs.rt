//! The jobs of `each`: triples of a font, a limit and a file.

ghost use Rattle.std.specs.Prelude.{◌≡◌, map, Some, IfErr, IfOk};
ghost use Rattle.std.specs.Arc.{arc_value};
ghost use Rattle.std.specs.Char.{is_ascii_digit};
ghost use Rattle.std.specs.List.{AllZip, list_all};
ghost use Rattle.command_line.specs.Asked.{Finds};
ghost use Rattle.tfm_requests.specs.Causes.{IsFontError, IsJobError};
ghost use Rattle.tfm_requests.specs.Errors.{job_error_of};
ghost use Rattle.tfm_requests.specs.Jobs.{AreTermsFor, AreTermsOf, AreWordsOfJobs, HasTermsOf, IsErrorOfWords, IsLimitOf, job_value, jobs_in};

use crate::failures::errors::{FontError, JobError, RequestError};
use crate::files::opening::{Opens, Purpose};
use crate::files::reading::file_bytes;
use batch::MOST_SOURCES;
use command_line::Layout;
use run_texts::{FontSetting, terms_of};
use set_line::{Limit, Terms};
use std::alloc::Global;
use std::sync::Arc;

/// A job: the name of its font, the largest number of steps for a line, and the name of its file with lines.
/// Both names are those of files, also the name `-`.
#[derive(Clone, Copy)]
pub(crate) struct Job<'a> {
    pub font: &'a str,
    pub limit: Limit,
    pub file: &'a str,
}

/// Returns whether each byte is a decimal digit.
fn is_in_digits(word: &str) -> bool
    ensures { result ≡ list_all is_ascii_digit word.now }
{
    word.bytes().all(|byte| byte.is_ascii_digit())
}

/// Returns the limit that an argument contains: one to eight decimal digits, with a value from 1 to
/// 16,777,216. Returns `None` for any other argument.
#[tactic(auto, using(crate::proofs::EachLemmas::has_no_plus))]
fn limit_of(word: &str) -> Option<Limit>
    ensures { Finds (IsLimitOf word.now) result }
{
    if word.len() > 8 || !is_in_digits(word) {
        return None;
    }
    Limit::new(word.parse().ok()?)
}

/// Returns the jobs that these arguments request. No font is read. Errors, in the order in which they are
/// checked: `NotInThrees`; `TooManyFiles`; then, whichever comes first, `LimitRange` with the number of the
/// first wrong limit, or a failed allocation.
pub(crate) fn jobs_of<'a>(alloc: Global, words: &[&'a str]) -> Result<Vec<Job<'a>>, RequestError>
    ensures jobs { IfOk result (λ jobs. map job_value jobs.items ≡ jobs_in words.now) }
    ensures lawful { IfOk result (λ _. AreWordsOfJobs words.now) }
    ensures refused { IfErr result (IsErrorOfWords words.now) }
{
    if words.len() % 3 != 0 {
        return Err(RequestError::NotInThrees);
    }
    if words.len() / 3 > MOST_SOURCES {
        return Err(RequestError::TooManyFiles);
    }
    let mut jobs = Vec::new(alloc);
    for words in words.chunks(3) {
        let [font, limit, file] = *words else {
            return Err(RequestError::NotInThrees);
        };
        let Some(limit) = limit_of(limit) else {
            return Err(RequestError::LimitRange(jobs.len() + 1));
        };
        if jobs.push(Job { font, limit, file }).is_err() {
            return Err(RequestError::OutOfMemory);
        }
    }
    Ok(jobs)
}

/// Reads the font of a job, and returns the settings of its lines.
fn job_terms<F: Opens>(
    alloc: Global,
    files: &F,
    job: &Job<'_>,
    layout: &Layout,
) -> Result<Arc<Terms>, FontError>
    ensures terms { IfOk result (λ terms.
        AreTermsOf (F.known files.now) layout.now (job_value job.now) (arc_value terms)) }
    ensures cause { IfErr result (IsFontError (F.known files.now job.now.font.now)) }
{
    let bytes = file_bytes(alloc, files, job.font, Purpose::Font)?;
    font_terms(alloc, bytes.as_slice(), layout, job.limit)
}

/// Returns the settings of lines for the font in these bytes.
pub(crate) fn font_terms(
    alloc: Global,
    bytes: &[u8],
    layout: &Layout,
    limit: Limit,
) -> Result<Arc<Terms>, FontError>
    ensures terms { IfOk result (λ terms.
        AreTermsFor (Some bytes.now) layout.now limit (arc_value terms)) }
    ensures cause { IfErr result (IsFontError (Some bytes.now)) }
{
    let font = FontSetting {
        bytes,
        size: layout.size,
        limit,
        policy: layout.policy,
    };
    Ok(terms_of(alloc, &font)?)
}

/// Reads the font of each job in order. Returns the names of the files, each with the settings of its job.
/// The error is that of the first job whose font isn't read or is refused, or that an allocation failed.
pub(crate) fn all_terms<'a, F: Opens>(
    alloc: Global,
    files: &F,
    jobs: &[Job<'a>],
    layout: &Layout,
) -> Result<Vec<(&'a str, Arc<Terms>)>, JobError>
    ensures terms { IfOk result (λ all.
        AllZip (HasTermsOf (F.known files.now) layout.now) jobs.now all.items) }
    ensures cause { IfErr result
        (IsJobError (F.known files.now) layout.now (map job_value jobs.now)) }
{
    let mut all = Vec::new(alloc);
    for job in jobs {
        match job_terms(alloc, files, job, layout) {
            Ok(terms) => all
                .push((job.file, terms))
                .map_err(|_| JobError::OutOfMemory)?,
            Err(error) => return Err(numbered(all.len() + 1, error)),
        }
    }
    Ok(all)
}

/// Returns the error of the font of the job with this number.
fn numbered(number: usize, error: FontError) -> JobError
    ensures { result ≡ job_error_of number error }
{
    match error {
        FontError::NotRead => JobError::NotRead(number),
        FontError::Refused(fault) => JobError::Refused(number, fault),
        FontError::OutOfMemory => JobError::OutOfMemory,
    }
}
