//! The warning for a size of less than one point that was given without a unit.
ghost use Rattle.std.specs.Prelude.{◌≡◌, None, OnOk};
ghost use Rattle.std.specs.Io.KnownBytes.{Appends};
ghost use Rattle.tfm_tool.specs.Warnings.{small_size, warned_size as warned_size_of, warning_text};

use command_line::Request;
use std::io;
use std::io::Write;
use tfm_words::Size;

/// Writes to `err` the warning for the size of a request, if it has one. If `err` fails, its error is ignored.
pub(crate) fn warn<E: Write>(request: &Request<'_>, err: &mut E)
    ensures { warned_size_of request.now ≡ None → err.new ≡ err.old }
{
    if let Some(size) = warned_size(request) {
        let _ = say_size(size, err);
        let _ = err.flush();
    }
}

/// Returns the size of which a request warns, in sp, if it has one.
fn warned_size(request: &Request<'_>) -> Option<u32>
    ensures { result ≡ warned_size_of request.now }
{
    match request {
        Request::List(asked) if asked.verbose => small(asked.size, asked.plain_size),
        Request::Pairs(asked) => small(asked.size, asked.plain_size),
        Request::Set(setting) if setting.layout.verbose => {
            small(setting.layout.size, setting.layout.plain_size)
        }
        Request::Stream(setting) => small(setting.layout.size, setting.layout.plain_size),
        Request::Each(jobs) if jobs.layout.verbose => {
            small(jobs.layout.size, jobs.layout.plain_size)
        }
        _ => None,
    }
}

/// Returns this size in sp, if there is one, it was given without a unit, and it is below one point.
fn small(size: Option<Size>, is_plain: bool) -> Option<u32>
    ensures { result ≡ small_size size is_plain }
{
    if !is_plain {
        return None;
    }
    let size = size?.get();
    if size < 0x1_0000 { Some(size) } else { None }
}

/// Writes the line of the warning.
fn say_size<E: Write>(size: u32, err: &mut E) -> io::Result<()>
    ensures { OnOk result (Appends (E.contents err.old) (E.contents err.new) (warning_text size)) }
{
    writeln!(
        err,
        "tfmset: size {size} is {size} scaled points; for points write {size}pt"
    )
}
