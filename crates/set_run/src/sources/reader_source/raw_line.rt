ghost use Rattle.std.specs.Prelude.{IfOk};
ghost use Rattle.std.specs.Io.KnownBytes.{prepend_known};
ghost use Rattle.set_run.specs.Reading.{TakesRawLine};

use crate::sources::reader_source::buffer::Buffer;
use batch::MOST_READS;
use lanes::SourceFault;
use std::alloc::Global;
use std::io::Read;

/// The bytes before a line feed or before the end of the reader.
#[derive(Drop)]
pub(crate) enum RawLine {
    /// These bytes were followed by a line feed.
    Ended(Vec<u8>),
    /// These bytes were followed by the end of the reader.
    Last(Vec<u8>),
}

/// Returns the next raw line, from the bytes in the buffer and those that are read. A read that is
/// interrupted is made again, and counts. The error is `OutOfMemory` if an allocation failed, `Read` if a
/// read failed, and `ReadBound` if 1,048,576 reads contain neither a line feed nor the end.
pub(crate) fn next_raw_line<R: Read>(
    alloc: Global,
    reader: &mut R,
    buffer: &mut Buffer,
) -> Result<RawLine, SourceFault>
    ensures { IfOk result (λ raw_line. TakesRawLine (prepend_known buffer.old (R.remaining reader.old))
        raw_line (prepend_known buffer.new (R.remaining reader.new))) }
{
    let mut line = Vec::new(alloc);
    if buffer.move_line(&mut line)? {
        return Ok(RawLine::Ended(line));
    }
    for _ in 0..MOST_READS {
        if buffer.refill(alloc, reader)? {
            return Ok(RawLine::Last(line));
        }
        if buffer.move_line(&mut line)? {
            return Ok(RawLine::Ended(line));
        }
    }
    Err(SourceFault::ReadBound)
}
