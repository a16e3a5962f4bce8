//! The sources of a batch of readers, with the makers of their records.
ghost use Rattle.std.specs.Prelude.{IfOk};
ghost use Rattle.run_texts.specs.ChunkLanes.{AreReadBy};
ghost use Rattle.run_texts.specs.RunText.{style_of};

use crate::OutputOptions;
use line_chunks::{ChunkReader, RecordMaker};
use set_line::Terms;
use std::alloc::{AllocError, Global};
use std::io::Read;
use std::sync::Arc;

/// Returns each reader as a source of chunks, with the maker of its records. A chunk has at most as many lines as the
/// options state. The sources are numbered from 1. Fails if an allocation fails.
pub(crate) fn chunk_sources<R: Read + Drop, G>(
    alloc: Global,
    readers: Vec<(R, Arc<Terms>)>,
    options: &OutputOptions<'_, G>,
) -> Result<Vec<(ChunkReader<R>, RecordMaker)>, AllocError>
    ensures { IfOk result (λ sources. AreReadBy R.remaining options.now.crlf (style_of options.now)
        1 readers.items sources.items) }
{
    let mut sources = Vec::with_capacity(alloc, readers.len())?;
    for pair in readers {
        let (reader, terms) = pair;
        let number = sources.len() as u64 + 1;
        let source = ChunkReader::new(alloc, reader, options.crlf, options.most_lines());
        let maker = RecordMaker::new(alloc, terms, number, options.format);
        sources.push((source, maker.with_encoding(options.encoding)))?;
    }
    Ok(sources)
}
