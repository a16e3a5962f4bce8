//! A reader that trickles, and may fail.
use std::io;
use std::io::{ErrorKind, Read};
use std::sync::atomic::{AtomicU32, Ordering};

/// Counts the reads of a `TricklingReader`.
#[derive(Drop)]
pub struct ReadCounts {
    reads: AtomicU32,
    others: AtomicU32,
}

impl ReadCounts {
    /// Makes counts of no reads.
    pub fn new() -> ReadCounts {
        ReadCounts {
            reads: AtomicU32::new(0),
            others: AtomicU32::new(0),
        }
    }

    /// Returns the number of reads, and how many of them requested another number of bytes than 4,096.
    pub fn counts(&self) -> (u32, u32) {
        (
            self.reads.load(Ordering::SeqCst),
            self.others.load(Ordering::SeqCst),
        )
    }

    fn count(&self, requested: usize) {
        self.reads.fetch_add(1, Ordering::SeqCst);
        if requested != 4096 {
            self.others.fetch_add(1, Ordering::SeqCst);
        }
    }
}

/// A reader that returns its bytes a few at a time, and fails once its good reads are used up.
#[derive(Drop)]
pub struct TricklingReader<'a> {
    bytes: &'a [u8],
    step: usize,
    good_reads: usize,
    counts: Option<&'a ReadCounts>,
}

impl<'a> TricklingReader<'a> {
    /// Makes a reader that returns at most `step` bytes in each read, and fails after `good_reads` reads.
    pub fn new(bytes: &'a [u8], step: usize, good_reads: usize) -> TricklingReader<'a> {
        TricklingReader {
            bytes,
            step,
            good_reads,
            counts: None,
        }
    }

    /// Makes a reader that doesn't fail, and counts its reads.
    pub fn counted(bytes: &'a [u8], step: usize, counts: &'a ReadCounts) -> TricklingReader<'a> {
        TricklingReader {
            counts: Some(counts),
            ..TricklingReader::new(bytes, step, usize::MAX)
        }
    }
}

impl Read for TricklingReader<'_> {
    fn read(&mut self, buf: &mut [u8]) -> io::Result<usize> {
        if let Some(counts) = self.counts {
            counts.count(buf.len());
        }
        if self.good_reads == 0 {
            return Err(io::Error::from(ErrorKind::Other));
        }
        self.good_reads -= 1;
        let count = self.step.min(self.bytes.len()).min(buf.len());
        let (front, rest) = self.bytes.split_at(count);
        buf[..count].copy_from_slice(front);
        self.bytes = rest;
        Ok(count)
    }
}
