//! A stream whose input has a line only once the record of the line before was flushed, as for a program that sends
//! one line after another at the other end of two pipes.
use super::doubles::{NO_OUTPUT, carry_out, check, words_of};
use std::io::{ErrorKind, Read, Write};
use std::sync::atomic::{AtomicU64, Ordering};
use std::{io, thread};
use test_support::fonts::files::PLAIN;
use tfm_tool::InMemory;

/// How often it is looked whether a record was flushed, at most: a stream that keeps records fails by that.
const LOOKS: u64 = 20_000_000;

/// Pieces of a text, each with the number of records that are flushed before it is there.
type Pieces<'a> = &'a [(&'a str, u64)];

/// A reader that waits, before each piece, for records.
#[derive(Drop)]
struct WaitingReader<'a> {
    pieces: Pieces<'a>,
    flushed: &'a AtomicU64,
}

impl Read for WaitingReader<'_> {
    fn read(&mut self, buf: &mut [u8]) -> io::Result<usize> {
        let [(piece, records), rest @ ..] = self.pieces else {
            return Ok(0);
        };
        for _ in 0..LOOKS {
            if self.flushed.load(Ordering::SeqCst) >= *records {
                let count = piece.len().min(buf.len());
                buf[..count].copy_from_slice(&piece.as_bytes()[..count]);
                self.pieces = rest;
                return Ok(count);
            }
            thread::yield_now();
        }
        Err(io::Error::from(ErrorKind::Other))
    }
}

/// A writer that counts its lines when it is flushed. The first flush may fail.
#[derive(Drop)]
struct CountingWriter<'a> {
    text: Vec<u8>,
    flushed: &'a AtomicU64,
    fails: bool,
}

impl Write for CountingWriter<'_> {
    fn write(&mut self, buf: &[u8]) -> io::Result<usize> {
        self.text.extend_from_slice(buf)?;
        Ok(buf.len())
    }

    fn flush(&mut self) -> io::Result<()> {
        let lines = self.text.iter().filter(|byte| **byte == b'\n').count();
        self.flushed.store(lines as u64, Ordering::SeqCst);
        if self.fails {
            self.fails = false;
            return Err(io::Error::from(ErrorKind::Other));
        }
        Ok(())
    }
}

const RECORDS: &str = "1:1 set 327680 c97=327680\n1:2 set 163840 c98=163840\n\
    1:3 set 491520 c99=491520\n1 end complete 3\n";

/// Arguments, the pieces of the input, whether the first flush fails, after which each later one would succeed, and the
/// exit status and the message. Each piece comes when all lines that the pieces before it complete have their records.
static STREAMS: [(&str, Pieces<'static>, bool, u8, &str); 6] = table! {
    "stream plain", &[("a\n", 0), ("b\n", 1), ("c\n", 2), ("", 3)], false, 0, "";
    "stream plain", &[("a\n", 0), ("b\n", 1), ("c\n", 2), ("", 3)], true, 5, NO_OUTPUT;
    "stream --block 8 plain", &[("a\nb", 0), ("\nc", 1), ("\n", 2), ("", 3)], false, 0, "";
    "stream --block 2 --workers 1 plain", &[("a\nb\nc\n", 0), ("", 3)], false, 0, "";
    "stream --block 1 --workers 3 plain", &[("a\nb\nc", 0), ("", 2)], false, 0, "";
    "stream --crlf plain", &[("a\r", 0), ("\nb\r\nc", 0), ("\r", 2), ("\n", 2), ("", 3)], false, 0, "";
};

// Mutants: `flush` of `Stream` (`stream.rt` of `run_texts`) ignores the error of the flush; a chunk waits for more lines.
#[test]
fn each_record_is_flushed_before_more_is_there(rt: HostRuntime) {
    let files = [("plain", PLAIN.as_slice())];
    for (words, pieces, fails, status, message) in &STREAMS {
        let given = words_of(&rt, words, "");
        let flushed = AtomicU64::new(0);
        let mut input = WaitingReader {
            pieces,
            flushed: &flushed,
        };
        let mut out = CountingWriter {
            text: Vec::new(rt.alloc()),
            flushed: &flushed,
            fails: *fails,
        };
        let done = carry_out(&rt, &InMemory::new(&files), &given, &mut input, &mut out);
        let whole = *fails || out.text.as_slice() == RECORDS.as_bytes();
        let holds = done.0 == *status && done.1.as_str() == *message && whole;
        check(&rt, holds, words, usize::from(done.0));
    }
}
