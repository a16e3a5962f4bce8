ghost use Rattle.std.specs.Prelude.{◌≡◌, ◌≢◌, ◌+◌, ◌<◌, ◌≤◌, ◌^◌, ◌++◌, ◌∷◌, ℕ, List, [], IfOk, OnOk, drop, length, nat_lt, take, vec_len};
ghost use Rattle.set_line.specs.Lines.{HasNoFeed};
ghost use Rattle.line_chunks.specs.Pending.{EndsWithFeed, bytes_of, nothing};
ghost use Rattle.line_chunks.specs.Skipping.{IsLong};

use crate::cutting::up_to_last_feed;
use crate::long_line::LongLine;
use memchr::memchr;
use set_line::at_first_feed;
use std::alloc::{AllocError, Global};
use std::marker::Model;

/// The bytes that were read and aren't in a chunk yet: whole lines, and then the beginning of the next line.
#[derive(Drop)]
pub(crate) struct Pending {
    bytes: Vec<u8>,
    /// The index of the first byte of the whole lines.
    start: usize,
    /// The index after the last byte of the whole lines.
    whole: usize,
}

impl Model for Pending {
    ghost use Rattle.std.specs.Prelude.{◌≤◌, drop, length, take};
    ghost use Rattle.set_line.specs.Lines.{HasNoFeed};
    ghost use Rattle.line_chunks.specs.Pending.{EndsWithFeed, PendingValue};

    ghost Value = { PendingValue };

    ghost view = { λ p. record {
      lines = drop p.start (take p.whole p.bytes.items);
      rest = drop p.whole p.bytes.items;
    } };

    ghost invariant = { λ p. (p.start ≤ p.whole) × (p.whole ≤ length p.bytes.items)
        × EndsWithFeed (drop p.start (take p.whole p.bytes.items)) × HasNoFeed (drop p.whole p.bytes.items) };
}

impl Pending {
    /// Returns a value without bytes. This allocates no memory.
    pub(crate) fn new(alloc: Global) -> Self
        ensures { result ≡ nothing }
    {
        Pending {
            bytes: Vec::new(alloc),
            start: 0,
            whole: 0,
        }
    }

    /// Returns whether there are whole lines.
    pub(crate) fn has_lines(&self) -> bool
        ensures { result ≡ nat_lt 0 (length self.now.lines) }
    {
        self.start < self.whole
    }

    /// Returns the number of bytes of the beginning of the next line.
    pub(crate) fn rest_len(&self) -> usize
        ensures value { result ≡ length self.now.rest }
        ensures small { result < 2 ^ 63 }
    {
        self.bytes.len() - self.whole
    }

    /// Appends bytes that were read. There must be no whole lines.
    pub(crate) fn append(&mut self, read: &[u8]) -> Result<(), AllocError>
        requires { self.old.lines ≡ [] }
        ensures { OnOk result (bytes_of self.new ≡ bytes_of self.old ++ read.now) }
    {
        remove_front(&mut self.bytes, self.whole);
        self.start = 0;
        self.whole = 0;
        let kept = self.bytes.len();
        self.bytes.extend_from_slice(read)?;
        let lines = up_to_last_feed(read);
        if lines > 0 {
            self.whole = kept + lines;
        }
        Ok(())
    }

    /// Returns the bytes of the first whole lines, at most `most` of them, and removes them. There must be whole
    /// lines.
    pub(crate) fn take_lines(&mut self, alloc: Global, most: usize) -> Result<Vec<u8>, AllocError>
        requires { self.old.lines ≢ [] }
        ensures taken { IfOk result (λ lines. self.old.lines ≡ lines.items ++ self.new.lines) }
        ensures some { IfOk result (λ lines. lines.items ≢ []) }
        ensures whole { IfOk result (λ lines. EndsWithFeed lines.items) }
        ensures rest { OnOk result (self.new.rest ≡ self.old.rest) }
    {
        let lines = &self.bytes[self.start..self.whole];
        let end = end_of_lines(lines, most);
        let taken = Vec::from_slice(alloc, &lines[..end])?;
        self.start += end;
        Ok(taken)
    }

    /// Returns the beginning of the next line, and removes it. There must be no whole lines.
    pub(crate) fn take_rest(&mut self, alloc: Global) -> Result<Vec<u8>, AllocError>
        requires { self.old.lines ≡ [] }
        ensures taken { IfOk result (λ rest. rest.items ≡ self.old.rest) }
        ensures one { IfOk result (λ rest. HasNoFeed rest.items) }
        ensures none { OnOk result (self.new ≡ nothing) }
    {
        let rest = Vec::from_slice(alloc, &self.bytes[self.whole..])?;
        *self = Pending::new(alloc);
        Ok(rest)
    }

    /// Adds the beginning of the next line to a long line, and removes it. There must be no whole lines.
    pub(crate) fn skip_rest(&mut self, line: &mut LongLine)
        requires none { self.old.lines ≡ [] }
        requires room { line.old.length + length self.old.rest < 2 ^ 64 }
        ensures skipped { (bytes : List ℕ) → IsLong line.old bytes → IsLong line.new (bytes ++ self.old.rest) }
        ensures one { HasNoFeed self.old.rest }
        ensures count { line.new.length ≡ line.old.length + length self.old.rest }
        ensures none { self.new ≡ nothing }
    {
        line.add(&self.bytes[self.whole..]);
        self.bytes.clear();
        self.start = 0;
        self.whole = 0;
    }

    /// Adds the bytes before the first line feed to a long line, and removes them and the line feed. There must be
    /// whole lines.
    pub(crate) fn skip_line(&mut self, line: &mut LongLine)
        requires some { self.old.lines ≢ [] }
        requires room { line.old.length + length self.old.lines < 2 ^ 64 }
        ensures skipped { (part : List ℕ) × HasNoFeed part × (self.old.lines ≡ part ++ 10 ∷ self.new.lines)
            × ((bytes : List ℕ) → IsLong line.old bytes → IsLong line.new (bytes ++ part)) }
        ensures rest { self.new.rest ≡ self.old.rest }
    {
        if let Some((part, _)) = at_first_feed(&self.bytes[self.start..self.whole]) {
            line.add(part);
            self.start += part.len() + 1;
        }
    }
}

/// Removes this many bytes at the front.
fn remove_front(bytes: &mut Vec<u8>, count: usize)
    requires { count ≤ vec_len bytes.old }
    ensures { bytes.new.items ≡ drop count bytes.old.items }
{
    if count == 0 {
        return;
    }
    let left = bytes.len() - count;
    bytes.copy_within(count.., 0);
    bytes.truncate(left);
}

/// Returns the number of bytes of the first lines of a text, at most `most` of them, with their line feeds.
fn end_of_lines(text: &[u8], most: usize) -> usize
    requires some { text.now ≢ [] }
    requires whole { EndsWithFeed text.now }
    ensures some { 0 < result }
    ensures within { result ≤ length text.now }
    ensures whole { EndsWithFeed (take result text.now) }
{
    if most >= text.len() {
        return text.len();
    }
    let mut taken = 0;
    for _ in 0..most.max(1) {
        match memchr(b'\n', &text[taken..]) {
            Some(feed) => taken += feed + 1,
            None => return text.len(),
        }
    }
    taken
}
