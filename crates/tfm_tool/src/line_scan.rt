//! Looks in the first lines of a file for what makes a number of `stream` wrong: text in UTF-8 that is set byte by
//! byte, and carriage returns.
use std::simd::prelude::*;

/// The number of first bytes of a file that are looked at.
const LOOKED_AT: usize = 65_536;

/// What is looked for.
#[derive(Clone, Copy)]
pub(crate) struct LineKinds {
    /// A line that is UTF-8 and has a byte above 127.
    pub text: bool,
    /// A line that ends with a carriage return.
    pub returns: bool,
}

/// The line numbers of the first lines that were found.
#[derive(Clone, Copy)]
pub(crate) struct FirstLines {
    pub text: Option<u64>,
    pub returns: Option<u64>,
}

/// What the bytes of a line show so far.
#[derive(Clone, Copy)]
struct LineStart {
    /// The last byte, or 0.
    last: u8,
    /// Whether there is a byte above 127.
    is_high: bool,
    /// Whether the bytes begin a text in UTF-8.
    is_text: bool,
    /// The number of bytes that the last character still needs.
    needed: u8,
    /// The smallest and the largest value of the next of these bytes.
    range: (u8, u8),
}

/// A line without bytes.
const EMPTY: LineStart = LineStart {
    last: 0,
    is_high: false,
    is_text: true,
    needed: 0,
    range: (0x80, 0xbf),
};

impl LineStart {
    /// Adds a byte, which is not a line feed.
    fn push(&mut self, byte: u8) {
        self.last = byte;
        if byte >= 0x80 {
            self.push_high(byte);
        } else if self.needed > 0 {
            self.is_text = false;
        }
    }

    /// Adds a byte above 127: it begins a character, or continues one.
    fn push_high(&mut self, byte: u8) {
        self.is_high = true;
        if self.needed > 0 {
            let (first, last) = self.range;
            self.is_text &= first <= byte && byte <= last;
            self.needed -= 1;
            self.range = (0x80, 0xbf);
            return;
        }
        let (needed, range) = match byte {
            0xc2..=0xdf => (1, (0x80, 0xbf)),
            0xe0 => (2, (0xa0, 0xbf)),
            0xed => (2, (0x80, 0x9f)),
            0xe1..=0xef => (2, (0x80, 0xbf)),
            0xf0 => (3, (0x90, 0xbf)),
            0xf1..=0xf3 => (3, (0x80, 0xbf)),
            0xf4 => (3, (0x80, 0x8f)),
            _ => {
                self.is_text = false;
                return;
            }
        };
        self.needed = needed;
        self.range = range;
    }

    /// Returns whether the bytes are a text in UTF-8 with a character above 127.
    fn is_wide_text(&self) -> bool {
        self.is_high && self.is_text && self.needed == 0
    }
}

/// The part of a file that was looked at.
#[derive(Clone, Copy, Drop)]
pub(crate) struct LineScan {
    /// The number of bytes that are still looked at.
    left: usize,
    /// The number of the line that isn't complete.
    number: u64,
    line: LineStart,
}

/// Returns whether one of these bytes is a carriage return or above 127, and how many are line feeds.
fn summary(bytes: &[u8]) -> (bool, u64) {
    let (mut is_marked, mut feeds) = (false, 0u64);
    let (parts, rest) = bytes.as_chunks::<32>();
    for byte in rest {
        is_marked |= *byte >= 0x80 || *byte == b'\r';
        feeds = feeds.saturating_add(u64::from(*byte == b'\n'));
    }
    for part in parts {
        let part = u8x32::from_array(*part);
        let marks = part.simd_ge(u8x32::splat(0x80)) | part.simd_eq(u8x32::splat(b'\r'));
        is_marked |= marks.to_bitmask() != 0;
        let lines = part.simd_eq(u8x32::splat(b'\n')).to_bitmask();
        feeds = feeds.saturating_add(u64::from(lines.count_ones()));
    }
    (is_marked, feeds)
}

impl LineScan {
    /// Returns the start of a file.
    pub fn new() -> Self {
        LineScan {
            left: LOOKED_AT,
            number: 1,
            line: EMPTY,
        }
    }

    /// Looks at the next bytes of the file, of which there are none at its end. Returns what is wanted and found.
    pub fn look(&mut self, bytes: &[u8], wanted: LineKinds) -> FirstLines {
        let mut found = FirstLines {
            text: None,
            returns: None,
        };
        if bytes.is_empty() {
            self.end_line(wanted, &mut found);
            return found;
        }
        let (looked_at, others) = bytes.split_at(bytes.len().min(self.left));
        self.left -= looked_at.len();
        let (is_marked, feeds) = summary(looked_at);
        if is_marked || self.line.is_high || self.line.last == b'\r' {
            self.look_closely(looked_at, wanted, &mut found);
        } else {
            self.number = self.number.saturating_add(feeds);
        }
        if !others.is_empty() {
            // The end of this line isn't looked at.
            self.line = EMPTY;
        }
        found
    }

    /// Looks at each of these bytes.
    fn look_closely(&mut self, bytes: &[u8], wanted: LineKinds, found: &mut FirstLines) {
        for byte in bytes {
            if *byte == b'\n' {
                if wanted.returns && self.line.last == b'\r' {
                    found.returns = found.returns.or(Some(self.number));
                }
                self.end_line(wanted, found);
            } else {
                self.line.push(*byte);
            }
        }
    }

    /// Ends a line.
    fn end_line(&mut self, wanted: LineKinds, found: &mut FirstLines) {
        if wanted.text && self.line.is_wide_text() {
            found.text = found.text.or(Some(self.number));
        }
        self.number = self.number.saturating_add(1);
        self.line = EMPTY;
    }
}
