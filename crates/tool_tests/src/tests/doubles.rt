//! Calls of `tool` and of `perform`, over readers, writers and files that fail, are interrupted, or are counted.
use std::alloc::Global;
use std::env::Env;
use std::io::{ErrorKind, Read, Write};
use std::process::Abort;
use std::rt::Files;
use std::sync::Wait;
use std::sync::atomic::{AtomicU64, Ordering};
use std::thread::Threads;
use std::{env, fs, io};
use test_support::fonts::files::PLAIN;
use test_support::{FailingWriter, TricklingReader};
use tfm_tool::{Opens, Purpose, perform, requested, tool};

/// The counts of the font without characters.
pub const COUNTS: &str =
    "lf 12\nlh 2\nbc 1\nec 0\nnw 1\nnh 1\nnd 1\nni 1\nnl 0\nnk 0\nne 0\nnp 0\ndesign 327680\n";

/// The listing of the font `plain`.
pub const LISTING: &str = "checksum 0\ndesign 655360\nsize 655360\nright none\nleft none\n\
    char 97 width 327680 height 0 depth 0 italic 0 tag none\n\
    char 98 width 163840 height 0 depth 0 italic 0 tag none\n\
    char 99 width 491520 height 0 depth 0 italic 0 tag none\n\
    param 1 0\nparam 2 218453\n";

pub const NO_FONT: &str = "tfmset: font not read\n";

pub const SOME_FONT: &str = "tfmset: some font was not read\n";

pub const NOT_ENDED: &str = "tfmset: some file was not read to its end\n";

pub const NO_OUTPUT: &str = "tfmset: output failed\n";

/// How the reads and the writes of a call go.
#[derive(Clone, Copy)]
pub struct Ways {
    /// The largest number of bytes of a read or a write.
    pub step: usize,
    /// The number of interruptions before each read, and of those before each write, which are at most 100.
    pub interruptions: usize,
    /// The number of reads after which the next one fails.
    pub reads: usize,
    /// The number of writes to the output after which the next one fails.
    pub writes: usize,
    /// Whether the output can be flushed.
    pub flushes: bool,
    /// Whether standard error takes bytes, and can be flushed.
    pub errors: bool,
}

impl Ways {
    /// Returns the ways of a file with this name, if only reads of the file `failing` fail.
    pub fn of(&self, name: &str, failing: &str) -> Ways {
        if name == failing {
            return *self;
        }
        Ways {
            reads: usize::MAX,
            ..*self
        }
    }
}

/// No read and no write fails.
pub const FREE: Ways = Ways {
    step: usize::MAX,
    interruptions: 0,
    reads: usize::MAX,
    writes: usize::MAX,
    flushes: true,
    errors: true,
};

/// Ways with several numbers of bytes and of interruptions.
pub const INTERRUPTED: &[Ways] = &table! {
    FREE; ways!(interruptions = 1); ways!(interruptions = 100); ways!(step = 1, interruptions = 1);
    ways!(step = 7, interruptions = 3); ways!(step = 10, interruptions = 5); ways!(step = 4096, interruptions = 2);
};

/// Fails with this case and this number unless `holds` is true.
pub fn check<R: Abort>(rt: &R, holds: bool, case: &str, number: usize) {
    assert!(rt; holds, "{case}, {number}");
}

/// A reader or a writer that is interrupted several times before each read or write.
#[derive(Drop)]
pub struct Interrupted<T> {
    pub inner: T,
    interruptions: usize,
    /// The number of interruptions before the next call that is passed on.
    left: usize,
}

impl<T> Interrupted<T> {
    fn new(inner: T, interruptions: usize) -> Interrupted<T> {
        Interrupted {
            inner,
            interruptions,
            left: interruptions,
        }
    }

    fn interrupt(&mut self) -> io::Result<()> {
        if self.left > 0 {
            self.left -= 1;
            return Err(io::Error::from(ErrorKind::Interrupted));
        }
        self.left = self.interruptions;
        Ok(())
    }
}

impl<T: Read> Read for Interrupted<T> {
    fn read(&mut self, buf: &mut [u8]) -> io::Result<usize> {
        self.interrupt()?;
        self.inner.read(buf)
    }
}

impl<T: Write> Write for Interrupted<T> {
    fn write(&mut self, buf: &[u8]) -> io::Result<usize> {
        self.interrupt()?;
        self.inner.write(buf)
    }

    fn flush(&mut self) -> io::Result<()> {
        self.inner.flush()
    }
}

/// Returns a reader of these bytes.
pub fn reader<'a>(bytes: &'a [u8], ways: &Ways) -> Interrupted<TricklingReader<'a>> {
    let reader = TricklingReader::new(bytes, ways.step, ways.reads);
    Interrupted::new(reader, ways.interruptions)
}

/// Returns an output without bytes.
pub fn writer(alloc: Global, ways: &Ways) -> Interrupted<FailingWriter> {
    let writer = FailingWriter::new(alloc, ways.step, ways.writes, ways.flushes);
    Interrupted::new(writer, ways.interruptions.min(100))
}

/// The exit status, the output, and the text on standard error.
pub type Ended<'a> = (u8, &'a str, &'a str);

/// Whether a call ended in this way. With exit status 5 the output is a beginning of this one, or anything if this one
/// is empty.
pub fn is_ended((status, out, err): (u8, &[u8], &[u8]), wanted: Ended<'_>) -> bool {
    let whole = wanted.1.as_bytes();
    let cut = status == 5 && (whole.is_empty() || whole.starts_with(out));
    status == wanted.0 && (cut || out == whole) && err == wanted.2.as_bytes()
}

/// Returns the arguments in a text. `FONT` stands for this name.
pub fn words_of<'a, R: Abort + AllocGlobal>(rt: &R, text: &'a str, font: &'a str) -> Vec<&'a str> {
    let mut words = Vec::new(rt.alloc());
    for word in text.split_whitespace() {
        let word = if word == "FONT" { font } else { word };
        words.push(word).expect(rt, "memory");
    }
    words
}

/// Calls of `tool` with these arguments, of which `FONT` is the file `font`, and this standard input end in this way,
/// whichever way reads and writes go.
pub fn ends<R: Abort + Files + Threads + Wait + Sync + AllocGlobal>(
    rt: &R,
    (words, font): (&str, &str),
    input: &[u8],
    all: &[Ways],
    wanted: Ended<'_>,
)
where
    R::File: Send,
{
    let given = words_of(rt, words, font);
    for (number, ways) in all.iter().enumerate() {
        let mut input = reader(input, ways);
        let mut out = writer(rt.alloc(), ways);
        let writes = if ways.errors { usize::MAX } else { 0 };
        let mut err = FailingWriter::new(rt.alloc(), usize::MAX, writes, ways.errors);
        let status = tool(rt, &given, &mut input, &mut out, &mut err);
        let done = (status, out.inner.text.as_slice(), err.text.as_slice());
        check(rt, is_ended(done, wanted), words, number);
    }
}

/// Writes the font `plain` to a file of this process and returns its name.
pub fn font_file<R: Abort + Files + Env + AllocGlobal>(rt: &R, part: usize, id: u32) -> String {
    let folder = env::temp_dir(rt).expect(rt, "a directory");
    let folder = folder.as_path().display();
    let name = format!(in rt.alloc(); "{folder}/tfmset-{part}-{id}").expect(rt, "memory");
    fs::write(rt, name.as_str(), PLAIN.as_slice()).expect(rt, "a file");
    name
}

/// Returns the text `a\n` 2,500 times, and its records, which are longer than a buffer.
pub fn many_lines<R: Abort + AllocGlobal>(rt: &R) -> (String, String) {
    let text = "a\n".repeat(rt.alloc(), 2500).expect(rt, "memory");
    let mut records = String::new(rt.alloc());
    for line in 1..2501u32 {
        write!(records, "1:{line} set 327680 c97=327680\n").expect(rt, "memory");
    }
    records
        .push_str("1 end complete 2500\n")
        .expect(rt, "memory");
    (text, records)
}

/// Files in memory, whose openings are noted. The readers of one of them go these ways, those of the other ones
/// don't fail.
#[derive(Drop)]
pub struct NotedFiles<'a> {
    files: &'a [(&'a str, &'a [u8])],
    failing: &'a str,
    ways: Ways,
    opened: AtomicU64,
}

impl<'a> NotedFiles<'a> {
    pub fn new(files: &'a [(&'a str, &'a [u8])], failing: &'a str, ways: &Ways) -> NotedFiles<'a> {
        NotedFiles {
            files,
            failing,
            ways: *ways,
            opened: AtomicU64::new(0),
        }
    }

    /// Returns the openings of the first nine files in order, a hexadecimal digit for each: the number of the file in the
    /// list, starting at 1, E if the file is opened for another purpose, or F if no file has the name.
    pub fn opened(&self) -> u64 {
        self.opened.load(Ordering::SeqCst)
    }

    fn note(&self, digit: u64) {
        let opened = self.opened.load(Ordering::SeqCst);
        let opened = opened.wrapping_mul(16).wrapping_add(digit);
        self.opened.store(opened, Ordering::SeqCst);
    }
}

/// Returns what a file of this name is read as.
fn purpose_of(name: &str) -> Purpose {
    match name {
        "lines" | "ab" | "long" | "aa" | "adb" | "ada" | "empty" => Purpose::Lines,
        "names" | "zeros" => Purpose::List,
        _ if name.ends_with(".enc") => Purpose::Vector,
        _ => Purpose::Font,
    }
}

impl<'a> Opens for NotedFiles<'a> {
    ghost use Rattle.std.specs.Prelude.{None};

    type File = Interrupted<TricklingReader<'a>>;

    ghost known = { λ _ _. None };

    fn open(&self, name: &str, purpose: Purpose) -> io::Result<Interrupted<TricklingReader<'a>>> {
        let mut number = 0u64;
        for file in self.files {
            number = number.wrapping_add(1);
            if file.0 == name {
                if purpose != purpose_of(name) {
                    self.note(14);
                } else if number < 10 {
                    self.note(number);
                }
                return Ok(reader(file.1, &self.ways.of(name, self.failing)));
            }
        }
        self.note(15);
        Err(io::Error::from(ErrorKind::NotFound))
    }
}

/// Carries out what these arguments request. Returns the exit status and the message on standard error.
pub fn carry_out<R, F, I, O>(
    rt: &R,
    files: &F,
    words: &[&str],
    input: &mut I,
    out: &mut O,
) -> (u8, String)
where
    R: Abort + Threads + Wait + Sync + AllocGlobal,
    F: Opens,
    I: Read + Send,
    O: Write,
{
    let Ok(requested) = requested(rt.alloc(), words) else {
        panic!(rt; "the arguments are invalid");
    };
    match perform(rt, files, &requested, input, out) {
        Ok(done) => {
            let message = done.message().unwrap_or("");
            let message = format!(in rt.alloc(); "{message}");
            (done.status(), message.expect(rt, "memory"))
        }
        Err(failure) => {
            let message = format!(in rt.alloc(); "{failure}").expect(rt, "memory");
            (failure.status(), message)
        }
    }
}
