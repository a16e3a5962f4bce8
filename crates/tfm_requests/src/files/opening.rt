//! Opens files by their names, in the file system or in memory.
ghost use Rattle.std.specs.Prelude.{◌≡◌, ℕ, List, Option, Some, IfOk, IfSome};
ghost use Rattle.tfm_requests.specs.Known.{bytes_in};

use line_chunks::LineCounts;
use std::cell::Cell;
use std::io::{ErrorKind, Read};
use std::rt::Files;
use std::{fs, io};

/// What a file is read as.
#[derive(Clone, Copy, PartialEq, Eq)]
pub enum Purpose {
    /// A font.
    Font,
    /// An encoding vector.
    Vector,
    /// Lines to set.
    Lines,
    /// The names of fonts.
    List,
}

/// Opens files by their names for reading.
pub trait Opens {
    /// An open file.
    type File: Read + Send + Drop;

    /// The contents of the file of a name, if they are known to contracts.
    ghost known: { Self → List ℕ → Option (List ℕ) };

    /// Opens the file of this name, for reading from its start. `purpose` is what it is read as; the contents are the
    /// same for each. Fails if the file can't be opened.
    fn open(&self, name: &str, purpose: Purpose) -> io::Result<Self::File>
        ensures { IfOk result (λ file. IfSome (known self.now name.now)
            (λ all. Self.File.remaining file ≡ Some all)) };

    /// Returns the cell for the numbers of lines that were set and refused, if they are counted. By default they
    /// aren't.
    fn counts(&self) -> Option<&Cell<LineCounts>> {
        None
    }

    /// Notes that `check` refuses the font that was read last. By default nothing is noted.
    fn note_refused(&self) {}

    /// Notes that a name in a list of fonts isn't UTF-8, so that its file can't be opened. By default nothing is noted.
    fn note_name(&self, _name: &[u8]) {}
}

/// The files of the file system. Their contents aren't known to contracts.
#[derive(Drop)]
pub struct Disk<'a, R> {
    rt: &'a R,
}

impl<'a, R> Disk<'a, R> {
    /// Returns a value that opens files with `rt`.
    pub fn new(rt: &'a R) -> Self {
        Disk { rt }
    }
}

impl<R: Files> Opens for Disk<'_, R>
where
    R::File: Send,
{
    ghost use Rattle.std.specs.Prelude.{None};

    type File = R::File;

    ghost known = { λ _ _. None };

    fn open(&self, name: &str, _purpose: Purpose) -> io::Result<R::File> {
        fs::open(self.rt, name)
    }
}

/// Files in memory, each with its name. If several have the same name, the first one is opened.
#[derive(Clone, Copy)]
pub struct InMemory<'a> {
    files: &'a [(&'a str, &'a [u8])],
}

impl<'a> InMemory<'a> {
    /// Returns files with these names and contents.
    pub fn new(files: &'a [(&'a str, &'a [u8])]) -> Self
        ensures { (name : List ℕ) → ⟦<InMemory<'a> as Opens>⟧.known result name ≡ bytes_in files.now name }
    {
        InMemory { files }
    }
}

impl<'a> Opens for InMemory<'a> {
    type File = &'a [u8];

    ghost known = { λ memory name. bytes_in memory.files.now name };

    fn open(&self, name: &str, _purpose: Purpose) -> io::Result<&'a [u8]> {
        for file in self.files {
            if file.0 == name {
                return Ok(file.1);
            }
        }
        Err(io::Error::from(ErrorKind::NotFound))
    }
}
