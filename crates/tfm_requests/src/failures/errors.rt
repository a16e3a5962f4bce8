//! The errors of the phases of a request, in their order.
ghost use Rattle.std.specs.Prelude.{◌≡◌};
ghost use Rattle.tfm_requests.specs.Errors.{encoding_error_of, font_error_of, font_error_of_read};
ghost use Rattle.tfm_requests.specs.declared.failures.errors.FontError.TheVariants.{OutOfMemory as FontMemory};

use font_texts::Numbered;
use std::alloc::AllocError;
use tfm_tables::FontFault;
use thiserror::Error;

/// An error of the arguments that `clap` doesn't find.
#[derive(Clone, Copy, Debug, Error)]
pub enum RequestError {
    /// The arguments of `each` aren't triples.
    #[error("words not in threes")]
    NotInThrees,
    /// There are more than 64 files.
    #[error("more than 64 files")]
    TooManyFiles,
    /// A limit of `each` is no number or out of range. The value is its number, starting at 1.
    #[error("limit {0} out of range")]
    LimitRange(usize),
    /// The font and the lines of `stream` are both to be read from standard input.
    #[error("font and text both on standard input")]
    FontAndText,
    /// More than one font of `check` is to be read from standard input.
    #[error("two fonts on standard input")]
    TwoFonts,
    /// A font of `check` and the list of fonts are both to be read from standard input.
    #[error("font and list both on standard input")]
    FontAndList,
    /// An allocation failed.
    #[error("out of memory")]
    OutOfMemory,
}

/// An error of the font of a request.
#[derive(Clone, Copy, Debug, Error)]
pub enum FontError {
    /// The file wasn't opened, a read failed, or the file needed too many reads.
    #[error("font not read")]
    NotRead,
    /// The font is refused; this is its first font error.
    #[error("font refused: {fault}", fault = Numbered(*.0))]
    Refused(FontFault),
    /// An allocation failed.
    #[error("out of memory")]
    OutOfMemory,
}

/// An error of the font of a job of `each`. Jobs are numbered from 1.
#[derive(Clone, Copy, Debug, Error)]
pub enum JobError {
    /// The file wasn't opened, a read failed, or the file needed too many reads.
    #[error("font {0} not read")]
    NotRead(usize),
    /// The font is refused; this is its first font error.
    #[error("font {0} refused: {fault}", fault = Numbered(*.1))]
    Refused(usize, FontFault),
    /// An allocation failed.
    #[error("out of memory")]
    OutOfMemory,
}

/// An error of an encoding vector.
#[derive(Clone, Copy, Debug, Error)]
pub enum EncodingError {
    /// The file wasn't opened, or wasn't read to its end.
    #[error("encoding not read")]
    NotRead,
    /// The file isn't an encoding vector. The value is the number of a line of the file, starting at 1, as
    /// `encoding_vectors::read_vector` returns it.
    #[error("encoding refused: line {0}")]
    Refused(usize),
    /// An allocation failed.
    #[error("out of memory")]
    OutOfMemory,
}

/// An error of the files with lines before they are read.
#[derive(Clone, Copy, Debug, Error)]
pub enum FileError {
    /// A file wasn't opened. The value is its number, starting at 1.
    #[error("file {0} not read")]
    NotOpened(usize),
    /// An allocation failed.
    #[error("out of memory")]
    OutOfMemory,
}

/// The reason why a file wasn't opened or read to its end.
#[derive(Clone, Copy)]
pub(crate) enum ReadFault {
    /// The file wasn't opened, a read failed, or the file needed too many reads.
    NotRead,
    /// An allocation failed.
    OutOfMemory,
}

impl From<ReadFault> for FontError {
    ghost from_gives = { λ fault error. error ≡ font_error_of_read fault };

    fn from(fault: ReadFault) -> FontError {
        match fault {
            ReadFault::NotRead => FontError::NotRead,
            ReadFault::OutOfMemory => FontError::OutOfMemory,
        }
    }
}

impl From<FontFault> for FontError {
    ghost from_gives = { λ fault error. error ≡ font_error_of fault };

    fn from(fault: FontFault) -> FontError {
        match fault {
            FontFault::OutOfMemory => FontError::OutOfMemory,
            fault => FontError::Refused(fault),
        }
    }
}

impl From<AllocError> for FontError {
    ghost from_gives = { λ _ error. error ≡ FontMemory };

    fn from(_error: AllocError) -> FontError {
        FontError::OutOfMemory
    }
}

impl From<ReadFault> for EncodingError {
    ghost from_gives = { λ fault error. error ≡ encoding_error_of fault };

    fn from(fault: ReadFault) -> EncodingError {
        match fault {
            ReadFault::NotRead => EncodingError::NotRead,
            ReadFault::OutOfMemory => EncodingError::OutOfMemory,
        }
    }
}
