ghost use Rattle.std.specs.Prelude.{◌≡◌};
ghost use Rattle.tfm_requests.specs.Status.{status_of};
ghost use Rattle.tfm_requests.specs.declared.failures.failure.Failure.TheVariants.{Encoding as OfEncoding, File as OfFile, Font as OfFont, JobFont as OfJob, Request as OfRequest, Tool as OfTool};

use super::errors::{EncodingError, FileError, FontError, JobError, RequestError};
use batch::RunFault;
use run_texts::ToolFault;
use thiserror::Error;

/// The reason why a request wasn't carried out. `Display` writes the message of the program on standard error.
/// The program replaces one tip in that of `Usage`.
#[derive(Debug, Drop, Error)]
pub enum Failure {
    /// The arguments are invalid, as `clap` finds.
    #[error("{0}")]
    Usage(clap::Error),
    /// The arguments are invalid in another way.
    #[error("tfmset: {0}\n")]
    Request(RequestError),
    /// The font wasn't read, or is refused.
    #[error("tfmset: {0}\n")]
    Font(FontError),
    /// The font of a job of `each` wasn't read, or is refused.
    #[error("tfmset: {0}\n")]
    JobFont(JobError),
    /// The encoding vector wasn't read, or is refused.
    #[error("tfmset: {0}\n")]
    Encoding(EncodingError),
    /// A file with lines wasn't opened.
    #[error("tfmset: {0}\n")]
    File(FileError),
    /// The batch failed, an allocation failed, or the output wasn't written completely.
    #[error("tfmset: {0}\n")]
    Tool(ToolFault),
}

impl Failure {
    /// Returns the exit status of the program: 2 if the arguments are invalid; 3 if a font or an encoding vector
    /// is refused; 4 if a font, an encoding vector or a file wasn't read or opened; 5 if an allocation, a thread
    /// start or the writer failed.
    pub fn status(&self) -> u8
        ensures { result ≡ status_of self.now }
    {
        match self {
            Failure::Request(RequestError::OutOfMemory) => 5,
            Failure::Usage(_) | Failure::Request(_) => 2,
            Failure::Font(FontError::Refused(_)) | Failure::JobFont(JobError::Refused(_, _)) => 3,
            Failure::Font(FontError::NotRead) | Failure::JobFont(JobError::NotRead(_)) => 4,
            Failure::Font(FontError::OutOfMemory) | Failure::JobFont(JobError::OutOfMemory) => 5,
            Failure::Encoding(EncodingError::Refused(_)) => 3,
            Failure::Encoding(EncodingError::NotRead) => 4,
            Failure::Encoding(EncodingError::OutOfMemory) => 5,
            Failure::File(FileError::NotOpened(_)) => 4,
            Failure::File(FileError::OutOfMemory) => 5,
            Failure::Tool(ToolFault::Font(_)) => 3,
            Failure::Tool(ToolFault::Run(RunFault::TooManySources)) => 2,
            Failure::Tool(ToolFault::Run(RunFault::OutOfMemory | RunFault::Thread)) => 5,
            Failure::Tool(ToolFault::OutOfMemory | ToolFault::Write) => 5,
        }
    }
}

impl From<RequestError> for Failure {
    ghost from_gives = { λ error failure. failure ≡ OfRequest error };

    fn from(error: RequestError) -> Failure {
        Failure::Request(error)
    }
}

impl From<FontError> for Failure {
    ghost from_gives = { λ error failure. failure ≡ OfFont error };

    fn from(error: FontError) -> Failure {
        Failure::Font(error)
    }
}

impl From<JobError> for Failure {
    ghost from_gives = { λ error failure. failure ≡ OfJob error };

    fn from(error: JobError) -> Failure {
        Failure::JobFont(error)
    }
}

impl From<EncodingError> for Failure {
    ghost from_gives = { λ error failure. failure ≡ OfEncoding error };

    fn from(error: EncodingError) -> Failure {
        Failure::Encoding(error)
    }
}

impl From<FileError> for Failure {
    ghost from_gives = { λ error failure. failure ≡ OfFile error };

    fn from(error: FileError) -> Failure {
        Failure::File(error)
    }
}

impl From<ToolFault> for Failure {
    ghost from_gives = { λ fault failure. failure ≡ OfTool fault };

    fn from(fault: ToolFault) -> Failure {
        Failure::Tool(fault)
    }
}
