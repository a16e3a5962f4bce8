ghost use Rattle.std.specs.Prelude.{◌≡◌, Some};
ghost use Rattle.run_texts.specs.FaultTexts.{tool_fault_text};
ghost use Rattle.run_texts.specs.Refusals.{fault_of, fault_of_font};
ghost use Rattle.run_texts.specs.declared.fault.ToolFault.TheVariants.{OutOfMemory as NoMemory};

use batch::{Refusal, RunFault};
use font_texts::Numbered;
use std::alloc::AllocError;
use std::fmt;
use tfm_tables::FontFault;
use thiserror::Error;

/// The reason why the output wasn't written completely. `Display` writes the text that the program prints
/// after `tfmset: `.
#[derive(Debug, Drop, Error)]
pub enum ToolFault {
    /// The font isn't accepted; this is its first font error.
    Font(FontFault),
    /// The batch failed.
    Run(RunFault),
    /// An allocation failed.
    OutOfMemory,
    /// The writer failed; a part of the output may have been written.
    Write,
}

impl fmt::Display for ToolFault {
    ghost output = { λ fault. Some (tool_fault_text fault) };

    #[tactic(auto, unfolding(crate::specs::FaultTexts::tool_fault_text, crate::specs::FaultTexts::run_fault_text))]
    fn fmt<W: fmt::Write>(&self, f: &mut fmt::Formatter<W>) -> fmt::Result {
        match self {
            ToolFault::Font(fault) => {
                let numbered = Numbered(*fault);
                write!(f, "font refused: {numbered}")
            }
            ToolFault::Run(RunFault::TooManySources) => f.write_str("more than 64 files"),
            ToolFault::Run(RunFault::OutOfMemory) => f.write_str("out of memory"),
            ToolFault::Run(RunFault::Thread) => f.write_str("no thread"),
            ToolFault::OutOfMemory => f.write_str("out of memory"),
            ToolFault::Write => f.write_str("output failed"),
        }
    }
}

impl From<Refusal> for ToolFault {
    ghost from_gives = { λ refusal fault. fault ≡ fault_of refusal };

    fn from(refusal: Refusal) -> ToolFault {
        match refusal {
            Refusal::OutOfMemory => ToolFault::OutOfMemory,
            Refusal::Output => ToolFault::Write,
        }
    }
}

impl From<FontFault> for ToolFault {
    ghost from_gives = { λ fault told. told ≡ fault_of_font fault };

    fn from(fault: FontFault) -> ToolFault {
        match fault {
            FontFault::OutOfMemory => ToolFault::OutOfMemory,
            fault => ToolFault::Font(fault),
        }
    }
}

impl From<AllocError> for ToolFault {
    ghost from_gives = { λ _ fault. fault ≡ NoMemory };

    fn from(_error: AllocError) -> ToolFault {
        ToolFault::OutOfMemory
    }
}
