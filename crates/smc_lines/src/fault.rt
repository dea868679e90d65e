ghost use Rattle.std.specs.Prelude.{◌≡◌};
ghost use Rattle.smc_lines.specs.declared.fault.LinesFault.TheVariants.{NoMemory, ReadFault};

use smc_outside::Failed;
use std::alloc::AllocError;
use thiserror::Error;

/// Why an input has no lines.
#[derive(Clone, Copy, Debug, PartialEq, Eq, Error)]
pub enum LinesFault {
    #[error("the input failed")]
    ReadFault,
    #[error("line {line} is too long")]
    TooLong { line: u64 },
    #[error("there are too many lines")]
    TooMany,
    #[error("no memory")]
    NoMemory,
}

impl From<AllocError> for LinesFault {
    ghost from_gives = { λ _ fault. fault ≡ NoMemory };

    fn from(_: AllocError) -> Self {
        LinesFault::NoMemory
    }
}

impl From<Failed> for LinesFault {
    ghost from_gives = { λ _ fault. fault ≡ ReadFault };

    fn from(_: Failed) -> Self {
        LinesFault::ReadFault
    }
}

/// The line of this number is no text.
#[derive(Clone, Copy, Debug, PartialEq, Eq, Error)]
#[error("line {line} is no text")]
pub struct BadLine {
    pub line: u64,
}
