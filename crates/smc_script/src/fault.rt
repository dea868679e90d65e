ghost use Rattle.std.specs.Prelude.{◌≡◌};
ghost use Rattle.smc_script.specs.declared.fault.ScriptFault.TheVariants.{NoMemory as OfMemory};

use smc_words::NoMemory;
use std::alloc::{AllocError, AllocFailed};
use thiserror::Error;

/// Why a line of a script is refused. The first of these that applies, from the top, is the kind of the line.
#[derive(Clone, Copy, Debug, PartialEq, Eq, Drop)]
pub enum ScriptKind {
    /// It has more bytes than a line may have.
    TooLong,
    /// It is the line behind the last that a script may have, or the worker behind the last of a group.
    TooMany,
    /// It is no text, or no command.
    Grammar,
    /// It may not stand where it does in a group, or outside of one; or a group is not ended.
    Group,
    /// Rooms may not be asked for there, or not these.
    Room,
    /// It names what is not known there, or what is known already.
    Name,
}

/// Why there is no script.
#[derive(Clone, Copy, Debug, PartialEq, Eq, Error)]
pub enum ScriptFault {
    #[error("the input failed")]
    ReadFault,
    /// This line, counted from 1, is the first that is refused.
    #[error("line {line} is refused")]
    Bad { line: u64, kind: ScriptKind },
    #[error("no memory")]
    NoMemory,
}

impl From<NoMemory> for ScriptFault {
    ghost from_gives = { λ _ fault. fault ≡ OfMemory };

    fn from(_: NoMemory) -> Self {
        ScriptFault::NoMemory
    }
}

impl From<AllocError> for ScriptFault {
    ghost from_gives = { λ _ fault. fault ≡ OfMemory };

    fn from(_: AllocError) -> Self {
        ScriptFault::NoMemory
    }
}

impl<T: Drop> From<AllocFailed<T>> for ScriptFault {
    ghost from_gives = { λ _ fault. fault ≡ OfMemory };

    fn from(_: AllocFailed<T>) -> Self {
        ScriptFault::NoMemory
    }
}
