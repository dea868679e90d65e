ghost use Rattle.std.specs.Prelude.{◌≡◌};
ghost use Rattle.smc_parse.specs.declared.fault.Fault.TheVariants.{NoMemory as OfMemory};

use smc_words::NoMemory;
use std::alloc::AllocFailed;
use thiserror::Error;

/// Why tokens are no text. Places count tokens from 0; the place behind the last one is the end.
#[derive(Clone, Copy, Debug, Drop, PartialEq, Eq, Error)]
pub enum Fault {
    /// The tokens before this place begin a text, and with the one here they begin none.
    #[error("wrong token {index}")]
    Wrong { index: usize },
    /// The token at this place opens more than may be open at once.
    #[error("token {index} nests too deeply")]
    TooDeep { index: usize },
    #[error("no memory")]
    NoMemory,
}

impl From<NoMemory> for Fault {
    ghost from_gives = { λ _ fault. fault ≡ OfMemory };

    fn from(_: NoMemory) -> Self {
        Fault::NoMemory
    }
}

impl<T: Drop> From<AllocFailed<T>> for Fault {
    ghost from_gives = { λ _ fault. fault ≡ OfMemory };

    fn from(_: AllocFailed<T>) -> Self {
        Fault::NoMemory
    }
}
