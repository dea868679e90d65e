ghost use Rattle.std.specs.Prelude.{◌≡◌};
ghost use Rattle.smc_plan.specs.declared.fault.PlanFault.TheVariants.{NoMemory as OfMemory};

use smc_words::NoMemory;
use std::alloc::{AllocError, AllocFailed};
use thiserror::Error;

/// Why a query has no plan.
#[derive(Clone, Copy, Debug, Drop, PartialEq, Eq, Error)]
pub enum PlanFault {
    /// No table has the name.
    #[error("no such table")]
    NoTable,
    /// No field, sort key or fold has the name.
    #[error("no such name")]
    NoField,
    /// The operator or the call does not take values of these types.
    #[error("the types do not fit")]
    Types,
    /// A name of a path that is not its last is no reference, or the last one is.
    #[error("the path is wrong")]
    Path,
    /// A number may become larger, or have more decimals, than numbers may.
    #[error("too wide")]
    TooWide,
    #[error("no memory")]
    NoMemory,
}

impl From<NoMemory> for PlanFault {
    ghost from_gives = { λ _ fault. fault ≡ OfMemory };

    fn from(_: NoMemory) -> Self {
        PlanFault::NoMemory
    }
}

impl From<AllocError> for PlanFault {
    ghost from_gives = { λ _ fault. fault ≡ OfMemory };

    fn from(_: AllocError) -> Self {
        PlanFault::NoMemory
    }
}

impl<T: Drop> From<AllocFailed<T>> for PlanFault {
    ghost from_gives = { λ _ fault. fault ≡ OfMemory };

    fn from(_: AllocFailed<T>) -> Self {
        PlanFault::NoMemory
    }
}
