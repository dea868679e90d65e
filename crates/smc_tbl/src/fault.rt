ghost use Rattle.std.specs.Prelude.{◌≡◌};
ghost use Rattle.smc_tbl.specs.declared.fault.TblFault.TheVariants.{NoMemory, ReadFault};

use smc_outside::Failed;
use std::alloc::{AllocError, AllocFailed};
use thiserror::Error;

/// Why a line is no row, or why there is no next row.
///
/// The first six are faults of a line: docs/FORMATS.md has the order in which a line is tested, and the first counts.
#[derive(Clone, Copy, Debug, PartialEq, Eq, Error)]
pub enum TblFault {
    #[error("the line has another number of fields than the table has columns")]
    FieldCount,
    #[error("a field is no number of its column")]
    Number,
    #[error("a field is no date")]
    Date,
    #[error("a text is wider than its column")]
    TextTooLong,
    #[error("the line has bytes that are no text")]
    BadText,
    #[error("the line is too long")]
    LineTooLong,
    #[error("the input failed")]
    ReadFault,
    #[error("the table has too many lines")]
    TooManyLines,
    #[error("no memory")]
    NoMemory,
}

impl From<AllocError> for TblFault {
    ghost from_gives = { λ _ fault. fault ≡ NoMemory };

    fn from(_: AllocError) -> Self {
        TblFault::NoMemory
    }
}

impl<T: Drop> From<AllocFailed<T>> for TblFault {
    ghost from_gives = { λ _ fault. fault ≡ NoMemory };

    fn from(_: AllocFailed<T>) -> Self {
        TblFault::NoMemory
    }
}

impl From<Failed> for TblFault {
    ghost from_gives = { λ _ fault. fault ≡ ReadFault };

    fn from(_: Failed) -> Self {
        TblFault::ReadFault
    }
}
