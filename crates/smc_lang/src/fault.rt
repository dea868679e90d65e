ghost use Rattle.std.specs.Prelude.{◌≡◌};
ghost use Rattle.smc_lang.specs.declared.fault.ParseFault.TheVariants.{NoMemory as OfMemory};

use smc_words::NoMemory;
use thiserror::Error;

/// Why a text is refused. Places count bytes from 0.
#[derive(Clone, Copy, Debug, Drop, PartialEq, Eq, Error)]
pub enum ParseFault {
    /// It has more bytes than a text may have, and was not read.
    #[error("the text is too long")]
    TooLong,
    /// Here begins what opens more brackets, parentheses, `not` and unary minus than may be open at once.
    #[error("the text nests too deeply at byte {at}")]
    TooDeep { at: u32 },
    /// Here begins a token, or what is no token, with which no text goes on; at the text's length, its end is wrong.
    #[error("the text is wrong at byte {at}")]
    At { at: u32 },
    #[error("no memory")]
    NoMemory,
}

impl From<NoMemory> for ParseFault {
    ghost from_gives = { λ _ fault. fault ≡ OfMemory };

    fn from(_: NoMemory) -> Self {
        ParseFault::NoMemory
    }
}
