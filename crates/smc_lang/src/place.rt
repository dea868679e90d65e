//! What was read of the tokens of a text, as what was read of the text.
ghost use Rattle.std.specs.Prelude.{◌≡◌};
ghost use Rattle.smc_lang.specs.Places.{byte_at, placed_fault, settled};

use crate::ParseFault;
use smc_parse::Fault;
use smc_tokens::Tokens;

// The byte of a place among the tokens: where its token begins; behind the last token, where the tokens stop.
//
// The tokens stop at the text's length, also behind spaces at its end, since then nothing but the end is wrong; or at
// the first byte of what begins no token, which stands before the end and so is what is wrong.
fn byte_at(list: &Tokens, index: usize) -> u32
    ensures { result ≡ byte_at list.now index }
{
    let placed = list.placed();
    if index < placed.len() {
        placed[index].at
    } else {
        list.end()
    }
}

// A fault among the tokens, at its byte.
fn placed_fault(list: &Tokens, fault: Fault) -> ParseFault
    ensures { result ≡ placed_fault list.now fault }
{
    match fault {
        Fault::Wrong { index } => ParseFault::At {
            at: byte_at(list, index),
        },
        Fault::TooDeep { index } => ParseFault::TooDeep {
            at: byte_at(list, index),
        },
        Fault::NoMemory => ParseFault::NoMemory,
    }
}

/// What was read of the tokens, where they are the whole text; else the first byte behind them is wrong.
pub fn settled<T: Drop>(list: &Tokens, read: Result<T, Fault>) -> Result<T, ParseFault>
    ensures { result ≡ settled list.now read }
{
    match read {
        Ok(found) => {
            if list.is_whole() {
                Ok(found)
            } else {
                Err(ParseFault::At { at: list.end() })
            }
        }
        Err(fault) => Err(placed_fault(list, fault)),
    }
}
