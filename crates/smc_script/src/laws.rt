//! What is said of every text: it is exactly one of a script and a first refused line with its kind.
ghost use Rattle.smc_script.specs.Laws.{GivesOne, GivesSome};

use smc_lang::laws::{is_something, one_thing};
use smc_tbl::laws::{one_field, one_reading};

/// A text gives one outcome at most: no two scripts, no two refused lines or kinds, and not both.
///
/// So what `read_script` answers, where memory and the input suffice, is the only thing that the text gives.
pub fn gives_one()
    ensures { GivesOne }
{
    one_thing();
    one_reading();
    one_field();
}

/// Each text gives an outcome, whatever its bytes and however many.
pub fn gives_some()
    ensures { GivesSome }
{
    one_thing();
    is_something();
    one_reading();
    one_field();
}
