ghost use Rattle.smc_lang.specs.Laws.{IsOneThing, IsSomething, PrintedIsRead};

use smc_query::laws::{fronts_begin, one_tree, spelled_or_stopped};
use smc_tokens::laws::{one_list, some_list};

/// A text of a form is read as one answer, or it is wrong or too deep at one place: no two of these hold of it.
///
/// So what `parse` answers, where memory suffices and the text is not too long, is the only thing that the text is.
pub fn one_thing()
    ensures { IsOneThing }
{
    one_list();
    one_tree();
    fronts_begin();
}

/// Each text is one of these things, whatever its bytes and however many.
pub fn is_something()
    ensures { IsSomething }
{
    some_list();
    spelled_or_stopped();
}

/// A parsed query is parsed again from its printed text, as this query, where that is within the limits.
pub fn printed_is_read()
    ensures { PrintedIsRead }
{
    smc_print::laws::printed_is_read();
}
