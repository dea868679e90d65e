//! Each function is a theorem over the definitions in `specs`, and does nothing.
ghost use Rattle.std.specs.Prelude.{List};
ghost use Rattle.smc_folds.specs.Kinds.{Kind};
ghost use Rattle.smc_replies.specs.Books.{books_of};
ghost use Rattle.smc_replies.specs.Loads.{Scene};
ghost use Rattle.smc_replies.specs.Laws.{CommandIsOne, GroupIsOne, OnePartMore, TextIsOne, WorkerIsOne};
ghost use Rattle.smc_replies.specs.Scripts.{RunsParts};
ghost use Rattle.smc_replies.specs.Worked.{its_calls, its_text, one_query, their_calls, their_text, two_stats};

use smc_types::laws::a_day_has_one_text;

/// The calls of a command are read off from the front of a trace; its reply, and the names and folds behind it, follow from
/// them and from those before it.
pub fn parts_are_one()
    ensures { CommandIsOne }
{
    // A row is printed in one text.
    a_day_has_one_text();
}

/// What parts print follows from the calls that they made, and from the names and folds that were known before.
pub fn the_text_is_one()
    ensures { TextIsOne }
{
    a_day_has_one_text();
}

/// What a worker of a group adds and replies follows from the calls of its pass, and from the names that were known at `group`.
pub fn a_worker_is_one()
    ensures { WorkerIsOne }
{
    a_day_has_one_text();
}

/// What a group prints follows from the calls of all passes, and from the names that were known before it.
pub fn a_group_is_one()
    ensures { GroupIsOne }
{
    a_day_has_one_text();
}

/// Parts are run one behind another.
pub fn one_part_more()
    ensures { OnePartMore }
{}

/// Two commands over two objects print how many objects there are.
pub fn worked_stats()
    ensures { (scene : Scene) (kinds : List Kind) → RunsParts scene two_stats (books_of kinds) (books_of kinds) their_calls their_text }
{}

/// A query for their number prints it as a row.
pub fn worked_query()
    ensures { (scene : Scene) (kinds : List Kind) → RunsParts scene one_query (books_of kinds) (books_of kinds) its_calls its_text }
{}
