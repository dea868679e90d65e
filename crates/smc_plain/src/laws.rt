//! Each function is a theorem over the definitions in `specs`, and does nothing.
ghost use Rattle.smc_plain.specs.Laws.{ShownArePlain};

use smc_exec::laws::queries_can_run;
use smc_meaning::laws::answer_of_a_bag;

/// What is counted, queried, set and removed, and what folds are dropped, is what the fold over commands makes of the plain map.
pub fn commands_are_plain()
    ensures { ShownArePlain }
{
    // A scan comes to the rows of a world in any order.
    queries_can_run();
    answer_of_a_bag();
}
