//! What holds of plans that are run, as theorems over the definitions: functions with no body, whose clauses are the laws.
ghost use Rattle.smc_exec.specs.Plans.{EditsCanRun, QueriesCanRun};

use smc_plan::laws::parts_are_typed;

/// The leaves of the plan of a query can be read, and its parts are what they are said to be.
pub fn queries_can_run()
    ensures { QueriesCanRun }
{
    parts_are_typed();
}

/// The leaves of the plan of an edit can be read, its parts are what they are said to be, and its field stands within the record.
pub fn edits_can_run()
    ensures { EditsCanRun }
{
    parts_are_typed();
}
