//! Each function is a theorem over the definitions in `specs`, and does nothing.
ghost use Rattle.smc_history.specs.Happened.{WhatHappenedIsLawful};

use smc_census::laws::{blocks_are_enough, homes_are_objects};
use smc_chronicle::laws::histories_have_chronicles;
use smc_refine::laws::histories_are_lawful;

/// What happened up to a state that the region reaches is lawful: the logs have one order, by the steps, which replays on a
/// plain map, what they and the answers tell is true at its place, and the region's words show the objects that are present.
pub fn what_happened_is_lawful()
    ensures { WhatHappenedIsLawful }
{
    histories_are_lawful();
    homes_are_objects();
    blocks_are_enough();
    histories_have_chronicles();
}
