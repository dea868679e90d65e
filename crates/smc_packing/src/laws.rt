//! Each function is a theorem over the definitions in `specs`, and does nothing.
ghost use Rattle.smc_packing.specs.Drive.{FindsNothing, Moves};
ghost use Rattle.smc_packing.specs.Packing.{DrivesPack, SurveysTell, SurveysTellPacked};
ghost use Rattle.smc_packing.specs.Worked.{PacksAfter, in_one_block, in_two_blocks};

use smc_core::laws::{schedules_are_reached, steps_are_computed};

/// After an undisturbed drive of a collection its present objects occupy the fewest blocks.
pub fn a_drive_packs()
    ensures { DrivesPack }
{}

/// An undisturbed survey tells the number of present objects and of occupied blocks, which after a drive are the fewest.
pub fn a_survey_tells()
    ensures always { SurveysTell }
    ensures packed { SurveysTellPacked }
{}

/// Worked schedules after which a drive moves an object, and finds nothing to do.
pub fn worked_drives()
    ensures moves { PacksAfter Moves in_two_blocks }
    ensures nothing { PacksAfter FindsNothing in_one_block }
{
    steps_are_computed();
    schedules_are_reached();
}
