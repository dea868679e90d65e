//! Each function is a theorem over the definitions in `specs`, and does nothing.
ghost use Rattle.smc_alone.specs.AloneCalls.{AloneCallsAreMade};
ghost use Rattle.smc_alone.specs.Laws.{AloneIsCalm, RefusedIsFull, SurveyBehindDrive, SurveyIsExact};
ghost use Rattle.smc_alone.specs.Drives.{Drove, Surveyed};
ghost use Rattle.smc_alone.specs.Ripening.{LetsRipen};
ghost use Rattle.smc_alone.specs.Worked.{added, drives_and_surveys, drove, filled, fills_and_tries, surveyed, tried, DidAloneAfter};
ghost use Rattle.smc_model.specs.declared.event.Cause.TheVariants.{Slots};
ghost use Rattle.smc_trace.specs.Named.{refuses};
ghost use Rattle.std.specs.Prelude.{◌++◌};

use smc_packing::laws::a_survey_tells;

/// Each stretch of a trace that is alone was made while all other passes stood aside.
pub fn alone_calls_are_made()
    ensures { AloneCallsAreMade }
{}

/// An add that is refused, alone, behind three advances with nothing removed since, is refused when each slot has an object,
/// if no entry is spent.
pub fn a_refusal_is_exact()
    ensures { RefusedIsFull }
{}

/// A survey that is alone tells the present objects and the occupied blocks, behind a drive the fewest.
pub fn a_survey_is_exact()
    ensures always { SurveyIsExact }
    ensures packed { SurveyBehindDrive }
{
    a_survey_tells();
}

/// No advance of a pass that is alone is held back by a section, and no begin by a round of another pass.
pub fn alone_is_calm()
    ensures { AloneIsCalm }
{}

/// A worked drive and a worked survey behind it, alone.
pub fn a_worked_drive_alone()
    ensures alone { DidAloneAfter drives_and_surveys added (drove ++ surveyed) }
    ensures kinds { Drove 0 drove × Surveyed 0 2 1 surveyed }
{}

/// A worked collection that is full: an add is refused, and refused again behind three advances, alone.
pub fn a_worked_full_collection()
    ensures alone { DidAloneAfter fills_and_tries filled (tried ++ refuses 0 Slots) }
    ensures ripe { LetsRipen tried }
{}
