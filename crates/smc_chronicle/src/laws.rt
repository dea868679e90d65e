//! Each function is a theorem over the definitions in `specs`, and does nothing.
ghost use Rattle.smc_chronicle.specs.Chronicle.{HistoriesHaveChronicles};

use smc_alone::laws::{a_refusal_is_exact, a_survey_is_exact, alone_is_calm};
use smc_calls::laws::calls_are_made;
use smc_epochs::laws::epochs_are_counted;

/// What the logs and the answers of a region tell is true at its place of the one order.
pub fn histories_have_chronicles()
    ensures { HistoriesHaveChronicles }
{
    calls_are_made();
    a_refusal_is_exact();
    a_survey_is_exact();
    alone_is_calm();
    epochs_are_counted();
}
