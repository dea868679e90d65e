//! What a step changes in its pass, by how the call goes on.
ghost use Rattle.std.specs.Prelude.{◌≡◌};
ghost use Rattle.smc_core.specs.Step.{goes, goes_telling, ends, tells};

use smc_core::{Change, Done, Phase};
use smc_model::Event;

/// The call goes on, in this phase.
pub(crate) fn goes(phase: Phase) -> Change
    ensures { result ≡ goes phase }
{
    Change {
        event: None,
        answer: None,
        holds: None,
        phase,
    }
}

/// The call goes on after an event.
pub(crate) fn goes_telling(event: Event, phase: Phase) -> Change
    ensures { result ≡ goes_telling event phase }
{
    Change {
        event: Some(event),
        answer: None,
        holds: None,
        phase,
    }
}

/// The call ends with an answer, and no event.
pub(crate) fn ends(answer: Done) -> Change
    ensures { result ≡ ends answer }
{
    Change {
        event: None,
        answer: Some(answer),
        holds: None,
        phase: Phase::Idle,
    }
}

/// The call ends with an event and an answer.
pub(crate) fn tells(event: Event, answer: Done) -> Change
    ensures { result ≡ tells event answer }
{
    Change {
        event: Some(event),
        answer: Some(answer),
        holds: None,
        phase: Phase::Idle,
    }
}
