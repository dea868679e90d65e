//! The one step that a pass offers for a choice.
ghost use Rattle.std.specs.Prelude.{◌≡◌};
ghost use Rattle.smc_core.specs.Offer.{offer, go_offer};
ghost use Rattle.smc_automaton.specs.Fits.{FitsStand};

use crate::add::add_offer;
use crate::begin::begin_offer;
use crate::cancel::cancel_offer;
use crate::count::count_offer;
use crate::finish::finish_offer;
use crate::look::look_offer;
use crate::op::{exchange, load, section_of};
use crate::remove::remove_offer;
use crate::scan::scan_offer;
use crate::section::{entering_offer, epoch_of};
use crate::start::start_offer;
use smc_core::{Choice, Kind, Offer, Phase, Stand, Word};
use smc_shape::{Place, Shape};

/// The step that goes on with the call in progress.
fn go_offer(shape: &Shape, pass: u32, stand: &Stand) -> Option<Offer>
    requires { FitsStand shape.now stand.now }
    ensures { result ≡ go_offer pass stand.now stand.now.section stand.now.phase }
{
    let section = stand.section;
    Some(match stand.phase {
        Phase::Idle => return None,
        Phase::Entering => return entering_offer(pass, section),
        Phase::Advancing { pass: other, .. } => load(Kind::LoadSection, section_of(other)),
        Phase::Ready { epoch } => exchange(
            Kind::AdvanceEpoch,
            Place::Epoch,
            Word::Plain(epoch),
            Word::Plain(epoch + 1),
        ),
        Phase::Look(next) => look_offer(next),
        Phase::Add(next) => add_offer(shape, &stand.words, next),
        Phase::Remove(next) => remove_offer(epoch_of(section), next),
        Phase::Scan(next) => scan_offer(pass, next),
        Phase::Begin(next) => begin_offer(epoch_of(section), next),
        Phase::Finish(next) => finish_offer(epoch_of(section), next),
        Phase::Cancel(next) => cancel_offer(epoch_of(section), next),
        Phase::Survey(next) => count_offer(next),
    })
}

/// The one step that the pass may take for this choice, if it may.
pub fn offered(shape: &Shape, pass: u32, stand: &Stand, choice: &Choice) -> Option<Offer>
    requires fits { FitsStand shape.now stand.now }
    ensures { result ≡
        offer shape.now pass stand.now stand.now.section stand.now.phase choice.now }
{
    match choice {
        Choice::Go => go_offer(shape, pass, stand),
        Choice::Start(call) => match stand.phase {
            Phase::Idle => start_offer(shape, pass, stand, call),
            Phase::Entering
            | Phase::Advancing { .. }
            | Phase::Ready { .. }
            | Phase::Look(_)
            | Phase::Add(_)
            | Phase::Remove(_)
            | Phase::Scan(_)
            | Phase::Begin(_)
            | Phase::Finish(_)
            | Phase::Cancel(_)
            | Phase::Survey(_) => None,
        },
    }
}
