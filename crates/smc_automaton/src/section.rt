//! How a section begins, and what it tells the calls in it.
ghost use Rattle.std.specs.Prelude.{◌≡◌, ◌≤◌};
ghost use Rattle.smc_core.specs.Section.{epoch_of, calm_by, entering_offer, entering_section, entering_change};
ghost use Rattle.smc_automaton.specs.Fits.{FitsSection};

use crate::op::{load, section_of, store};
use crate::step::{goes, tells};
use smc_core::{Change, Done, Kind, LAST_EPOCH, Offer, Phase, Section, Word};
use smc_model::Event;
use smc_shape::Place;
use smc_words::RoundWord;

/// The epoch of a section that lasts, else 0.
pub(crate) fn epoch_of(section: Section) -> u64
    requires { FitsSection section }
    ensures is { result ≡ epoch_of section }
    ensures limit { result ≤ LAST_EPOCH }
{
    match section {
        Section::Lasting { epoch } | Section::Inside { epoch, .. } => epoch,
        Section::Outside
        | Section::Loaded { .. }
        | Section::Announced { .. }
        | Section::Again { .. } => 0,
    }
}

/// A section is calm where it sees no round, or one whose bound it is not past.
fn calm_by(epoch: u64, round: Option<RoundWord>) -> bool
    ensures { result ≡ calm_by epoch round }
{
    match round {
        None => true,
        Some(round) => epoch <= round.bound,
    }
}

/// The step of enter that follows, by how far it has come.
pub(crate) fn entering_offer(pass: u32, section: Section) -> Option<Offer>
    ensures { result ≡ entering_offer pass section }
{
    match section {
        Section::Loaded { seen } => Some(store(
            Kind::Announce,
            section_of(pass),
            Word::Plain(seen),
        )),
        Section::Announced { .. } => Some(load(Kind::LoadEpochAgain, Place::Epoch)),
        Section::Again { epoch, .. } => Some(store(
            Kind::AnnounceAgain,
            section_of(pass),
            Word::Plain(epoch),
        )),
        Section::Lasting { .. } => Some(load(Kind::LoadRound, Place::Round)),
        Section::Outside | Section::Inside { .. } => None,
    }
}

/// Where that step leaves the section.
pub(crate) fn entering_section(section: Section, seen: Word) -> Section
    ensures { result ≡ entering_section section seen }
{
    match section {
        Section::Loaded { seen: first } => Section::Announced { seen: first },
        Section::Announced { seen: first } => Section::Again {
            seen: first,
            epoch: seen.plain(),
        },
        Section::Again { epoch, .. } => Section::Lasting { epoch },
        Section::Lasting { epoch } => Section::Inside {
            epoch,
            calm: calm_by(epoch, seen.round()),
        },
        Section::Outside => Section::Outside,
        Section::Inside { epoch, calm } => Section::Inside { epoch, calm },
    }
}

/// The section has begun once the round word is loaded.
pub(crate) fn entering_change(section: Section) -> Change
    ensures { result ≡ entering_change section }
{
    match section {
        Section::Lasting { epoch } => tells(Event::Enter, Done::At { epoch }),
        Section::Loaded { .. } | Section::Announced { .. } | Section::Again { .. } => {
            goes(Phase::Entering)
        }
        Section::Outside | Section::Inside { .. } => goes(Phase::Idle),
    }
}
