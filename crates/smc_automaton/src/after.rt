//! What a step makes of the parts of a pass that few steps change.
ghost use Rattle.std.specs.Prelude.{◌≡◌, ◌≤◌};
ghost use Rattle.smc_core.specs.Local.{section_after, begun_after, noted_after, round_begun, round_after};
ghost use Rattle.smc_automaton.specs.Fits.{FitsSection};

use crate::section::{entering_section, epoch_of};
use smc_core::{
    BeginPhase, Call, CancelPhase, Choice, FinishPhase, LAST_EPOCH, Owned, Phase, Section, Stand,
    Word,
};
use smc_words::RoundWord;

/// Where the step of this choice leaves the section.
pub fn section_after(stand: &Stand, choice: &Choice, seen: Word) -> Section
    ensures { result ≡ section_after stand.now.section stand.now.phase choice.now seen }
{
    match choice {
        Choice::Go => match stand.phase {
            Phase::Entering => entering_section(stand.section, seen),
            _ => stand.section,
        },
        Choice::Start(Call::Enter) => Section::Loaded { seen: seen.plain() },
        Choice::Start(Call::Leave) => Section::Outside,
        Choice::Start(_) => stand.section,
    }
}

/// A begin owns its round where it saw none.
fn round_begun(epoch: u64, coll: u8, seen: Option<RoundWord>, owned: Option<Owned>) -> Option<Owned>
    requires { epoch ≤ LAST_EPOCH }
    ensures { result ≡ round_begun epoch coll seen owned }
{
    match seen {
        None => Some(Owned {
            bound: epoch + 1,
            coll,
        }),
        Some(_) => owned,
    }
}

/// The round that the pass owns after the step.
pub fn round_after(stand: &Stand, choice: &Choice, seen: Word) -> Option<Owned>
    requires { FitsSection stand.now.section }
    ensures { result ≡
        round_after stand.now.round stand.now.section stand.now.phase choice.now seen }
{
    match choice {
        Choice::Go => match stand.phase {
            Phase::Begin(BeginPhase::Nothing { .. })
            | Phase::Finish(FinishPhase::End(_))
            | Phase::Cancel(CancelPhase::End) => None,
            _ => stand.round,
        },
        Choice::Start(Call::Begin { coll }) => {
            round_begun(epoch_of(stand.section), *coll, seen.round(), stand.round)
        }
        Choice::Start(_) => stand.round,
    }
}

/// How many scans the pass has begun after the step. The caller sees that the count has room.
pub fn begun_after(begun: u32, choice: &Choice) -> u32
    requires { begun_after begun choice.now ≤ u32.MAX }
    ensures { result ≡ begun_after begun choice.now }
{
    match choice {
        Choice::Start(Call::Scan { .. }) => begun + 1,
        Choice::Start(_) | Choice::Go => begun,
    }
}

/// How many notes it has made. The caller sees that the count has room.
pub fn noted_after(noted: u32, choice: &Choice) -> u32
    requires { noted_after noted choice.now ≤ u32.MAX }
    ensures { result ≡ noted_after noted choice.now }
{
    match choice {
        Choice::Start(Call::Note) => noted + 1,
        Choice::Start(_) | Choice::Go => noted,
    }
}
