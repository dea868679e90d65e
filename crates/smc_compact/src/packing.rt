//! A collection is packed, and counted afterwards.
ghost use Rattle.std.specs.Prelude.{◌≡◌, ◌<◌, ◌≤◌, length};
ghost use Rattle.smc_region.specs.Callers.{IsPassOf, IsSame};
ghost use Rattle.smc_does.specs.Does.{DoesSome, OwnsNone};
ghost use Rattle.smc_compact.specs.Calls.{Keeps};
ghost use Rattle.smc_compact.specs.Packs.{HasSurveyed, Packs};

use crate::counting::{Census, survey};
use crate::driving::drive;
use crate::outcome::Outcome;
use smc_region::{Pass, Region};

/// How a collection was packed.
#[derive(Clone, Copy, Debug, PartialEq, Eq)]
pub struct Packed {
    /// How the drive ended.
    pub outcome: Outcome,
    /// What a survey counted behind it.
    pub census: Census,
}

/// Counts the objects in a section.
fn survey_alone(p: Pass, region: &Region, c: u8) -> (Pass, Census)
    requires here { IsPassOf region.now p }
    requires coll { c < length p.shape.colls }
    ensures done { DoesSome p result.0 (HasSurveyed c result.1) }
    ensures home { IsSame p result.0 }
    ensures keeps { Keeps p.local result.0.local }
{
    let mut section = p.enter(region);
    let census = survey(&mut section, c);
    (section.leave(), census)
}

/// Moves the objects of the collection into the fewest blocks that hold them, as a drive does, and counts them afterwards.
pub fn pack(p: Pass, region: &Region, c: u8, turns: u32) -> (Pass, Packed)
    requires here { IsPassOf region.now p }
    requires coll { c < length p.shape.colls }
    requires turns { (0 < turns) × (turns ≤ 1_000_000) }
    requires none { OwnsNone p }
    ensures done { DoesSome p result.0 (Packs c turns result.1) }
    ensures home { IsSame p result.0 }
    ensures none { OwnsNone result.0 }
    ensures keeps { Keeps p.local result.0.local }
{
    let (p, outcome) = drive(p, region, c, turns);
    let (p, census) = survey_alone(p, region, c);
    (p, Packed { outcome, census })
}
