//! The epoch of a region is moved on.
ghost use Rattle.std.specs.Prelude.{◌≡◌, ◌+◌, ◌≤◌};
ghost use Rattle.smc_region.specs.Advances.{Advances, done_of};
ghost use Rattle.smc_region.specs.Callers.{IsPassOf, IsSame, answered_by};
ghost use Rattle.smc_region.specs.Named.{IsLow, Rises};

use crate::chosen::Chosen;
use crate::pass::Pass;
use crate::region::{Region, step};
use smc_core::{LAST_EPOCH, Op, Word};
use smc_shape::Place;

/// How an advance ended.
#[derive(Clone, Copy, Debug, PartialEq, Eq)]
pub enum Advance {
    /// The epoch is now this one.
    Advanced { epoch: u64 },
    /// The section of this pass has another epoch.
    NotYet { pass: u32, seen: u64 },
    /// Another pass has moved the epoch on, to this one.
    Overtaken { seen: u64 },
    /// The epoch is the last one.
    Spent,
}

impl Pass {
    /// Tries to move the epoch on by one, which needs that no section has an earlier epoch.
    pub fn advance(&mut self, region: &Region) -> Advance
        requires here { IsPassOf region.now self.old }
        ensures same { IsSame self.old self.new }
        ensures answered { self.new.local ≡ answered_by self.old.local self.new.local.steps (done_of result) }
        ensures few { self.new.local.steps ≤ self.old.local.steps + self.old.shape.passes + 2 }
        ensures low { IsLow result }
        ensures cause { Advances self.old self.new result }
        ensures rises { Rises self.old.local result }
    {
        let load = Op::Load {
            place: Place::Epoch,
        };
        let epoch = step(region, &mut self.seat, Chosen::Advance, load).plain();
        if epoch == LAST_EPOCH {
            return Advance::Spent;
        }
        for pass in 0..region.about.shape.passes() {
            let load = Op::Load {
                place: Place::Section { pass },
            };
            let seen = step(region, &mut self.seat, Chosen::Go, load).plain();
            if seen != 0 && seen != epoch {
                return Advance::NotYet { pass, seen };
            }
        }
        let raise = Op::Exchange {
            place: Place::Epoch,
            expect: Word::Plain(epoch),
            put: Word::Plain(epoch + 1),
        };
        let seen = step(region, &mut self.seat, Chosen::Go, raise).plain();
        if seen == epoch {
            Advance::Advanced { epoch: epoch + 1 }
        } else {
            Advance::Overtaken { seen }
        }
    }
}
