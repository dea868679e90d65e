//! A fold of this program's own, which has no answer for most groups.
ghost use Rattle.std.specs.Prelude.{◌≡◌};
ghost use Rattle.check_answers.specs.Lone.{KeepsFirst, lone_kind};
ghost use Rattle.smc_folds.specs.Takings.{announced};

use smc_folds::Fold;

/// The number of a list of one; none of any other.
#[derive(Drop)]
pub struct Lone {
    count: u64,
    first: Option<i128>,
}

impl Lone {
    /// A box that has taken nothing.
    pub fn new() -> Self
        ensures { ⟦<Lone as Fold>⟧.has_taken result (announced 0) }
    {
        Lone {
            count: 0,
            first: None,
        }
    }
}

impl Fold for Lone {
    ghost kind = { λ _. lone_kind };

    ghost has_taken = { λ box taking. KeepsFirst taking box.count box.first };

    fn name(&self) -> &str {
        "lone"
    }

    fn scaled(&self) -> bool {
        true
    }

    fn start(&mut self, count: u64) {
        self.count = count;
        self.first = None;
    }

    fn take(&mut self, value: i128) {
        self.first = self.first.or(Some(value));
    }

    fn answer(&self) -> Option<i128> {
        if self.count == 1 { self.first } else { None }
    }
}
