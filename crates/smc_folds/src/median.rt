ghost use Rattle.std.specs.Prelude.{◌≡◌};
ghost use Rattle.smc_folds.specs.Boxes.{KeepsMiddle, median_kind};
ghost use Rattle.smc_folds.specs.Takings.{announced};

use crate::Fold;

/// The number in the middle, the lower of two; none of an empty list.
#[derive(Drop)]
pub struct Median {
    count: u64,
    taken: u64,
    middle: Option<i128>,
}

impl Median {
    /// A box that has taken nothing.
    pub fn new() -> Self
        ensures { ⟦<Median as Fold>⟧.has_taken result (announced 0) }
    {
        Median {
            count: 0,
            taken: 0,
            middle: None,
        }
    }
}

impl Fold for Median {
    ghost kind = { λ _. median_kind };

    ghost has_taken = { λ box taking. KeepsMiddle taking box.count box.taken box.middle };

    fn name(&self) -> &str {
        "median"
    }

    fn scaled(&self) -> bool {
        true
    }

    fn start(&mut self, count: u64) {
        self.count = count;
        self.taken = 0;
        self.middle = None;
    }

    fn take(&mut self, value: i128) {
        if self.taken == (self.count - 1) / 2 {
            self.middle = Some(value);
        }
        self.taken += 1;
    }

    fn answer(&self) -> Option<i128> {
        self.middle
    }
}
