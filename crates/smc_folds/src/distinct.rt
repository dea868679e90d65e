ghost use Rattle.std.specs.Prelude.{◌≡◌};
ghost use Rattle.smc_folds.specs.Boxes.{KeepsDifferent, distinct_kind, is_new};
ghost use Rattle.smc_folds.specs.Takings.{announced};

use crate::Fold;

/// How many different numbers there are.
#[derive(Drop)]
pub struct Distinct {
    different: u64,
    last: Option<i128>,
}

// Whether the number is another than the one before it, or the first.
fn is_new(before: Option<i128>, value: i128) -> bool
    ensures { result ≡ is_new before value }
{
    match before {
        Some(before) => before != value,
        None => true,
    }
}

impl Distinct {
    /// A box that has taken nothing.
    pub fn new() -> Self
        ensures { ⟦<Distinct as Fold>⟧.has_taken result (announced 0) }
    {
        Distinct {
            different: 0,
            last: None,
        }
    }
}

impl Fold for Distinct {
    ghost kind = { λ _. distinct_kind };

    ghost has_taken = { λ box taking. KeepsDifferent taking box.different box.last };

    fn name(&self) -> &str {
        "distinct"
    }

    fn scaled(&self) -> bool {
        false
    }

    fn start(&mut self, _count: u64) {
        self.different = 0;
        self.last = None;
    }

    fn take(&mut self, value: i128) {
        if is_new(self.last, value) {
            self.different += 1;
        }
        self.last = Some(value);
    }

    fn answer(&self) -> Option<i128> {
        Some(i128::from(self.different))
    }
}
