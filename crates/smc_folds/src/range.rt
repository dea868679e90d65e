ghost use Rattle.std.specs.Prelude.{◌≡◌};
ghost use Rattle.smc_folds.specs.Boxes.{KeepsEnds, range_kind};
ghost use Rattle.smc_folds.specs.Takings.{announced};

use crate::Fold;

/// The greatest number less the least; none of an empty list.
#[derive(Drop)]
pub struct Range {
    first: Option<i128>,
    last: Option<i128>,
}

impl Range {
    /// A box that has taken nothing.
    pub fn new() -> Self
        ensures { ⟦<Range as Fold>⟧.has_taken result (announced 0) }
    {
        Range {
            first: None,
            last: None,
        }
    }
}

impl Fold for Range {
    ghost kind = { λ _. range_kind };

    ghost has_taken = { λ box taking. KeepsEnds taking box.first box.last };

    fn name(&self) -> &str {
        "range"
    }

    fn scaled(&self) -> bool {
        true
    }

    fn start(&mut self, _count: u64) {
        self.first = None;
        self.last = None;
    }

    fn take(&mut self, value: i128) {
        self.first = self.first.or(Some(value));
        self.last = Some(value);
    }

    fn answer(&self) -> Option<i128> {
        match (self.first, self.last) {
            (Some(least), Some(greatest)) => Some(greatest - least),
            _ => None,
        }
    }
}
