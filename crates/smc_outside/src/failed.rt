ghost use Rattle.std.specs.Prelude.{◌≡◌, ◌≤◌, Some, codes};
ghost use Rattle.smc_outside.specs.Causes.{raised};

use std::error::Error;
use std::fmt;
use std::marker::Model;

/// A call outside failed. The count of faults of the object that was called rose in that call, or stands at its last
/// value, 2^64 - 1. Nothing that the object tells was moved.
#[derive(Clone, Copy, Debug, PartialEq, Eq)]
pub struct Failed;

impl fmt::Display for Failed {
    ghost output = { λ _. Some (codes "a call outside failed") };

    fn fmt<W: fmt::Write>(&self, f: &mut fmt::Formatter<W>) -> fmt::Result {
        write!(f, "a call outside failed")
    }
}

impl Error for Failed {}

// How many calls of an object have failed. It stands still at its last value.
#[derive(Drop)]
pub(crate) struct Faults {
    count: u64,
}

impl Model for Faults {
    ghost use Rattle.std.specs.Prelude.{ℕ};

    ghost Value = { ℕ };

    ghost view = { λ faults. faults.count };
}

impl Faults {
    // Of an object of which no call was made.
    pub(crate) fn none() -> Self
        ensures { result ≡ 0 }
    {
        Faults { count: 0 }
    }

    // Counts a failure, and gives the error that tells it.
    pub(crate) fn raise(&mut self) -> Failed
        ensures counted { self.new ≡ raised self.old }
        ensures later { self.old ≤ self.new }
    {
        self.count = self.count.saturating_add(1);
        Failed
    }
}

#[cfg(test)]
mod tests {
    use super::*;
    use std::test::Fail;

    #[test]
    fn a_failure_is_told_in_words(rt: HostRuntime) -> Result<(), Fail> {
        let text = format!(in rt.alloc(); "{Failed}")?;
        assert_eq!(rt; text.as_str(), "a call outside failed");
        Ok(())
    }
}
