ghost use Rattle.std.specs.Prelude.{◌≡◌, ℕ, List};
ghost use Rattle.std.specs.declared.option.Option.{Option};
ghost use Rattle.smc_outside.specs.Causes.{HasCause};
ghost use Rattle.smc_outside.specs.Shelves.{Fetches, FetchesAtMost};

use crate::Failed;

/// Files that are found by name.
pub trait Shelf {
    /// The files with their names, where the shelf tells them. The first of equal names counts.
    ghost files: { Self → Option (List (List ℕ × List ℕ)) };

    /// How many calls have failed, up to 2^64 - 1.
    ghost faults: { Self → ℕ };

    /// Reads from the file of that name, from the byte at `at` on, into the front of `buf`, and answers how many bytes;
    /// `None` where no file has the name. `Some(0)` with room in `buf` is the end of the file.
    fn fetch(&mut self, name: &str, at: u64, buf: &mut [u8]) -> Result<Option<usize>, Failed>
        ensures bound { FetchesAtMost result buf.new }
        ensures bytes { Fetches (files self.old) name.now at result buf.new }
        ensures kept { files self.new ≡ files self.old }
        ensures cause { HasCause (faults self.old) (faults self.new) result };
}
