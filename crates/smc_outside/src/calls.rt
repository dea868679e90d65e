// The calls of an object in memory, some of which fail as its maker wished.
ghost use Rattle.std.specs.Prelude.{◌≡◌};
ghost use Rattle.smc_outside.specs.Causes.{raised};
ghost use Rattle.smc_outside.specs.InMemory.{is_listed};

// How many calls were made, and which fail. The count stands still at its last value.
#[derive(Drop)]
pub(crate) struct Calls {
    pub(crate) made: u64,
    pub(crate) fails: Vec<u64>,
}

impl Calls {
    // Of an object of which no call was made.
    pub(crate) fn none(fails: Vec<u64>) -> Self
        ensures { result ≡ record { made = 0; fails = fails } }
    {
        Calls { made: 0, fails }
    }

    // Counts a call, and answers whether it is one that fails.
    pub(crate) fn count(&mut self) -> bool
        ensures listed { result ≡ is_listed self.old.fails.items self.old.made }
        ensures counted { self.new ≡ record self.old { made = raised self.old.made } }
    {
        let call = self.made;
        self.made = call.saturating_add(1);
        self.fails.contains(&call)
    }
}
