//! Files whose bytes come in pieces.
ghost use Rattle.std.specs.Prelude.{◌≡◌, ◌<◌, Some};
ghost use Rattle.smc_outside.specs.Causes.{HasCause};
ghost use Rattle.smc_outside.specs.Shelves.{Fetches, FetchesAtMost};

use smc_outside::{Failed, MemShelf, Shelf};

/// A shelf that gives at most `most` bytes at a fetch.
#[derive(Drop)]
pub struct Pieces {
    pub shelf: MemShelf,
    pub most: usize,
    pub ghost some: { 0 < most },
}

impl Shelf for Pieces {
    ghost files = { λ s. Some s.shelf.files };

    ghost faults = { λ s. s.shelf.faults };

    fn fetch(&mut self, name: &str, at: u64, buf: &mut [u8]) -> Result<Option<usize>, Failed>
        ensures bound { FetchesAtMost result buf.new }
        ensures bytes { Fetches (Some self.old.shelf.files) name.now at result buf.new }
        ensures kept { Some self.new.shelf.files ≡ Some self.old.shelf.files }
        ensures cause { HasCause self.old.shelf.faults self.new.shelf.faults result }
    {
        let most = self.most.min(buf.len());
        let (front, _) = buf.split_at_mut(most);
        self.shelf.fetch(name, at, front)
    }
}
