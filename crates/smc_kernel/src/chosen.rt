//! Places of a batch that are chosen.
ghost use Rattle.std.specs.Prelude.{◌≡◌, ◌++◌, ◌∷◌, [], ◌<◌, ◌≤◌, if◌then◌else◌, length};
ghost use Rattle.smc_kernel.specs.declared.batch.TheConstants.{ROOM};

use crate::batch::ROOM;
use std::marker::Model;

/// At most 64 places. Contracts see the list.
#[derive(Debug, Drop)]
pub(crate) struct Chosen {
    places: [u8; ROOM],
    count: usize,
}

impl Model for Chosen {
    ghost use Rattle.std.specs.Prelude.{List, ℕ, take, ◌≤◌};
    ghost use Rattle.smc_kernel.specs.declared.batch.TheConstants.{ROOM};

    ghost Value = { List ℕ };

    ghost view = { λ chosen. take chosen.count chosen.places };

    ghost invariant = { λ chosen. chosen.count ≤ ROOM };
}

impl Chosen {
    /// No places.
    pub(crate) fn new() -> Chosen
        ensures { result ≡ [] }
    {
        Chosen {
            places: [0; ROOM],
            count: 0,
        }
    }

    /// All of them.
    #[inline(always)]
    pub(crate) fn as_slice(&self) -> &[u8]
        ensures places { result.now ≡ self.now }
        ensures few { length self.now ≤ ROOM }
    {
        let (front, _) = self.places.split_at(self.count);
        front
    }

    /// Puts a place behind the others where it is kept.
    #[inline(always)]
    pub(crate) fn offer(&mut self, place: u8, keep: bool)
        requires { length self.old < ROOM }
        ensures { self.new ≡ (if keep then self.old ++ place ∷ [] else self.old) }
    {
        self.places[self.count] = place;
        self.count += usize::from(keep);
    }
}
