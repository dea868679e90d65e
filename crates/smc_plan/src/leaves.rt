ghost use Rattle.std.specs.Prelude.{◌≡◌, ◌<◌, [], length, IfOk, IfSome};
ghost use Rattle.smc_plan.specs.Leaves.{leaves_words, place_of};
ghost use Rattle.smc_plan.specs.Planning.{made, placed};

use crate::Leaf;
use crate::leaf::same_leaf;
use smc_words::NoMemory;
use std::alloc::Global;
use std::marker::Model;

/// The different leaves of a plan, in the order of the text. Contracts see a list.
#[derive(Debug, Drop)]
pub struct Leaves {
    leaves: Vec<Leaf>,
    // The words of all of them, kept since they have to be few enough for a `u32`.
    words: u32,
}

impl Model for Leaves {
    ghost use Rattle.std.specs.Prelude.{◌≡◌, List};
    ghost use Rattle.smc_plan.specs.declared.leaf.Leaf.{Leaf};
    ghost use Rattle.smc_plan.specs.Leaves.{leaves_words};

    ghost Value = { List Leaf };

    ghost view = { λ list. list.leaves.items };

    ghost invariant = { λ list. list.words ≡ leaves_words list.leaves.items };
}

// Where a leaf stands among others.
fn place_of(leaves: &[Leaf], leaf: &Leaf) -> Option<usize>
    ensures place { result ≡ place_of leaves.now leaf.now }
    ensures within { IfSome result (λ place. place < length leaves.now) }
{
    leaves.iter().position(|other| same_leaf(other, leaf))
}

impl Leaves {
    /// No leaves.
    pub(crate) fn new(alloc: Global) -> Leaves
        ensures { result ≡ [] }
    {
        Leaves {
            leaves: Vec::new(alloc),
            words: 0,
        }
    }

    /// All of them, in order.
    pub fn as_slice(&self) -> &[Leaf]
        ensures { result.now ≡ self.now }
    {
        self.leaves.as_slice()
    }

    /// How many words all of them take in a row.
    pub fn words(&self) -> u32
        ensures { result ≡ leaves_words self.now }
    {
        self.words
    }

    /// The place of a leaf, which is put behind the others where it is none of them. A row that would have more words than
    /// a `u32` counts has no room.
    pub(crate) fn place(&mut self, leaf: Leaf) -> Result<usize, NoMemory>
        ensures { IfOk result (λ place. placed self.old leaf ≡ made self.new place) }
    {
        if let Some(place) = place_of(self.leaves.as_slice(), &leaf) {
            return Ok(place);
        }
        let Some(words) = self.words.checked_add(leaf.kind.width()) else {
            return Err(NoMemory);
        };
        let place = self.leaves.len();
        self.leaves.push(leaf)?;
        self.words = words;
        Ok(place)
    }
}
