//! The plan of a query.
ghost use Rattle.std.specs.Prelude.{◌≡◌};
ghost use Rattle.smc_plan.specs.Leaves.{leaves_words};

use crate::{Leaf, Leaves, Outputs, TypedCond};
use std::marker::Model;

/// Places of leaves, in the order of the text. Contracts see a list.
#[derive(Debug, Drop)]
pub struct Places {
    places: Vec<usize>,
}

impl Model for Places {
    ghost use Rattle.std.specs.Prelude.{List, ℕ};

    ghost Value = { List ℕ };

    ghost view = { λ list. list.places.items };
}

impl Places {
    /// From a vector, which takes no memory.
    pub fn of(places: Vec<usize>) -> Places
        ensures { result ≡ places.items }
    {
        Places { places }
    }

    /// All of them, in order.
    pub fn as_slice(&self) -> &[usize]
        ensures { result.now ≡ self.now }
    {
        self.places.as_slice()
    }
}

/// A key by which the groups are ordered: the place of an output column, and whether they fall. The columns of the `by`
/// paths stand first.
#[derive(Clone, Copy, Debug)]
pub struct OrderKey {
    pub column: usize,
    pub desc: bool,
}

/// Keys by which the groups are ordered, the first before the later ones. Contracts see a list.
#[derive(Debug, Drop)]
pub struct OrderKeys {
    keys: Vec<OrderKey>,
}

impl Model for OrderKeys {
    ghost use Rattle.std.specs.Prelude.{List};
    ghost use Rattle.smc_plan.specs.declared.plan.OrderKey.{OrderKey};

    ghost Value = { List OrderKey };

    ghost view = { λ list. list.keys.items };
}

impl OrderKeys {
    /// From a vector, which takes no memory.
    pub fn of(keys: Vec<OrderKey>) -> OrderKeys
        ensures { result ≡ keys.items }
    {
        OrderKeys { keys }
    }

    /// All of them, in order.
    pub fn as_slice(&self) -> &[OrderKey]
        ensures { result.now ≡ self.now }
    {
        self.keys.as_slice()
    }
}

/// What a query means over a catalog.
#[derive(Debug, Drop)]
pub struct Plan {
    /// Its different paths, in the order of the text.
    pub leaves: Leaves,
    pub filter: Option<TypedCond>,
    /// The leaves by which rows are grouped.
    pub by: Places,
    pub items: Outputs,
    pub sort: OrderKeys,
    /// How many groups are kept at most.
    pub first: Option<u64>,
}

impl Plan {
    /// Its different paths, in the order of the text.
    pub fn leaves(&self) -> &[Leaf]
        ensures { result.now ≡ self.now.leaves }
    {
        self.leaves.as_slice()
    }

    /// How many words all leaves take in a row.
    pub fn words(&self) -> u32
        ensures { result ≡ leaves_words self.now.leaves }
    {
        self.leaves.words()
    }
}
