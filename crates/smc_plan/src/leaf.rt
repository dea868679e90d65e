ghost use Rattle.std.specs.Prelude.{◌≡◌, length};
ghost use Rattle.smc_plan.specs.Leaves.{same_hop, same_hops, same_type, same_leaf};

use smc_types::FieldType;
use std::marker::Model;

/// A reference that a path follows: the word at place `at` of a record of `table`, which has `width` words.
#[derive(Clone, Copy, Debug)]
pub struct Hop {
    pub table: u32,
    pub width: u32,
    pub at: u32,
}

/// The references that a path follows, in order. Contracts see a list.
#[derive(Debug, Drop)]
pub struct Hops {
    hops: Vec<Hop>,
}

impl Model for Hops {
    ghost use Rattle.std.specs.Prelude.{List};
    ghost use Rattle.smc_plan.specs.declared.leaf.Hop.{Hop};

    ghost Value = { List Hop };

    ghost view = { λ list. list.hops.items };
}

impl Hops {
    /// From a vector, which takes no memory.
    pub fn of(hops: Vec<Hop>) -> Hops
        ensures { result ≡ hops.items }
    {
        Hops { hops }
    }

    /// All of them, in order.
    pub fn as_slice(&self) -> &[Hop]
        ensures { result.now ≡ self.now }
    {
        self.hops.as_slice()
    }
}

/// What a path comes to: the column of type `kind` that begins at place `at` of a record of `table`, which has `width`
/// words, behind these references.
#[derive(Debug, Drop)]
pub struct Leaf {
    pub hops: Hops,
    pub table: u32,
    pub width: u32,
    pub at: u32,
    pub kind: FieldType,
}

fn same_type(one: FieldType, other: FieldType) -> bool
    ensures { result ≡ same_type one other }
{
    match (one, other) {
        (FieldType::Count, FieldType::Count) => true,
        (FieldType::Amount, FieldType::Amount) => true,
        (FieldType::Rate, FieldType::Rate) => true,
        (FieldType::Day, FieldType::Day) => true,
        (FieldType::Text(one), FieldType::Text(other)) => one == other,
        (FieldType::RefTo(one), FieldType::RefTo(other)) => one == other,
        _ => false,
    }
}

fn same_hop(one: Hop, other: Hop) -> bool
    ensures { result ≡ same_hop one other }
{
    one.table == other.table && one.width == other.width && one.at == other.at
}

fn same_hops(one: &[Hop], other: &[Hop]) -> bool
    ensures { result ≡ same_hops one.now other.now }
{
    match (one.split_first(), other.split_first()) {
        (None, None) => true,
        (Some((first, rest)), Some((second, others))) => {
            same_hop(*first, *second) && same_hops(rest, others)
        }
        _ => false,
    }
}

/// Whether two leaves are one.
pub(crate) fn same_leaf(one: &Leaf, other: &Leaf) -> bool
    ensures { result ≡ same_leaf one.now other.now }
{
    same_hops(one.hops.as_slice(), other.hops.as_slice())
        && one.table == other.table
        && one.width == other.width
        && one.at == other.at
        && same_type(one.kind, other.kind)
}
