ghost use Rattle.std.specs.Prelude.{◌≡◌};

use crate::{Cond, Expr, Path, Paths};
use smc_tokens::Name;
use std::marker::Model;

/// What an output column shows of a group.
#[derive(Debug, Drop)]
pub enum ItemCall {
    Count,
    Sum(Expr),
    Avg(Expr),
    Min(Expr),
    Max(Expr),
    Fold { name: Name, of: Expr },
}

/// An output column, and its label where it has one.
#[derive(Debug, Drop)]
pub struct Item {
    pub call: ItemCall,
    pub label: Option<Name>,
}

/// Output columns, in the order of the text. Contracts see a list.
#[derive(Debug, Drop)]
pub struct Items {
    items: Vec<Item>,
}

impl Model for Items {
    ghost use Rattle.std.specs.Prelude.{List};
    ghost use Rattle.smc_query.specs.declared.query.Item.{Item};

    ghost Value = { List Item };

    ghost use Rattle.smc_query.specs.contracts.expr.Expr as expressions;
    ghost use Rattle.std.specs.Coded.{codes};

    ghost coded = { Prim.hlevel (codes, expressions.the_row.coded) };

    ghost view = { λ list. list.items.items };
}

impl Items {
    /// From a vector, which takes no memory.
    pub fn of(items: Vec<Item>) -> Items
        ensures { result ≡ items.items }
    {
        Items { items }
    }

    /// All of them, in order.
    pub fn as_slice(&self) -> &[Item]
        ensures { result.now ≡ self.now }
    {
        self.items.as_slice()
    }
}

/// A key by which the groups are ordered: a path, and whether they fall.
#[derive(Debug, Drop)]
pub struct SortKey {
    pub path: Path,
    pub desc: bool,
}

/// Sort keys, in the order of the text. Contracts see a list.
#[derive(Debug, Drop)]
pub struct SortKeys {
    keys: Vec<SortKey>,
}

impl Model for SortKeys {
    ghost use Rattle.std.specs.Prelude.{List};
    ghost use Rattle.smc_query.specs.declared.query.SortKey.{SortKey};

    ghost Value = { List SortKey };

    ghost view = { λ list. list.keys.items };
}

impl SortKeys {
    /// From a vector, which takes no memory.
    pub fn of(keys: Vec<SortKey>) -> SortKeys
        ensures { result ≡ keys.items }
    {
        SortKeys { keys }
    }

    /// All of them, in order.
    pub fn as_slice(&self) -> &[SortKey]
        ensures { result.now ≡ self.now }
    {
        self.keys.as_slice()
    }
}

/// A query.
#[derive(Debug, Drop)]
pub struct Query {
    pub table: Name,
    pub filter: Option<Cond>,
    pub by: Paths,
    pub items: Items,
    pub sort: SortKeys,
    pub first: Option<u64>,
}
