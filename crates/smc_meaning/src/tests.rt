ghost use Rattle.std.specs.Prelude.{◌≡◌, IfOk, length};
ghost use Rattle.smc_plan.specs.Kinds.{IsPlan};
ghost use Rattle.smc_plan.specs.Planned.{plan_tree};

use crate::{Rows, slow};
use smc_folds::{Bench, Boxed, Median};
use smc_plan::laws::parts_are_typed;
use smc_plan::{Plan, PlanFault, plan_query};
use smc_query::{Expr, Item, ItemCall, Items, Names, Path, Paths, Query, SortKeys};
use smc_tokens::Name;
use smc_types::tpch;
use smc_words::NoMemory;
use std::alloc::Global;
use std::test::Fail;

fn name(alloc: Global, text: &str) -> Result<Name, NoMemory> {
    Ok(Name::of(String::from_str(alloc, text)?))
}

// How many regions there are, and the median of their keys.
fn the_query(alloc: Global) -> Result<Query, NoMemory> {
    let mut names = Vec::new(alloc);
    names.push(name(alloc, "regionkey")?)?;
    let of = Expr::Field(Path {
        names: Names::of(names),
    });
    let mut items = Vec::new(alloc);
    for call in [
        ItemCall::Count,
        ItemCall::Fold {
            name: name(alloc, "median")?,
            of,
        },
    ] {
        items.push(Item { call, label: None })?;
    }
    Ok(Query {
        table: name(alloc, "region")?,
        filter: None,
        by: Paths::of(Vec::new(alloc)),
        items: Items::of(items),
        sort: SortKeys::of(Vec::new(alloc)),
        first: None,
    })
}

fn the_plan(alloc: Global, query: &Query) -> Result<Plan, PlanFault>
    ensures { IfOk result (λ plan. IsPlan plan.leaves (plan_tree plan)) }
{
    parts_are_typed();
    let catalog = tpch(alloc)?;
    plan_query(alloc, query, &catalog, &["median"])
}

// A row whose words are all the same.
fn row(alloc: Global, words: u32, word: u64) -> Result<Vec<u64>, NoMemory>
    ensures { IfOk result (λ row. length row.items ≡ words) }
{
    Ok(vec![in alloc; word; words as usize]?)
}

// The text of its answer over three rows.
fn the_text(alloc: Global, plan: &Plan) -> Result<Vec<u8>, NoMemory>
    requires { IsPlan plan.now.leaves (plan_tree plan.now) }
{
    let mut bench = Bench::new(alloc);
    bench.boxes.push(Boxed {
        fold: Box::new(alloc, Median::new())?,
    })?;
    let mut rows = Rows::new(alloc, plan.words() as usize);
    rows.push(&row(alloc, plan.words(), 5)?)?;
    rows.push(&row(alloc, plan.words(), 1)?)?;
    rows.push(&row(alloc, plan.words(), 3)?)?;
    slow(alloc, plan, &mut bench, &rows)?.text(alloc)
}

#[test]
fn a_fold_is_answered_and_printed(rt: HostRuntime) -> Result<(), Fail> {
    let alloc = rt.alloc();
    let query = the_query(alloc)?;
    let Ok(plan) = the_plan(alloc, &query) else {
        return Err(NoMemory.into());
    };
    assert_eq!(rt;
        the_text(alloc, &plan)?.as_slice(),
        b"rows 1\n3|3\n".as_slice()
    );
    Ok(())
}
