//! A check of answers, which the gate runs: reads rows of tables and queries from standard input, one a line, and prints
//! what each query comes to by the plain evaluator over the rows that stand before it.
//!
//! A line is `row`, a table and the row as it stands in a file of the table, or `query`, one space, and a query text. A text
//! is parsed, printed and parsed again, and the second reading is planned and answered, so an answer shows that printing
//! keeps what a query means. `world` keeps the rows and follows their references; it is plain, slow and shares nothing with
//! the region. `stdin` has the tables and queries, and `stdout` the answers, worked out by hand. Nothing stands on it.
#![tactic(auto)]

ghost use Rattle.std.specs.Prelude.{◌≡◌, IfOk};
ghost use Rattle.smc_plan.specs.Leaves.{leaves_words};

mod lone;
mod world;

use anyhow::bail;
use lone::Lone;
use smc_folds::{Bench, Boxed, Distinct, Median, Range};
use smc_lang::parse;
use smc_meaning::{ROWS_MAX, Rows, slow};
use smc_plan::laws::parts_are_typed;
use smc_plan::{Plan, plan_query};
use smc_print::print;
use smc_query::Query;
use smc_types::{Catalog, tpch};
use std::alloc::Global;
use world::{World, place_of};

/// The names of the folds: those that scripts may call, and one of this program's own.
const FOLDS: [&str; 4] = ["distinct", "median", "range", "lone"];

fn main(rt: HostRuntime) -> anyhow::Result<()> {
    let alloc = rt.alloc();
    let catalog = tpch(alloc)?;
    let mut bench = Bench::new(alloc);
    bench.boxes.push(Boxed {
        fold: Box::new(alloc, Distinct::new())?,
    })?;
    bench.boxes.push(Boxed {
        fold: Box::new(alloc, Median::new())?,
    })?;
    bench.boxes.push(Boxed {
        fold: Box::new(alloc, Range::new())?,
    })?;
    bench.boxes.push(Boxed {
        fold: Box::new(alloc, Lone::new())?,
    })?;
    let mut world = World::new(alloc);
    for line in rt.lines(alloc) {
        let line = line?;
        match line.as_str().split_once(' ') {
            Some(("row", row)) => world.add(alloc, &catalog, row)?,
            Some(("query", text)) => {
                let told = told_of(alloc, &catalog, &world, &mut bench, text)?;
                print!(rt; "{told}")?;
            }
            _ => bail!("a line of no form"),
        }
    }
    Ok(())
}

/// The query of a text, as it is read again from what is printed of it.
fn read_again(alloc: Global, text: &str) -> anyhow::Result<Query> {
    let query = parse(alloc, text)?;
    let printed = print(alloc, &query)?;
    let again = parse(alloc, printed.as_str())?;
    if print(alloc, &again)?.as_str() != printed.as_str() {
        bail!("a query that is printed in two ways");
    }
    Ok(again)
}

/// The answer to a query over the rows that are there, as text.
fn told_of(
    alloc: Global,
    catalog: &Catalog,
    world: &World,
    bench: &mut Bench,
    text: &str,
) -> anyhow::Result<String> {
    parts_are_typed();
    let query = read_again(alloc, text)?;
    let plan = plan_query(alloc, &query, catalog, &FOLDS)?;
    let Some(place) = place_of(catalog, query.table.as_str()) else {
        bail!("a table that is not there");
    };
    let rows = rows_of(alloc, world, &plan, place as u32 + 1)?;
    if rows.len() > ROWS_MAX {
        bail!("too many rows");
    }
    let text = slow(alloc, &plan, bench, &rows)?.text(alloc)?;
    Ok(String::from_utf8(text)?)
}

/// The rows of the leaves of a plan that are whole.
fn rows_of(alloc: Global, world: &World, plan: &Plan, table: u32) -> anyhow::Result<Rows>
    ensures { IfOk result (λ rows. rows.width ≡ leaves_words plan.now.leaves) }
{
    let words = plan.words() as usize;
    let mut rows = Rows::new(alloc, words);
    for place in 0..world.len(table) {
        if let Some(row) = world.row(alloc, plan.leaves(), place)? {
            if row.len() != words {
                bail!("a row of other words");
            }
            rows.push(&row)?;
        }
    }
    Ok(rows)
}
