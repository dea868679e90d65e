//! A check of plans, which the gate runs: reads texts from standard input, one a line, and prints what each comes to over
//! the tables of TPC-H.
//!
//! A line is `query`, one space, and a query text, or `edit`, a table, a column and the text of an edit. Of a plan it is
//! said how many leaves it has and how many words these take in a row, and at an edit which word is written; of what has no
//! plan, why. One fold may be called, `median`. `stdin` has the texts and `stdout` what docs/FORMATS.md says of them,
//! written by hand. Nothing stands on it.
#![tactic(auto)]

use anyhow::bail;
use smc_lang::{parse, parse_edit};
use smc_plan::{plan_edit, plan_query};
use smc_types::{Catalog, tpch};
use std::alloc::Global;

fn main(rt: HostRuntime) -> anyhow::Result<()> {
    let alloc = rt.alloc();
    let catalog = tpch(alloc)?;
    for line in rt.lines(alloc) {
        let line = line?;
        let told = told_of(alloc, &catalog, line.as_str())?;
        println!(rt; "{told}")?;
    }
    Ok(())
}

/// What is printed for a line.
fn told_of(alloc: Global, catalog: &Catalog, line: &str) -> anyhow::Result<String> {
    match line.split_once(' ') {
        Some(("query", text)) => query_of(alloc, catalog, text),
        Some(("edit", text)) => edit_of(alloc, catalog, text),
        _ => bail!("a line of no form"),
    }
}

/// The leaves of a query, or why it has no plan.
fn query_of(alloc: Global, catalog: &Catalog, text: &str) -> anyhow::Result<String> {
    let query = parse(alloc, text)?;
    match plan_query(alloc, &query, catalog, &["median"]) {
        Ok(plan) => {
            let leaves = plan.leaves().len();
            let words = plan.words();
            Ok(format!(in alloc; "leaves {leaves} words {words}")?)
        }
        Err(fault) => Ok(format!(in alloc; "{fault}")?),
    }
}

/// The leaves of an edit and the word that it writes, or why it has no plan.
fn edit_of(alloc: Global, catalog: &Catalog, line: &str) -> anyhow::Result<String> {
    let Some((table, line)) = line.split_once(' ') else {
        bail!("an edit without a column");
    };
    let Some((column, text)) = line.split_once(' ') else {
        bail!("an edit without a value");
    };
    let (value, filter) = parse_edit(alloc, text)?;
    match plan_edit(alloc, table, column, &value, filter.as_ref(), catalog) {
        Ok(plan) => {
            let leaves = plan.leaves().len();
            let words = plan.words();
            let at = plan.field_at();
            Ok(format!(in alloc; "leaves {leaves} words {words} writes {at}")?)
        }
        Err(fault) => Ok(format!(in alloc; "{fault}")?),
    }
}
