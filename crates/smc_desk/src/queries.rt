//! Queries: a plan is answered over the rows of its table.
ghost use Rattle.std.specs.Prelude.{◌≡◌, ◌<◌, true, IfOk, Ok, is_ok, length, map};
ghost use Rattle.smc_region.specs.Callers.{IsPassOf, IsSame};
ghost use Rattle.smc_does.specs.Does.{DoesSome, OwnsNone};
ghost use Rattle.smc_query.specs.Trees.{query_tree};
ghost use Rattle.smc_plan.specs.Items.{names_of};
ghost use Rattle.smc_plan.specs.Planned.{plan_tree};
ghost use Rattle.smc_types.specs.Tables.{the_tables};
ghost use Rattle.smc_replies.specs.Queries.{AnswersQuery, query_plan};

use crate::reply::Reply;
use smc_exec::answer;
use smc_folds::{Bench, Fold};
use smc_plan::{Plan, PlanFault, plan_query};
use smc_query::Query;
use smc_region::{Pass, Region};
use smc_script::{FoldName, FoldNames, Place};
use smc_types::Catalog;
use smc_words::NoMemory;
use std::alloc::Global;

// The names as words, in order.
fn fold_words(alloc: Global, folds: &[FoldName]) -> Result<Vec<&str>, NoMemory>
    ensures { IfOk result (λ words. names_of words.items ≡ folds.now) }
{
    let mut words = Vec::new(alloc);
    for name in folds {
        words.push(name.as_str())?;
    }
    Ok(words)
}

/// Whether a query has a plan, where these folds may be called.
pub(crate) fn can_query(
    alloc: Global,
    query: &Query,
    catalog: &Catalog,
    folds: &FoldNames,
) -> Result<bool, NoMemory>
    requires tables { catalog.now ≡ the_tables }
    ensures { IfOk result (λ can. can ≡ is_ok (query_plan folds.now (query_tree query.now))) }
{
    let words = fold_words(alloc, folds.as_slice())?;
    match plan_query(alloc, query, catalog, words.as_slice()) {
        Ok(_) => Ok(true),
        Err(PlanFault::NoMemory) => Err(NoMemory),
        Err(_) => Ok(false),
    }
}

// The plan of a query that has one.
fn planned(
    alloc: Global,
    query: &Query,
    catalog: &Catalog,
    folds: &FoldNames,
) -> Result<Plan, NoMemory>
    requires tables { catalog.now ≡ the_tables }
    requires planned { is_ok (query_plan folds.now (query_tree query.now)) ≡ true }
    ensures { IfOk result (λ plan. query_plan folds.now (query_tree query.now) ≡ Ok (plan_tree plan)) }
{
    let words = fold_words(alloc, folds.as_slice())?;
    match plan_query(alloc, query, catalog, words.as_slice()) {
        Ok(plan) => Ok(plan),
        Err(PlanFault::NoMemory) => Err(NoMemory),
        Err(_) => unreachable!(),
    }
}

/// Answers a query, which has a plan, by the boxes of the bench.
pub(crate) fn query(
    alloc: Global,
    place: Place,
    query: &Query,
    catalog: &Catalog,
    folds: &FoldNames,
    bench: &mut Bench,
    pass: Pass,
    region: &Region,
) -> (Pass, Result<Reply, NoMemory>)
    requires here { IsPassOf region.now pass }
    requires tables { catalog.now ≡ the_tables }
    requires planned { is_ok (query_plan folds.now (query_tree query.now)) ≡ true }
    requires coll { place.coll < length region.now.about.shape.colls }
    ensures done { IfOk result.1 (λ reply. DoesSome pass result.0 (λ calls. AnswersQuery region.now.about.shape folds.now place.coll (query_tree query.now) (map (λ b. (⟦<dyn Fold as Fold>⟧ b.fold.vtable).kind b.fold.value) bench.old.boxes.items) calls reply)) }
    ensures kept { map (λ b. (⟦<dyn Fold as Fold>⟧ b.fold.vtable).kind b.fold.value) bench.new.boxes.items
        ≡ map (λ b. (⟦<dyn Fold as Fold>⟧ b.fold.vtable).kind b.fold.value) bench.old.boxes.items }
    ensures home { IsSame pass result.0 × (OwnsNone pass → OwnsNone result.0) }
{
    let plan = match planned(alloc, query, catalog, folds) {
        Ok(plan) => plan,
        Err(fault) => return (pass, Err(fault)),
    };
    let (pass, text) = answer(alloc, &plan, bench, pass, region, place.coll);
    match text {
        Ok(text) => (pass, Ok(Reply::from_bytes(text))),
        Err(fault) => (pass, Err(fault)),
    }
}
