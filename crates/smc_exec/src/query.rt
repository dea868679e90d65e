//! Queries: the rows that a plan keeps of the objects of a collection are gathered.
ghost use Rattle.std.specs.Prelude.{◌≡◌, ◌<◌, ◌≤◌, ◌++◌, ◌∷◌, [], List, ℕ, IfOk, IfSome, OnOk, length};
ghost use Rattle.std.specs.List.{AllByRecursion};
ghost use Rattle.smc_region.specs.Callers.{IsPassOf, IsSame};
ghost use Rattle.smc_does.specs.Does.{DoesSome, OwnsNone};
ghost use Rattle.smc_objects.specs.Alone.{InSection};
ghost use Rattle.smc_plan.specs.Kinds.{IsTyped};
ghost use Rattle.smc_plan.specs.Leaves.{leaves_words};
ghost use Rattle.smc_plan.specs.Planned.{filter_condition, plan_tree};
ghost use Rattle.smc_meaning.specs.declared.rows.TheConstants.{ROWS_MAX};
ghost use Rattle.smc_visits.specs.Rows.{FitsRecord};
ghost use Rattle.smc_exec.specs.Gathered.{HasGathered};
ghost use Rattle.smc_exec.specs.Plans.{IsPlanned};
ghost use Rattle.smc_exec.specs.Queries.{KeepsRows};

use crate::buffer::row_buffer;
use crate::laws::queries_can_run;
use smc_filter::Filter;
use smc_meaning::{ROWS_MAX, Rows};
use smc_plan::Plan;
use smc_region::{Pass, Region};
use smc_visits::{TakeRow, scan_rows};
use smc_words::NoMemory;
use std::alloc::Global;
use std::marker::Model;

// The rows that a plan keeps of those that are read. Contracts see the plan and these rows.
#[derive(Drop)]
struct Gathering<'a> {
    plan: &'a Plan,
    filter: Filter<'a>,
    kept: Rows,
}

impl<'a> Model for Gathering<'a> {
    ghost use Rattle.std.specs.Coded.{codes};
    ghost use Rattle.smc_plan.specs.contracts.condition.TypedCond as condition;
    ghost use Rattle.smc_plan.specs.contracts.typed.Typed as typed;
    ghost use Rattle.smc_exec.specs.Gathered.{CanGather, Gathered};

    ghost Value = { Gathered };

    ghost coded = { Prim.hlevel (codes, condition.the_row.coded, typed.the_row.coded) };

    ghost view = { λ gathering. record { plan = gathering.plan.now; kept = gathering.kept } };

    ghost invariant = { λ gathering. CanGather gathering.plan.now gathering.filter gathering.kept };
}

impl<'a> Gathering<'a> {
    // No rows so far.
    fn new(alloc: Global, plan: &'a Plan) -> Result<Gathering<'a>, NoMemory>
        requires typed { IfSome (filter_condition plan.now.filter) (IsTyped plan.now.leaves) }
        ensures plan { IfOk result (λ gathering. gathering.plan ≡ plan.now) }
        ensures none { IfOk result (λ gathering. HasGathered gathering []) }
    {
        Ok(Gathering {
            plan,
            filter: Filter::of(alloc, plan.leaves(), &plan.filter)?,
            kept: Rows::new(alloc, plan.words() as usize),
        })
    }

    // The rows that the plan keeps, where a query sees so many.
    fn into_rows(self) -> Result<Rows, NoMemory>
        ensures rows { IfOk result (λ rows. rows ≡ self.entry.kept) }
        ensures width { IfOk result (λ rows. rows.width ≡ leaves_words self.entry.plan.leaves) }
        ensures few { IfOk result (λ rows. length rows.rows ≤ ROWS_MAX) }
    {
        let Gathering {
            plan: _,
            filter: _,
            kept,
        } = self;
        if kept.len() > ROWS_MAX {
            return Err(NoMemory);
        }
        Ok(kept)
    }
}

impl<'a> TakeRow for Gathering<'a> {
    ghost use Rattle.smc_plan.specs.declared.plan.Plan.{Plan};

    ghost words = { λ gathering. leaves_words gathering.plan.leaves };

    ghost About = { Plan };

    ghost about = { λ gathering. gathering.plan };

    ghost has = { HasGathered };

    fn take(&mut self, row: &[u64]) -> Result<(), NoMemory>
        requires long { length row.now ≡ leaves_words self.old.plan.leaves }
        ensures taken { (rows : List (List ℕ)) → HasGathered self.old rows → OnOk result (HasGathered self.new (rows ++ row.now ∷ [])) }
        ensures words { leaves_words self.new.plan.leaves ≡ leaves_words self.old.plan.leaves }
        ensures about { self.new.plan ≡ self.old.plan }
    {
        if self.filter.keeps(row) {
            self.kept.push(row)?;
        }
        Ok(())
    }
}

// Gathers them, where it is known that the leaves can be read.
fn gather(
    gathering: Gathering<'_>,
    plan: &Plan,
    row: &mut [u64],
    pass: Pass,
    region: &Region,
    coll: u8,
) -> (Pass, Result<Rows, NoMemory>)
    requires here { IsPassOf region.now pass }
    requires coll { coll < length pass.shape.colls }
    requires fits { AllByRecursion FitsRecord plan.now.leaves }
    requires long { length row.old ≡ leaves_words plan.now.leaves }
    requires plan { gathering.plan ≡ plan.now }
    requires none { HasGathered gathering [] }
    ensures done { IfOk result.1 (λ rows. DoesSome pass result.0 (InSection (KeepsRows pass.shape coll (plan_tree plan.now) rows.rows))) }
    ensures width { IfOk result.1 (λ rows. rows.width ≡ leaves_words plan.now.leaves) }
    ensures few { IfOk result.1 (λ rows. length rows.rows ≤ ROWS_MAX) }
    ensures home { IsSame pass result.0 }
    ensures free { OwnsNone pass → OwnsNone result.0 }
{
    let mut gathering = gathering;
    let (pass, done) = scan_rows(pass, region, coll, plan.leaves(), row, &mut gathering);
    match done {
        Ok(()) => (pass, gathering.into_rows()),
        Err(fault) => (pass, Err(fault)),
    }
}

/// The rows that a plan keeps of the objects of the collection that are whole, each the words of all leaves of the plan, in
/// the order of a scan in a section of its own.
///
/// # Errors
/// Memory was refused, or the plan keeps more rows than a query sees. The pass is outside, and of the rows nothing is said.
pub(crate) fn kept_rows(
    alloc: Global,
    plan: &Plan,
    pass: Pass,
    region: &Region,
    coll: u8,
) -> (Pass, Result<Rows, NoMemory>)
    requires here { IsPassOf region.now pass }
    requires coll { coll < length pass.shape.colls }
    requires planned { IsPlanned (plan_tree plan.now) }
    ensures done { IfOk result.1 (λ rows. DoesSome pass result.0 (InSection (KeepsRows pass.shape coll (plan_tree plan.now) rows.rows))) }
    ensures width { IfOk result.1 (λ rows. rows.width ≡ leaves_words plan.now.leaves) }
    ensures few { IfOk result.1 (λ rows. length rows.rows ≤ ROWS_MAX) }
    ensures home { IsSame pass result.0 }
    ensures free { OwnsNone pass → OwnsNone result.0 }
{
    queries_can_run();
    let mut row = match row_buffer(alloc, plan.words()) {
        Ok(row) => row,
        Err(fault) => return (pass, Err(fault)),
    };
    match Gathering::new(alloc, plan) {
        Ok(gathering) => gather(gathering, plan, &mut row, pass, region, coll),
        Err(fault) => (pass, Err(fault)),
    }
}
