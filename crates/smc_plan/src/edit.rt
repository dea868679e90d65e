//! Edits: what is written into a field of each row that meets a condition.
ghost use Rattle.std.specs.Prelude.{◌≡◌, ◌⊎◌, [], Ok, Err, IfOk, IfErr, IsTrue, option_copied};
ghost use Rattle.smc_query.specs.Trees.{expr_tree, filter_tree};
ghost use Rattle.smc_plan.specs.Answers.{Answers, and_then};
ghost use Rattle.smc_plan.specs.Bounds.{is_within, kind_of};
ghost use Rattle.smc_plan.specs.Leaves.{leaves_words};
ghost use Rattle.smc_plan.specs.Typed.{kinded_tree};
ghost use Rattle.smc_plan.specs.Edits as edits;
ghost use Rattle.smc_plan.specs.Edits.{edit_tree, edited_parts, planned_edit};
ghost use Rattle.smc_plan.specs.declared.fault.PlanFault.TheVariants.{NoMemory};

use crate::expr::typed_expr;
use crate::kind::{is_narrow_in, is_taken_by, kind_of};
use crate::query::planned_filter;
use crate::table::{field_named, table_named};
use crate::{Field, Kinded, Leaf, Leaves, PlanFault, TypedCond};
use smc_query::{Cond, Expr};
use smc_types::{Catalog, FieldType};
use std::alloc::Global;

/// What an edit means over a catalog.
#[derive(Debug, Drop)]
pub struct EditPlan {
    /// Its different paths, those of the value first and then those of the condition.
    pub leaves: Leaves,
    /// The field that is written.
    pub field: Field,
    /// What is written into it, which has no more decimals than the field.
    pub value: Kinded,
    pub filter: Option<TypedCond>,
}

impl EditPlan {
    /// Its different paths, those of the value first and then those of the condition.
    pub fn leaves(&self) -> &[Leaf]
        ensures { result.now ≡ self.now.leaves }
    {
        self.leaves.as_slice()
    }

    /// How many words all leaves take in a row.
    pub fn words(&self) -> u32
        ensures { result ≡ leaves_words self.now.leaves }
    {
        self.leaves.words()
    }

    /// The place of the word that is written.
    pub fn field_at(&self) -> u32
        ensures { result ≡ self.now.field.at }
    {
        self.field.at
    }
}

// The field of that name, where an edit may write it.
fn edited_field(catalog: &Catalog, table: u32, name: &str) -> Result<Field, PlanFault>
    ensures { result ≡ edits.edited_field catalog.now table name.now }
{
    let field = field_named(catalog, table, name)?;
    match field.kind {
        FieldType::Text(_) => Err(PlanFault::Types),
        FieldType::RefTo(_) => Err(PlanFault::Types),
        _ => Ok(field),
    }
}

// A value that is written into a field.
fn written(field: FieldType, value: Kinded) -> Result<Kinded, PlanFault>
    requires { IsTrue (is_within value.kind) }
    ensures { Answers kinded_tree result (edits.written field (kinded_tree value)) }
{
    let kind = kind_of(field);
    if !is_taken_by(kind, value.kind) {
        return Err(PlanFault::Types);
    }
    if !is_narrow_in(kind, value.kind) {
        return Err(PlanFault::TooWide);
    }
    Ok(value)
}

// The plan of an edit of that field.
fn edited_parts(
    alloc: Global,
    catalog: &Catalog,
    field: Field,
    value: &Expr,
    filter: Option<&Cond>,
) -> Result<EditPlan, PlanFault>
    ensures { Answers edit_tree result
        (and_then (edited_parts catalog.now field (expr_tree value.now) (filter_tree (option_copied filter.entry)) []) (λ all. Ok all.part)) }
{
    let mut leaves = Leaves::new(alloc);
    let typed = typed_expr(alloc, catalog, field.table, &mut leaves, value)?;
    let value = written(field.kind, typed)?;
    let filter = planned_filter(alloc, catalog, field.table, &mut leaves, filter)?;
    Ok(EditPlan {
        leaves,
        field,
        value,
        filter,
    })
}

/// The plan of an edit over a catalog: `value` is written into that field of each row of the table that meets the condition.
pub fn plan_edit(
    alloc: Global,
    table: &str,
    field: &str,
    value: &Expr,
    filter: Option<&Cond>,
    catalog: &Catalog,
) -> Result<EditPlan, PlanFault>
    ensures done { IfOk result (λ plan.
        planned_edit catalog.now table.now field.now (expr_tree value.now) (filter_tree (option_copied filter.entry)) ≡ Ok (edit_tree plan)) }
    ensures fault { IfErr result (λ fault. (fault ≡ NoMemory)
        ⊎ (planned_edit catalog.now table.now field.now (expr_tree value.now) (filter_tree (option_copied filter.entry)) ≡ Err fault)) }
{
    let Some(table) = table_named(catalog, table) else {
        return Err(PlanFault::NoTable);
    };
    let field = edited_field(catalog, table, field)?;
    edited_parts(alloc, catalog, field, value, filter)
}
