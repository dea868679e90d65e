//! The paths of a query, from name to name.
ghost use Rattle.std.specs.Prelude.{◌≡◌, length};
ghost use Rattle.smc_query.specs.Trees.{path_tree};
ghost use Rattle.smc_plan.specs.Answers.{Answers};
ghost use Rattle.smc_plan.specs.Leaves.{hop_of, last_leaf, table_behind, leaf_behind, leaf_of};

use crate::table::{Field, field_named};
use crate::{Hop, Hops, Leaf, PlanFault};
use smc_query::Path;
use smc_tokens::Name;
use smc_types::{Catalog, FieldType};
use std::alloc::Global;

fn hop_of(field: Field) -> Hop
    ensures { result ≡ hop_of field }
{
    Hop {
        table: field.table,
        width: field.width,
        at: field.at,
    }
}

// The table that a field refers to.
fn table_behind(kind: FieldType) -> Result<u32, PlanFault>
    ensures { result ≡ table_behind kind }
{
    match kind {
        FieldType::RefTo(table) => Ok(table),
        _ => Err(PlanFault::Path),
    }
}

// The leaf of a field behind these references, where it is none itself.
fn last_leaf(hops: Vec<Hop>, field: Field) -> Result<Leaf, PlanFault>
    ensures { result ≡ last_leaf hops.items field }
{
    if field.kind.is_reference() {
        return Err(PlanFault::Path);
    }
    Ok(Leaf {
        hops: Hops::of(hops),
        table: field.table,
        width: field.width,
        at: field.at,
        kind: field.kind,
    })
}

// The leaf at the end of these names, from a table on, behind these references.
fn leaf_behind(
    catalog: &Catalog,
    mut hops: Vec<Hop>,
    table: u32,
    names: &[Name],
) -> Result<Leaf, PlanFault>
    ensures { Answers (λ leaf. leaf) result (leaf_behind catalog.now hops.items table names.now) }
{
    let Some((name, behind)) = names.split_first() else {
        return Err(PlanFault::Path);
    };
    let field = field_named(catalog, table, name.as_str())?;
    if behind.is_empty() {
        return last_leaf(hops, field);
    }
    let next = table_behind(field.kind)?;
    hops.push(hop_of(field))?;
    leaf_behind(catalog, hops, next, behind)
}

/// The leaf that a path comes to from a table on.
pub fn leaf_of(alloc: Global, catalog: &Catalog, table: u32, path: &Path) -> Result<Leaf, PlanFault>
    ensures { Answers (λ leaf. leaf) result (leaf_of catalog.now table (path_tree path.now)) }
{
    leaf_behind(catalog, Vec::new(alloc), table, path.names.as_slice())
}
