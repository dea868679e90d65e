//! Plans: what a query means over a catalog, with each path resolved and each expression typed.
//!
//! `plan` has the plan of a query, and `query` makes it, part by part in the order of the text: `cond` the condition, `expr`
//! an expression, `item` the output columns, `order` the sort keys. `edit` has the plan of an edit, and makes it; `delete`
//! makes that of a delete, which is the plan of a query. `typed`, `condition` and `output` have the parts of a plan, and
//! `kind` says what an expression is and how large it may be. `leaf` has what a path comes to, `leaves` the different ones;
//! `path` follows the names of a path, and `table` finds tables and fields by name. `fault` says why there is no plan, and
//! `laws` what plans are worth. Below stand `smc_query` with the query and its tree, and `smc_types` with the catalog;
//! above, the crates that answer queries.
//!
//! Callers may rely on it that `plan_query` gives the plan or the first fault of `specs/Planned.antt`, `plan_edit` that of
//! `Edits.antt`, and `plan_delete` that of the query of `Deletes.antt`. What expressions are, with their bounds, is defined
//! in `Bounds.antt`; what an expression of a query comes to in `Exprs.antt`, a condition in `Conds.antt`, an output column
//! in `Items.antt`, a sort key in `Orders.antt`, a path in `Leaves.antt`, and the names of a catalog in `Tables.antt`.
//! `Typed.antt`, `Conditions.antt` and `Outputs.antt` have the parts of a plan as trees, and `Kinds.antt` what they are by
//! the leaves alone. Whole queries are worked in `Worked.antt`.
#![tactic(auto)]

mod cond;
mod condition;
mod delete;
mod edit;
mod expr;
mod fault;
mod item;
mod kind;
pub mod laws;
mod leaf;
mod leaves;
mod order;
mod output;
mod path;
mod plan;
mod query;
mod table;
mod typed;

pub use condition::TypedCond;
pub use delete::plan_delete;
pub use edit::{EditPlan, plan_edit};
pub use fault::PlanFault;
pub use kind::{DAY_BOUND, Extent, HUNDREDTHS, Kind, MAX_SCALE, SIZE_LIMIT, SUM_LIMIT};
pub use leaf::{Hop, Hops, Leaf};
pub use leaves::Leaves;
pub use output::{Output, Outputs};
pub use plan::{OrderKey, OrderKeys, Places, Plan};
pub use query::plan_query;
pub use table::Field;
pub use typed::{Kinded, Typed};
