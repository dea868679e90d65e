//! The rows of a batch that a plan keeps.
ghost use Rattle.std.specs.Prelude.{◌≡◌, ◌<◌, ◌≤◌, length, filter, IfSome};
ghost use Rattle.std.specs.List.{range_with_len, All};
ghost use Rattle.smc_plan.specs.Kinds.{IsPlan};
ghost use Rattle.smc_plan.specs.Leaves.{leaves_words};
ghost use Rattle.smc_plan.specs.Planned.{plan_tree};
ghost use Rattle.smc_meaning.specs.Kept.{is_kept};
ghost use Rattle.smc_kernel.specs.Batches.{row_at};

use crate::batch::Batch;
use crate::chosen::Chosen;
use smc_meaning::kept;
use smc_plan::Plan;

/// The places of the rows that a plan keeps, in order.
pub(crate) fn kept_places(plan: &Plan, batch: &Batch, row: &mut [u64]) -> Chosen
    requires words { batch.now.width ≡ leaves_words plan.now.leaves }
    requires row { length row.old ≡ leaves_words plan.now.leaves }
    requires sound { IsPlan plan.now.leaves (plan_tree plan.now) }
    ensures places { result ≡ filter (λ place. is_kept (plan_tree plan.now) (row_at batch.now.rows place)) (range_with_len 0 (length batch.now.rows)) }
    ensures row { length row.new ≡ leaves_words plan.now.leaves }
{
    let mut chosen = Chosen::new();
    for place in 0..batch.rows() {
        batch.read_row(place, row);
        chosen.offer(place as u8, kept(plan, row));
    }
    chosen
}
