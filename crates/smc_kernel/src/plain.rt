//! Whether a plan has folds.
ghost use Rattle.std.specs.Prelude.{◌≡◌, ◌↔◌, IsTrue};
ghost use Rattle.smc_kernel.specs.Plain.{ArePlain, IsPlain, is_plain};
ghost use Rattle.smc_plan.specs.Outputs.{output_tree};
ghost use Rattle.smc_plan.specs.Planned.{output_trees, plan_tree};

use smc_plan::{Output, Plan};

// Whether an output column is no fold.
fn is_plain_output(output: &Output) -> bool
    ensures { result ≡ is_plain (output_tree output.now) }
{
    !matches!(output, Output::Fold { .. })
}

// Whether no output column is a fold.
fn are_plain(items: &[Output]) -> bool
    ensures { IsTrue result ↔ ArePlain (output_trees items.now) }
{
    match items.split_first() {
        None => true,
        Some((item, rest)) => is_plain_output(item) && are_plain(rest),
    }
}

/// Whether a plan has no fold.
pub fn is_plain(plan: &Plan) -> bool
    ensures { IsTrue result ↔ IsPlain (plan_tree plan.now) }
{
    are_plain(plan.items.as_slice())
}
