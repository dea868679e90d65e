//! The output columns of a plan.
ghost use Rattle.std.specs.Prelude.{◌≡◌};

use crate::Kinded;
use smc_tokens::Name;
use std::marker::Model;

/// What an output column shows of a group.
#[derive(Debug, Drop)]
pub enum Output {
    Count,
    Sum(Kinded),
    Avg(Kinded),
    Min(Kinded),
    Max(Kinded),
    Fold { name: Name, of: Kinded },
}

/// The output columns that stand behind those of the `by` paths, in order. Contracts see a list.
#[derive(Debug, Drop)]
pub struct Outputs {
    outputs: Vec<Output>,
}

impl Model for Outputs {
    ghost use Rattle.std.specs.Prelude.{List};
    ghost use Rattle.smc_plan.specs.declared.output.Output.{Output};

    ghost Value = { List Output };

    ghost use Rattle.smc_plan.specs.contracts.typed.Typed as expressions;
    ghost use Rattle.std.specs.Coded.{codes};

    ghost coded = { Prim.hlevel (codes, expressions.the_row.coded) };

    ghost view = { λ list. list.outputs.items };
}

impl Outputs {
    /// From a vector, which takes no memory.
    pub fn of(outputs: Vec<Output>) -> Outputs
        ensures { result ≡ outputs.items }
    {
        Outputs { outputs }
    }

    /// All of them, in order.
    pub fn as_slice(&self) -> &[Output]
        ensures { result.now ≡ self.now }
    {
        self.outputs.as_slice()
    }
}
