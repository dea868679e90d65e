//! Regions with two tables.
ghost use Rattle.std.specs.Prelude.{◌≡◌, ◌∷◌, [], IfOk};
ghost use Rattle.smc_shape.specs.Layout.{asked};
ghost use Rattle.smc_region.specs.Callers.{IsPassOf};
ghost use Rattle.smc_types.specs.Columns.{columns_width};

use anyhow::bail;
use smc_core::Opening;
use smc_region::{Pass, Region};
use smc_shape::{CollShape, Shape};
use smc_types::Schema;
use std::alloc::Global;

/// A region of one pass, with 4,096 objects of the one table and 64 of the other.
pub fn open(alloc: Global, one: &Schema, other: &Schema) -> anyhow::Result<(Region, Pass)>
    ensures shape { IfOk result (λ opened. opened.0.about.shape ≡ asked 1
        (record { width = columns_width one.now.columns; slots = 4096 } ∷ record { width = columns_width other.now.columns; slots = 64 } ∷ [])) }
    ensures pass { IfOk result (λ opened. IsPassOf opened.0 opened.1) }
{
    let colls = [
        CollShape {
            width: one.width(),
            slots: 4_096,
        },
        CollShape {
            width: other.width(),
            slots: 64,
        },
    ];
    let Ok(shape) = Shape::new(1, Vec::from_slice(alloc, &colls)?) else {
        bail!("no such region");
    };
    let (region, mut passes) = Region::open(alloc, shape, Opening::plain())?;
    let Some(pass) = passes.pop() else {
        bail!("no pass");
    };
    Ok((region, pass))
}
