//! A region is opened, with its passes.
ghost use Rattle.std.specs.Prelude.{◌≡◌, ℕ, ◌<◌, IfOk, Some, length, replicate, slice_get, vec_len};
ghost use Rattle.smc_core.specs.Machine.{IsOpening};
ghost use Rattle.smc_region.specs.Callers.{new_caller};

use crate::law::{About, Deal};
use crate::pass::Pass;
use crate::region::Region;
use atomic_table::Table;
use smc_core::Opening;
use smc_row::opened_row;
use smc_shape::Shape;
use smc_words::NoMemory;
use std::alloc::Global;

/// A cursor at the first slot of each collection.
fn first_cursors(alloc: Global, shape: &Shape) -> Result<Box<Vec<u32>>, NoMemory>
    ensures { IfOk result (λ cursors. cursors.value.items ≡ replicate (length shape.now.colls) 0) }
{
    let mut cursors = Vec::new(alloc);
    cursors.resize(shape.colls() as usize, 0)?;
    Ok(Box::new(alloc, cursors)?)
}

impl Region {
    /// A region without objects, and as many passes as its shape says, in order.
    ///
    /// # Errors
    /// Memory was refused. No other call of a region takes memory.
    pub fn open(
        alloc: Global,
        shape: Shape,
        opening: Opening,
    ) -> Result<(Region, Vec<Pass>), NoMemory>
        requires { IsOpening opening }
        ensures shape { IfOk result (λ r. r.0.about.shape ≡ shape) }
        ensures opening { IfOk result (λ r. r.0.about.opening ≡ opening) }
        ensures count { IfOk result (λ r. vec_len r.1 ≡ shape.passes) }
        ensures passes { IfOk result (λ r. (k : ℕ) → k < shape.passes
            → slice_get r.1.items k ≡ Some (new_caller r.0.table.shared.table_id shape k)) }
    {
        let count = shape.passes();
        let words = opened_row(alloc, &shape, opening)?;
        let about = About { shape, opening };
        let (table, mut rest) = Table::of_words(alloc, words.as_slice(), &about)?;
        let mut passes = Vec::new(alloc);
        for number in 0..count {
            let cursors = first_cursors(alloc, &about.shape)?;
            let seat = table.shared.split_seat::<Deal>(&mut rest);
            passes.push(Pass {
                number,
                cursors,
                seat,
            })?;
        }
        Ok((Region { table, about }, passes))
    }
}
