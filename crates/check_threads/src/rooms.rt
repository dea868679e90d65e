//! Regions of four passes.
ghost use Rattle.std.specs.Prelude.{◌≡◌, ◌+◌, ◌∷◌, [], IfOk, IfSome, vec_len};
ghost use Rattle.smc_shape.specs.Layout.{asked};
ghost use Rattle.smc_region.specs.Callers.{new_caller};
ghost use Rattle.check_threads.specs.Rooms.{AreNew};

use smc_core::Opening;
use smc_region::{Pass, Region};
use smc_shape::{CollShape, Shape};
use smc_words::NoMemory;
use std::alloc::Global;

/// A region of four passes, and one collection of 4,096 slots and one field.
pub fn open(alloc: Global) -> Result<(Region, Vec<Pass>), NoMemory>
    ensures shape { IfOk result (λ opened. opened.0.about.shape ≡ asked 4 (record { width = 1; slots = 4096 } ∷ [])) }
    ensures count { IfOk result (λ opened. vec_len opened.1 ≡ 4) }
    ensures passes { IfOk result (λ opened. AreNew opened.0 opened.1.items) }
{
    let colls = Vec::from_slice(
        alloc,
        &[CollShape {
            width: 1,
            slots: 4_096,
        }],
    )?;
    let Ok(shape) = Shape::new(4, colls) else {
        return Err(NoMemory);
    };
    Region::open(alloc, shape, Opening::plain())
}

/// The last of a region's first passes.
pub fn take_last(region: &Region, passes: &mut Vec<Pass>) -> Option<Pass>
    requires passes { AreNew region.now passes.old.items }
    ensures passes { AreNew region.now passes.new.items }
    ensures count { IfSome result (λ pass. vec_len passes.new + 1 ≡ vec_len passes.old) }
    ensures last { IfSome result (λ pass. pass ≡ new_caller region.now.table.shared.table_id region.now.about.shape (vec_len passes.new)) }
{
    let _ = region;
    passes.pop()
}
