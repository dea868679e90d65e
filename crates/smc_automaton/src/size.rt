//! The sizes of a collection, which are 0 where the region has none of this index.
ghost use Rattle.std.specs.Prelude.{◌≡◌, ◌<◌, nat_lt, length};
ghost use Rattle.smc_shape.specs.Layout.{IsShape, slots_of, entries_of, width_of};
ghost use Rattle.smc_core.specs.Row.{has_place};

use smc_shape::{Place, Shape};
use smc_words::{ENTRIES, Number};

pub(crate) fn has_coll(shape: &Shape, coll: u8) -> bool
    ensures is { result ≡ nat_lt coll (length shape.now.colls) }
    ensures valid { IsShape shape.now }
{
    u32::from(coll) < shape.colls()
}

pub(crate) fn slots_of(shape: &Shape, coll: u8) -> u32
    ensures is { result ≡ slots_of shape.now coll }
    ensures few { result < ENTRIES }
{
    if has_coll(shape, coll) {
        shape.slots(coll)
    } else {
        0
    }
}

pub(crate) fn entries_of(shape: &Shape, coll: u8) -> u32
    ensures { result ≡ entries_of shape.now coll }
{
    if has_coll(shape, coll) {
        shape.entries(coll)
    } else {
        0
    }
}

pub(crate) fn width_of(shape: &Shape, coll: u8) -> u32
    ensures { result ≡ width_of shape.now coll }
{
    if has_coll(shape, coll) {
        shape.width(coll)
    } else {
        0
    }
}

/// Whether the region has the entry of this number.
pub(crate) fn has_entry(shape: &Shape, number: Number) -> bool
    ensures { result ≡ has_place shape.now (Place.Entry number.coll number.entry) }
{
    number.entry < entries_of(shape, number.coll)
}
