ghost use Rattle.std.specs.Prelude.{◌≡◌, ℕ, ◌≤◌, length, None};
ghost use Rattle.smc_shape.specs.Faults.{colls_fault, fault_of};
ghost use Rattle.smc_shape.specs.Layout.{asked, words_of};
ghost use Rattle.smc_shape.specs.declared.shape.TheConstants.{MAX_COLLS, MAX_PASSES};

use crate::coll::{BLOCK_SLOTS, CollShape, MAX_WIDTH};
use crate::shape::{FIRST_SECTION, MAX_COLLS, MAX_PASSES, MAX_WORDS};
use thiserror::Error;

/// Why a shape is refused, in the order in which the causes are tested.
#[derive(Clone, Copy, Debug, PartialEq, Eq, Error)]
pub enum ShapeFault {
    #[error("no collection")]
    NoCollections,
    #[error("more than {most} collections", most = MAX_COLLS)]
    TooManyCollections,
    #[error("no pass, or more than {most}", most = MAX_PASSES)]
    Passes,
    #[error("the width of a collection is 0 or above {most}", most = MAX_WIDTH)]
    Width,
    #[error("the slots of a collection are 0 or no multiple of {block}", block = BLOCK_SLOTS)]
    Slots,
    #[error("more than {most} words in all", most = MAX_WORDS)]
    TooLarge,
}

/// The first fault of a shape with so many passes and these collections.
pub(crate) fn fault_of(passes: u32, colls: &[CollShape]) -> Option<ShapeFault>
    ensures { result ≡ fault_of passes colls.now }
{
    if colls.is_empty() {
        return Some(ShapeFault::NoCollections);
    }
    if colls.len() > MAX_COLLS {
        return Some(ShapeFault::TooManyCollections);
    }
    if passes == 0 || passes > MAX_PASSES {
        return Some(ShapeFault::Passes);
    }
    if let Some(fault) = colls_fault(colls) {
        return Some(fault);
    }
    if words_asked(passes, colls) > MAX_WORDS {
        return Some(ShapeFault::TooLarge);
    }
    None
}

/// The fault of the first collection that has one.
fn colls_fault(colls: &[CollShape]) -> Option<ShapeFault>
    ensures { result ≡ colls_fault colls.now }
{
    for coll in colls {
        if let Some(fault) = coll.fault() {
            return Some(fault);
        }
    }
    None
}

/// The words of the shape that is asked for.
fn words_asked(passes: u32, colls: &[CollShape]) -> u64
    requires passes { passes ≤ MAX_PASSES }
    requires few { length colls.now ≤ MAX_COLLS }
    requires sound { colls_fault colls.now ≡ None }
    ensures { result ≡ words_of (asked passes colls.now) }
{
    let mut words = u64::from(FIRST_SECTION + passes);
    for coll in colls {
        words += coll.words();
    }
    words
}
