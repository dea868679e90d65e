ghost use Rattle.std.specs.Prelude.{◌≡◌, [], ◌∷◌, None, IfOk, IfSome, IfNone};
ghost use Rattle.smc_shape.specs.Faults.{fault_of};
ghost use Rattle.smc_shape.specs.Layout.{IsShape, asked};
ghost use Rattle.smc_play.specs.Texts.{OpensBy, coll_of};

use crate::player::Player;
use smc_machine::Machine;
use smc_schedule::{Header, read_header};
use smc_shape::{CollShape, Shape};
use smc_words::NoMemory;
use std::alloc::Global;

/// A region that is opened to play on, and how many fields its records have.
#[derive(Drop)]
pub struct Opened {
    pub player: Player,
    pub width: u32,
}

/// The shape of the one collection of a schedule, where there is such a shape.
fn shape_of(alloc: Global, header: &Header) -> Result<Option<Shape>, NoMemory>
    ensures some { IfOk result (λ found. IfSome found (λ shape. shape ≡ asked header.now.passes (coll_of header.now ∷ []))) }
    ensures valid { IfOk result (λ found. IfSome found IsShape) }
    ensures none { IfOk result (λ found. IfNone found (¬ (fault_of header.now.passes (coll_of header.now ∷ []) ≡ None))) }
{
    let mut colls = Vec::new(alloc);
    colls.push(CollShape {
        width: header.width,
        slots: header.slots,
    })?;
    match Shape::new(header.passes, colls) {
        Ok(shape) => Ok(Some(shape)),
        Err(_) => Ok(None),
    }
}

/// Opens the region that the first line of a schedule says, where it says one.
pub(crate) fn open(alloc: Global, text: &str) -> Result<Option<Opened>, NoMemory>
    ensures { IfOk result (OpensBy text.now) }
{
    let Some(header) = read_header(text) else {
        return Ok(None);
    };
    let Some(shape) = shape_of(alloc, &header)? else {
        return Ok(None);
    };
    let machine = Machine::open(alloc, shape, header.opening)?;
    let player = Player::of(alloc, machine, header.passes)?;
    let width = header.width;
    Ok(Some(Opened { player, width }))
}
