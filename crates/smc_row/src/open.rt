//! The first row of a region.
ghost use Rattle.std.specs.Prelude.{◌≡◌, ◌<◌, ◌++◌, IfOk, OnOk, length};
ghost use Rattle.smc_shape.specs.Layout.{IsShape, coll_of};
ghost use Rattle.smc_core.specs.Machine.{IsOpening, IsOpened};
ghost use Rattle.smc_row.specs.Rows.{opened_coll, opened_row};

use crate::copies::push_copies;
use crate::word::packed;
use smc_core::{Opening, State, Word};
use smc_shape::Shape;
use smc_words::{BLANK, NoMemory};
use std::alloc::Global;

/// The row of a region without objects.
pub fn opened_row(alloc: Global, shape: &Shape, opening: Opening) -> Result<Vec<u64>, NoMemory>
    requires { IsOpening opening }
    ensures opened { IfOk result (λ row. IsOpened shape.now opening row.items) }
    ensures valid { OnOk result (IsShape shape.now) }
{
    let row = numbers(alloc, shape, opening)?;
    Ok(row)
}

/// Its numbers, one after the other.
fn numbers(alloc: Global, shape: &Shape, opening: Opening) -> Result<Vec<u64>, NoMemory>
    requires { IsOpening opening }
    ensures row { IfOk result (λ row. row.items ≡ opened_row shape.now opening) }
    ensures valid { OnOk result (IsShape shape.now) }
{
    let free = packed(Word::Entry(State::Free {
        incarnation: opening.incarnation,
        stamp: 0,
    }));
    let mut row = Vec::with_capacity(alloc, shape.words())?;
    row.push(opening.epoch)?;
    push_copies(&mut row, 1 + shape.passes() as usize, 0)?;
    for c in 0..shape.colls() {
        push_coll(&mut row, shape, c as u8, free)?;
    }
    Ok(row)
}

/// The numbers of a collection without objects go to the end of `numbers`.
fn push_coll(numbers: &mut Vec<u64>, shape: &Shape, c: u8, free: u64) -> Result<(), NoMemory>
    requires { c < length shape.now.colls }
    ensures { OnOk result (numbers.new.items ≡
        numbers.old.items ++ opened_coll free (coll_of shape.now c)) }
{
    let (width, slots, entries) = (shape.width(c), shape.slots(c), shape.entries(c));
    push_copies(numbers, entries as usize, free)?;
    push_copies(numbers, 3 * slots as usize, 0)?;
    push_copies(numbers, slots as usize * width as usize, BLANK)
}
