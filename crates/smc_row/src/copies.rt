//! Many copies of one element.
ghost use Rattle.std.specs.Prelude.{◌≡◌, ◌++◌, OnOk, replicate};

use smc_words::NoMemory;

/// So many copies of an element go behind the others. Fails where there is no memory for them.
pub fn push_copies<T: Copy>(list: &mut Vec<T>, copies: usize, element: T) -> Result<(), NoMemory>
    ensures { OnOk result (list.new.items ≡ list.old.items ++ replicate copies element) }
{
    let Some(length) = list.len().checked_add(copies) else {
        return Err(NoMemory);
    };
    list.resize(length, element)?;
    Ok(())
}
