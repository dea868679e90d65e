//! The words of one row.
ghost use Rattle.std.specs.Prelude.{◌≡◌, IfOk, length};

use smc_words::NoMemory;
use std::alloc::Global;

/// So many words, which are to be read into.
pub(crate) fn row_buffer(alloc: Global, words: u32) -> Result<Vec<u64>, NoMemory>
    ensures { IfOk result (λ row. length row.items ≡ words) }
{
    Ok(vec![in alloc; 0; words as usize]?)
}
