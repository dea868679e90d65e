//! The folds of a bench, as a script names them.
ghost use Rattle.std.specs.Prelude.{◌≡◌, IfOk, map};
ghost use Rattle.std.specs.String.{string_bytes};
ghost use Rattle.smc_replies.specs.Books.{fold_names};

use smc_folds::{Bench, Fold};
use smc_script::{FoldName, FoldNames};
use smc_words::NoMemory;
use std::alloc::Global;

// Names of folds from their texts, which are copied.
fn names_of(alloc: Global, words: &[String]) -> Result<FoldNames, NoMemory>
    ensures { IfOk result (λ names. names ≡ map string_bytes words.now) }
{
    let mut names = Vec::new(alloc);
    for word in words {
        names.push(FoldName::of(alloc, word.as_str())?)?;
    }
    Ok(FoldNames::of(names))
}

/// The names of the boxes of a bench, in order, with which a script is read.
pub fn fold_names(alloc: Global, bench: &Bench) -> Result<FoldNames, NoMemory>
    ensures { IfOk result (λ names. names ≡ fold_names (map (λ b. (⟦<dyn Fold as Fold>⟧ b.fold.vtable).kind b.fold.value) bench.now.boxes.items)) }
{
    let words = bench.names(alloc)?;
    names_of(alloc, words.as_slice())
}
