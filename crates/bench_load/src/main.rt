//! A bench, which `bench/load.sh` times: reads a table of lineitems from standard input into the words of its records,
//! one record after another in one vector, and prints the sum of all words and of the number of rows.
//!
//! It stands on `smc_tbl`, and nothing stands on it.
#![tactic(auto)]

use anyhow::Result;
use smc_outside::{Source, StdSource};
use smc_tbl::{Lines, TblFault, next_words};
use smc_types::{LINEITEM, Schema, tpch};

/// Room for the words of any record.
const ROOM: usize = 64;

fn main(rt: HostRuntime) -> Result<()> {
    let alloc = rt.alloc();
    let catalog = tpch(alloc)?;
    let mut words = Vec::with_capacity(alloc, ROOM)?;
    let mut input = StdSource::new(rt.reader());
    let sum = sum_of(&mut input, catalog.schema(LINEITEM), &mut words)?;
    println!(rt; "{sum}")?;
    Ok(())
}

/// The sum of all words of a table and of the number of its rows.
fn sum_of<S: Source>(
    source: &mut S,
    schema: &Schema,
    words: &mut Vec<u64>,
) -> std::result::Result<u64, TblFault> {
    let mut lines = Lines::new();
    let mut sum = 0u64;
    'rows: while next_words(source, &mut lines, schema, words)? {
        for word in words.as_slice() {
            sum = sum.wrapping_add(*word);
        }
    }
    Ok(sum.wrapping_add(lines.line()))
}
