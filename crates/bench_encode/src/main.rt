//! A bench, which `bench/encode.sh` times: encodes 64 rows of lineitem TURNS times over, and prints the sum of all words.
//!
//! TURNS is the only word of the command line. It stands on `smc_types`, and nothing stands on it.
#![tactic(auto)]

ghost use Rattle.std.specs.Prelude.{◌≡◌, ◌<◌, length, All, IfOk};
ghost use Rattle.smc_types.specs.Columns.{reference_count};
ghost use Rattle.smc_types.specs.References.{IsReference};

use anyhow::{Context, Result, bail};
use smc_types::{LINEITEM, Row, RowText, Schema, Value, encode, is_text, tpch};
use smc_words::{NoMemory, Number};
use std::alloc::Global;
use std::env;

/// How many rows are encoded in a turn.
const ROWS: u32 = 64;

fn main(rt: HostRuntime) -> Result<()> {
    let alloc = rt.alloc();
    let turns = env::args(&rt)?
        .nth(1)
        .context("the number of turns")?
        .as_str()
        .parse::<u32>()?;
    let catalog = tpch(alloc)?;
    let schema = catalog.schema(LINEITEM);
    let refs = nulls(alloc, schema)?;
    let mut rows = Vec::new(alloc);
    let mut draws = Draws { x: 1 };
    for _ in 0..ROWS {
        rows.push(lineitem(alloc, &mut draws)?)?;
    }
    let mut sum = 0u64;
    for _ in 0..turns {
        for row in &rows {
            let Ok(words) = encode(alloc, row, schema, &refs) else {
                bail!("a row has a fault");
            };
            for word in &words {
                sum = sum.wrapping_add(*word);
            }
        }
    }
    println!(rt; "{sum}")?;
    Ok(())
}

/// A null for each reference of a table.
fn nulls(alloc: Global, schema: &Schema) -> std::result::Result<Vec<u64>, NoMemory>
    ensures count { IfOk result (λ refs. length refs.items ≡ reference_count schema.now.columns) }
    ensures each { IfOk result (λ refs. All IsReference refs.items) }
{
    let columns = schema.columns.as_slice();
    let count = columns
        .iter()
        .filter(|column| column.kind.is_reference())
        .count();
    Ok(vec![in alloc; Number::NULL; count]?)
}

/// Numbers that look drawn by chance, and are the same in each run.
#[derive(Drop)]
struct Draws {
    x: u32,
}

impl Draws {
    /// The next number, below `below`.
    fn next(&mut self, below: u32) -> u32
        requires { 0 < below }
        ensures { result < below }
    {
        self.x = self.x.wrapping_mul(1_103_515_245).wrapping_add(12_345) % 0x8000_0000;
        self.x / 65_536 % below
    }
}

fn text(alloc: Global, text: &str) -> std::result::Result<Value, NoMemory> {
    let bytes = Vec::from_slice(alloc, text.as_bytes())?;
    if !is_text(&bytes) {
        return Err(NoMemory);
    }
    Ok(Value::Text(RowText::of(bytes)))
}

fn number(draws: &mut Draws, below: u32) -> Value
    requires { 0 < below }
{
    Value::Number(i128::from(draws.next(below)))
}

fn day(draws: &mut Draws) -> Value {
    // From 1992-01-01 on.
    Value::Day(8_035 + draws.next(2_400) as i32)
}

fn lineitem(alloc: Global, draws: &mut Draws) -> std::result::Result<Row, NoMemory> {
    let values = vec![in alloc;
        number(draws, 6_000),
        number(draws, 2_000),
        number(draws, 100),
        number(draws, 7),
        number(draws, 5_000),
        number(draws, 30_000),
        number(draws, 11),
        number(draws, 9),
        text(alloc, "N")?,
        text(alloc, "O")?,
        day(draws),
        day(draws),
        day(draws),
        text(alloc, "DELIVER IN PERSON")?,
        text(alloc, "TRUCK")?,
        text(alloc, "egular courts above the quick foxes")?,
    ]?;
    Ok(Row::of(values))
}
