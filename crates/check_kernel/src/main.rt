//! A check of the kernel, which the gate runs: reads queries from standard input, one a line behind a number of rows, and
//! compares the kernel's answer over so many rows with that of the plain evaluator.
//!
//! The rows look drawn by chance, and are the same in each run. Said is how many rows there were, and `same` or `different`.
//! Nothing stands on it.
#![tactic(auto)]

ghost use Rattle.std.specs.Prelude.{◌≡◌, ◌<◌, [], length, IfOk, OnOk};
ghost use Rattle.smc_plan.specs.Kinds.{IsPlan};
ghost use Rattle.smc_plan.specs.Leaves.{leaves_words};
ghost use Rattle.smc_plan.specs.Planned.{plan_tree};
ghost use Rattle.smc_kernel.specs.Plain.{IsPlain};
ghost use Rattle.smc_kernel.specs.Taken.{IsReady};
ghost use Rattle.smc_kernel.specs.declared.batch.TheConstants.{ROOM};

use anyhow::bail;
use smc_folds::Bench;
use smc_kernel::{Batch, Kernel, ROOM, is_plain};
use smc_lang::parse;
use smc_meaning::{ROWS_MAX, Rows, slow};
use smc_plan::laws::parts_are_typed;
use smc_plan::{Leaf, Plan, plan_query};
use smc_types::{Catalog, FieldType, tpch};
use smc_words::NoMemory;
use std::alloc::Global;

/// What is added to a number of a moved column.
const OFFSET: u64 = 0x4000_0000_0000_0000;

fn main(rt: HostRuntime) -> anyhow::Result<()> {
    let alloc = rt.alloc();
    let catalog = tpch(alloc)?;
    for line in rt.lines(alloc) {
        let line = line?;
        let Some((count, text)) = line.as_str().split_once(' ') else {
            bail!("a line of no form");
        };
        let count = count.parse::<u32>()?;
        let told = told_of(alloc, &catalog, count, text)?;
        println!(rt; "{count} {told}")?;
    }
    Ok(())
}

/// Whether both answers to a query over so many rows are one.
fn told_of(
    alloc: Global,
    catalog: &Catalog,
    count: u32,
    text: &str,
) -> anyhow::Result<&'static str> {
    parts_are_typed();
    let query = parse(alloc, text)?;
    let plan = plan_query(alloc, &query, catalog, &[])?;
    if !is_plain(&plan) || !plan.by.as_slice().is_empty() {
        bail!("a query with groups or folds");
    }
    let rows = rows_of(alloc, &plan, count)?;
    if rows.len() > ROWS_MAX {
        bail!("too many rows");
    }
    let fast = answer_over(alloc, &plan, &rows)?;
    let mut bench = Bench::new(alloc);
    let plain = slow(alloc, &plan, &mut bench, &rows)?.text(alloc)?;
    Ok(if fast.as_slice() == plain.as_slice() {
        "same"
    } else {
        "different"
    })
}

/// Pushes a full batch, and clears it.
fn make_room(plan: &Plan, kernel: &mut Kernel, batch: &mut Batch) -> Result<(), NoMemory>
    requires words { batch.old.width ≡ leaves_words plan.now.leaves }
    requires sound { IsPlan plan.now.leaves (plan_tree plan.now) }
    requires plain { IsPlain (plan_tree plan.now) }
    requires ready { IsReady (plan_tree plan.now) kernel.old }
    ensures ready { OnOk result (IsReady (plan_tree plan.now) kernel.new) }
    ensures room { OnOk result (length batch.new.rows < ROOM) }
    ensures words { OnOk result (batch.new.width ≡ batch.old.width) }
{
    if batch.rows() < ROOM {
        return Ok(());
    }
    kernel.push(plan, batch)?;
    batch.clear();
    Ok(())
}

/// The text of the kernel's answer over rows.
fn answer_over(alloc: Global, plan: &Plan, rows: &Rows) -> anyhow::Result<Vec<u8>>
    requires words { rows.now.width ≡ leaves_words plan.now.leaves }
    requires sound { IsPlan plan.now.leaves (plan_tree plan.now) }
    requires plain { IsPlain (plan_tree plan.now) }
    requires one { plan.now.by ≡ [] }
{
    let mut kernel = Kernel::new(alloc, plan)?;
    let mut batch = Batch::new(alloc, plan)?;
    for place in 0..rows.len() {
        make_room(plan, &mut kernel, &mut batch)?;
        batch.add(rows.get(place));
    }
    kernel.push(plan, &batch)?;
    Ok(kernel.finish(alloc, plan)?.text(alloc)?)
}

/// So many rows of a plan.
fn rows_of(alloc: Global, plan: &Plan, count: u32) -> anyhow::Result<Rows>
    ensures { IfOk result (λ rows. rows.width ≡ leaves_words plan.now.leaves) }
{
    let words = plan.words() as usize;
    let mut rows = Rows::new(alloc, words);
    let mut draws = Draws { x: 1 };
    for _ in 0..count {
        let row = row_of(alloc, plan.leaves(), &mut draws)?;
        if row.len() != words {
            bail!("a row of other words");
        }
        rows.push(&row)?;
    }
    Ok(rows)
}

/// The words of a row.
fn row_of(alloc: Global, leaves: &[Leaf], draws: &mut Draws) -> anyhow::Result<Vec<u64>> {
    let mut row = Vec::new(alloc);
    for leaf in leaves {
        for _ in 0..leaf.kind.width() {
            row.push(draws.word(leaf.kind))?;
        }
    }
    Ok(row)
}

/// Numbers that look drawn by chance, and are the same in each run.
#[derive(Drop)]
struct Draws {
    x: u32,
}

impl Draws {
    /// The next number, below `below`.
    fn next(&mut self, below: u32) -> u64
        requires { 0 < below }
        ensures { result < below }
    {
        self.x = self.x.wrapping_mul(1_103_515_245).wrapping_add(12_345) % 0x8000_0000;
        u64::from(self.x / 65_536 % below)
    }

    /// A word of a column, sometimes one that no row has.
    fn word(&mut self, kind: FieldType) -> u64 {
        let odd = self.next(16) == 0;
        match kind {
            FieldType::Count => self.next(50),
            FieldType::Amount if odd => self.next(3),
            FieldType::Amount => OFFSET + self.next(5_000),
            FieldType::Rate => OFFSET + self.next(11),
            FieldType::Day => OFFSET + 8_035 + self.next(2_400),
            // Texts of one letter.
            FieldType::Text(_) => (65 + self.next(3)) * 0x100_0000_0000_0000,
            FieldType::RefTo(_) => 0,
        }
    }
}
