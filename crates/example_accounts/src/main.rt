//! An example: two threads share a collection of accounts, each a record of two words, the number of its owner and its balance.
//!
//! Each thread opens accounts, and closes every second one again. Behind that those that are left are packed
//! into the fewest blocks of memory, and a scan adds up their balances. No thread waits for the other.
#![tactic(auto)]

ghost use Rattle.std.specs.Prelude.{◌≡◌, ◌≢◌, ◌-◌, ◌^◌, ◌<◌, ◌∷◌, [], IfOk, length};
ghost use Rattle.smc_shape.specs.Layout.{asked, width_of};
ghost use Rattle.smc_core.specs.declared.phase.Phase.TheVariants.{Idle};
ghost use Rattle.smc_region.specs.Callers.{IsPassOf, IsSame};
ghost use Rattle.smc_does.specs.Does.{OwnsNone};

use anyhow::bail;
use smc_compact::pack;
use smc_core::Opening;
use smc_objects::{Scan, add_one, read, remove_one};
use smc_region::{Pass, Region, Section};
use smc_shape::{CollShape, Shape};
use std::alloc::Global;
use std::thread::{Threads, join};

/// The collection of the accounts, the only one of the region.
const ACCOUNTS: u8 = 0;

/// The word of an account that is its balance.
const BALANCE: u32 = 1;

/// Opens so many accounts with a balance of 100, and closes every second one.
fn work(region: &Region, pass: Pass, owner: u32, many: u32) -> Pass
    requires here { IsPassOf region.now pass }
    requires accounts { (0 < length region.now.about.shape.colls) × (width_of region.now.about.shape 0 ≡ 2) }
    requires free { OwnsNone pass }
    ensures home { IsPassOf region.now result × (result.number ≡ pass.number) }
    ensures free { OwnsNone result }
{
    let mut pass = pass;
    for turn in 0..many {
        let (next, account) = add_one(pass, region, ACCOUNTS, &[u64::from(owner), 100]);
        pass = match account {
            Ok(account) if turn % 2 == 1 => remove_one(next, region, account).0,
            _ => next,
        };
    }
    pass
}

/// Adds up the balances of the accounts that a scan comes to.
fn add_up(section: &mut Section<'_>) -> u64
    requires idle { section.old.local.stand.phase ≡ Idle }
    requires accounts { (0 < length section.old.shape.colls) × (width_of section.old.shape 0 ≡ 2) }
    requires first { length section.old.local.stand.scans < 2 ^ 32 - 1 }
    ensures same { IsSame section.old section.new }
    ensures idle { section.new.local.stand.phase ≡ Idle }
{
    let slots = section.region().shape().slots(ACCOUNTS);
    let mut scan = Scan::begin(section, ACCOUNTS);
    let mut sum = 0u64;
    loop {
        let Some(account) = scan.next(section) else {
            return sum;
        };
        sum = sum.wrapping_add(read(section, account, BALANCE));
    }
}

/// Adds up the balances of all accounts, in one section.
fn total(region: &Region, pass: Pass) -> (Pass, u64)
    requires here { IsPassOf region.now pass }
    requires accounts { (0 < length region.now.about.shape.colls) × (width_of region.now.about.shape 0 ≡ 2) }
    ensures home { IsPassOf region.now result.0 }
{
    let mut section = pass.enter(region);
    let sum = add_up(&mut section);
    (section.leave(), sum)
}

/// Opens a region of two passes, with room for 4,096 accounts.
fn open(alloc: Global) -> anyhow::Result<(Region, Pass, Pass)>
    ensures shape { IfOk result (λ opened. opened.0.about.shape ≡ asked 2 (record { width = 2; slots = 4096 } ∷ [])) }
    ensures first { IfOk result (λ opened. IsPassOf opened.0 opened.1 × OwnsNone opened.1) }
    ensures second { IfOk result (λ opened. IsPassOf opened.0 opened.2 × OwnsNone opened.2) }
    ensures two { IfOk result (λ opened. opened.1.number ≢ opened.2.number) }
{
    let accounts = CollShape {
        width: 2,
        slots: 4_096,
    };
    let Ok(shape) = Shape::new(2, Vec::from_slice(alloc, &[accounts])?) else {
        bail!("there is no such shape");
    };
    let (region, mut passes) = Region::open(alloc, shape, Opening::plain())?;
    let (Some(second), Some(first)) = (passes.pop(), passes.pop()) else {
        bail!("a pass is missing");
    };
    Ok((region, first, second))
}

fn main(rt: HostRuntime) -> anyhow::Result<()> {
    let (region, first, second) = open(rt.alloc())?;
    let (mut first, mut second) = join(
        &rt,
        || work(&region, first, 1, 1_000),
        || work(&region, second, 2, 2_000),
    );
    // what the second pass has done is known to the first from here on
    let note = second.note(&region);
    first.learn(&region, note);
    let (first, packed) = pack(first, &region, ACCOUNTS, 1_000);
    let (_, sum) = total(&region, first);
    println!(rt; "balance {sum}")?;
    println!(rt;
        "{} accounts in {} blocks",
        packed.census.objects, packed.census.blocks
    )?;
    Ok(())
}
