//! A check of loading, which the gate runs: reads from standard input what is to be loaded, one case a line, each into a
//! region of its own with 4,096 regions and 64 nations, and prints how it came out.
//!
//! `load TEXT`: regions from a file of this text. `missing TEXT`: the same from a file of another name. `fail N TEXT`: the
//! same, where the shelf fails at call N, counted from 0. `again TEXT / TEXT`: regions from the first text, then the region
//! that was loaded last is removed, and regions are loaded from the second. `first TEXT / TEXT`: regions and then nations;
//! `later TEXT / TEXT`: nations and then regions; of both it is said which region nation 8 refers to, counted from 0. In a
//! text `;` stands for the end of a line, and `N times PART` is so many parts. Of each load it is said how it ended, and how
//! many objects the table has behind it.
//!
//! `told` does what a line says, over `rooms`, which opens the regions, and `loads`. Nothing stands on it.
#![tactic(auto)]

mod loads;
mod rooms;
mod told;

use smc_types::tpch;
use told::told_of;

fn main(rt: HostRuntime) -> anyhow::Result<()> {
    let alloc = rt.alloc();
    let catalog = tpch(alloc)?;
    for line in rt.lines(alloc) {
        let line = line?;
        let told = told_of(alloc, &catalog, line.as_str())?;
        println!(rt; "{told}")?;
    }
    Ok(())
}
