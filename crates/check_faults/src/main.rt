//! A check of faults outside, which the gate runs: reads a script from standard input, and runs it again and again, where one
//! call of its source, its shelf or its sink fails.
//!
//! First the replies are printed, of a run in which no call fails. Then the first read fails, in the next run the second, and
//! so on until there is none that fails; so too the fetches and the writes. A line for each run says which call failed, how
//! the run ended, how many replies were written whole, and `front` where what was written is a front of the replies, else
//! `DIFFERENT`. At last the same with one byte at a call: a line for each kind of call says how many calls failed, each in a
//! run of its own, and how many of these ended as a fault of that call does, with a front of the replies.
//!
//! `run` has one run, over the files of `pieces`, whose shelf answers a few bytes at a time; `trial` compares runs. Nothing
//! stands on it.
#![tactic(auto)]

mod pieces;
mod run;
mod trial;

use run::{Call, DONE};
use trial::Trial;

/// So many bytes at most come or go at a call in the runs that are told one by one.
const PIECE: usize = 12;

fn main(rt: HostRuntime) -> anyhow::Result<()> {
    let alloc = rt.alloc();
    let mut text = String::new(alloc);
    for line in rt.lines(alloc) {
        let line = line?;
        text.push_str(line.as_str())?;
        text.push_str("\n")?;
    }
    let trial = Trial::new(alloc, text)?;
    let replies = trial.replies();
    print!(rt; "{replies}")?;
    for call in [Call::Read, Call::Fetch, Call::Write] {
        let told = trial.each(alloc, PIECE, call)?;
        print!(rt; "{told}")?;
    }
    for call in [Call::Read, Call::Fetch, Call::Write] {
        let told = trial.counted(alloc, 1, call)?;
        print!(rt; "{told}")?;
    }
    Ok(())
}
