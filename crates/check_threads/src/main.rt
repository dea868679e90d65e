//! A check of passes that work beside each other, which the gate runs: reads from standard input what is to be done, one a
//! line, and prints how it came out.
//!
//! `one`: a pass adds an object, fills the room and adds one more; it writes the first object, reads it, removes it twice,
//! and counts; said is how each came out. `held`: a section holds an object while a drive has five turns; said is how the
//! drive ended, what the section read behind it, and how a drive ended once the section had left. `two N`: two threads add N
//! objects each, the first learns what the second has seen, and counts; said is how many each added, and how many there were.
//! `four N`: three threads make N calls each, on each other's objects too, while a fourth drives rounds; then the region is
//! closed, and said is whether the answers are those of one plain map, in an order in which no call comes behind one that
//! began when it had ended; and that a word, or a removal, which is falsified is seen.
//!
//! `rooms` opens the regions, `one`, `held`, `two` and `four` do what their lines say, `hand` makes the calls of a thread, and
//! `replay` looks for the order. Nothing stands on it.
#![tactic(auto)]

mod four;
mod hand;
mod held;
mod one;
mod replay;
mod rooms;
mod two;

use anyhow::bail;

fn main(rt: HostRuntime) -> anyhow::Result<()> {
    let alloc = rt.alloc();
    for line in rt.lines(alloc) {
        let line = line?;
        match line.as_str().split_once(' ') {
            None if line.as_str() == "one" => {
                let told = one::come_and_go(alloc)?;
                println!(rt; "{told}")?;
            }
            None => {
                let told = held::held_up(alloc)?;
                println!(rt; "{told}")?;
            }
            Some(("two", many)) => {
                let many = many.parse::<u32>()?;
                let (one, other, all) = two::add_beside(&rt, alloc, many)?;
                println!(rt; "{one} {other} {all}")?;
            }
            Some(("four", many)) => {
                let many = many.parse::<u32>()?;
                let fit = four::work_beside(&rt, alloc, many)?;
                println!(rt; "{fit}")?;
            }
            Some(_) => bail!("a line of no form"),
        }
    }
    Ok(())
}
