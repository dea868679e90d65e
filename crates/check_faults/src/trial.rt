//! A script, which is run with each of its calls failing in turn.
ghost use Rattle.std.specs.Prelude.{◌<◌};

use crate::run::{Call, DONE, Fault, Seen, run};
use anyhow::bail;
use std::alloc::Global;

/// No run here makes more calls of one kind.
const LIMIT: u64 = 10_000;

/// So many bytes at most come or go at a call in the runs that are not disturbed.
const WIDE: usize = 4_096;

/// Said of a run whose text is a front of the replies.
const FRONT: &str = "front";

/// A script, what it writes where no call fails, and how much of that its lines have written, one after the other.
#[derive(Drop)]
pub struct Trial {
    text: String,
    whole: Vec<u8>,
    ends: Vec<usize>,
}

/// How much the first lines of a script write, for each count of lines, from 1.
fn ends_of(alloc: Global, text: &str) -> anyhow::Result<Vec<usize>> {
    let mut ends = Vec::new(alloc);
    let mut front = String::new(alloc);
    for line in text.lines() {
        front.push_str(line)?;
        front.push_str("\n")?;
        let seen = run(alloc, front.as_str(), WIDE, None)?;
        ends.push(seen.held.len())?;
    }
    Ok(ends)
}

impl Trial {
    /// Runs the script where no call fails, and each of its fronts.
    pub fn new(alloc: Global, text: String) -> anyhow::Result<Trial> {
        let seen = run(alloc, text.as_str(), WIDE, None)?;
        if seen.end != DONE {
            bail!("the script ends with {}", seen.end);
        }
        let ends = ends_of(alloc, text.as_str())?;
        Ok(Trial {
            text,
            whole: seen.held,
            ends,
        })
    }

    /// What the script writes where no call fails.
    pub fn replies(&self) -> &str {
        match str::from_utf8(self.whole.as_slice()) {
            Ok(text) => text,
            Err(_) => "",
        }
    }

    /// How many replies stand whole in so many bytes.
    fn whole_replies(&self, written: usize) -> u64 {
        let mut replies = 0u64;
        let mut last = 0;
        for end in self.ends.iter().copied() {
            if last < end && end <= written {
                replies = replies.wrapping_add(1);
            }
            last = end;
        }
        replies
    }

    /// What a run wrote: a front of the replies, and all of them where it was done, or another text.
    fn told_of(&self, seen: &Seen) -> &'static str {
        let held = seen.held.as_slice();
        let whole = self.whole.as_slice();
        if whole.starts_with(held) && (seen.end != DONE || held.len() == whole.len()) {
            FRONT
        } else {
            "DIFFERENT"
        }
    }

    /// The line of a run.
    fn line(&self, alloc: Global, fault: Fault, seen: &Seen) -> anyhow::Result<String> {
        let Fault { call, number } = fault;
        let end = seen.end;
        let replies = self.whole_replies(seen.held.len());
        let told = self.told_of(seen);
        Ok(format!(in alloc; "{call} {number}: {end}, {replies} replies, {told}\n")?)
    }

    /// The lines of the runs in which one call of this kind fails, and of the first in which there is no such call.
    pub fn each(&self, alloc: Global, most: usize, call: Call) -> anyhow::Result<String>
        requires { 0 < most }
    {
        let mut told = String::new(alloc);
        for number in 0..LIMIT {
            let fault = Fault { call, number };
            let seen = run(alloc, self.text.as_str(), most, Some(fault))?;
            let line = self.line(alloc, fault, &seen)?;
            told.push_str(line.as_str())?;
            if seen.end == DONE {
                return Ok(told);
            }
        }
        bail!("a run makes more than {LIMIT} calls")
    }

    /// How many calls of this kind a run makes, and how many of the runs in which one of them fails end as they should.
    pub fn counted(&self, alloc: Global, most: usize, call: Call) -> anyhow::Result<String>
        requires { 0 < most }
    {
        let mut good = 0u64;
        for number in 0..LIMIT {
            let fault = Fault { call, number };
            let seen = run(alloc, self.text.as_str(), most, Some(fault))?;
            let told = self.told_of(&seen);
            let end = call.end();
            if seen.end == DONE {
                return Ok(format!(in alloc;
                    "{call} by bytes: {number} failed, {good} with {end} and a front; then done, {told}\n"
                )?);
            }
            if seen.end == end && told == FRONT {
                good = good.wrapping_add(1);
            }
        }
        bail!("a run makes more than {LIMIT} calls")
    }
}
