//! A check of query text, which the gate runs: reads texts from standard input, one a line, and prints what each is.
//!
//! A line is `query`, `condition` or `edit`, one space, and a text of that form. A query is printed as `smc_lang` prints
//! it, read once more from what was printed; of a condition and of an edit it is said that they are one, and whether an
//! edit has a condition; of a text that is refused, why and at which byte. `stdin` has the texts and `stdout` what
//! docs/FORMATS.md says of them, written by hand. Nothing stands on it.
#![tactic(auto)]

use anyhow::bail;
use smc_lang::{ParseFault, parse, parse_cond, parse_edit, print};
use std::alloc::Global;

fn main(rt: HostRuntime) -> anyhow::Result<()> {
    let alloc = rt.alloc();
    for line in rt.lines(alloc) {
        let line = line?;
        let told = told_of(alloc, line.as_str())?;
        println!(rt; "{told}")?;
    }
    Ok(())
}

/// What is printed for a line.
fn told_of(alloc: Global, line: &str) -> anyhow::Result<String> {
    let Some((form, text)) = line.split_once(' ') else {
        bail!("a line without a text");
    };
    let told = match form {
        "query" => query_of(alloc, text),
        "condition" => condition_of(alloc, text),
        "edit" => edit_of(alloc, text),
        _ => bail!("a line of no form"),
    };
    match told {
        Ok(told) => Ok(told),
        Err(fault) => Ok(format!(in alloc; "{fault}")?),
    }
}

/// A query as it is printed, once it was read again.
fn query_of(alloc: Global, text: &str) -> Result<String, ParseFault> {
    let printed = print(alloc, &parse(alloc, text)?)?;
    Ok(print(alloc, &parse(alloc, printed.as_str())?)?)
}

/// That a text is a condition.
fn condition_of(alloc: Global, text: &str) -> Result<String, ParseFault> {
    let _ = parse_cond(alloc, text)?;
    told(alloc, "a condition")
}

/// That a text is an edit, and whether it has a condition.
fn edit_of(alloc: Global, text: &str) -> Result<String, ParseFault> {
    match parse_edit(alloc, text)? {
        (_, None) => told(alloc, "an edit"),
        (_, Some(_)) => told(alloc, "an edit with a condition"),
    }
}

fn told(alloc: Global, text: &str) -> Result<String, ParseFault> {
    match String::from_str(alloc, text) {
        Ok(told) => Ok(told),
        Err(_) => Err(ParseFault::NoMemory),
    }
}
