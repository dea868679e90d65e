//! A check of scripts, which the gate runs: reads texts of scripts from standard input, one a line, and prints what each
//! comes to over the tables of TPC-H.
//!
//! A text is pieces with ` / ` between. A piece `N times PART` is so many parts one behind the other, any other piece is a
//! line with its end. In both, `;` stands for the end of a line, `^` for a carriage return, `@` for the byte 0, and `!` for
//! a byte that no text of UTF-8 has. Printed is `script`, or the number of the first refused line with its kind. One fold
//! is handed in, `median`. `stdin` has the texts and `stdout` what docs/FORMATS.md says of them, written by hand. Nothing
//! stands on it.
#![tactic(auto)]

use anyhow::bail;
use smc_outside::MemSource;
use smc_script::{FoldName, FoldNames, ScriptFault, read_script};
use smc_types::{Catalog, tpch};
use std::alloc::{AllocError, Global};

/// How many bytes of a text come at a time.
const PIECE: usize = 1000;

fn main(rt: HostRuntime) -> anyhow::Result<()> {
    let alloc = rt.alloc();
    let catalog = tpch(alloc)?;
    for line in rt.lines(alloc) {
        let line = line?;
        let text = text_of(alloc, line.as_str())?;
        let told = told_of(alloc, &catalog, text)?;
        println!(rt; "{told}")?;
    }
    Ok(())
}

/// What a text comes to.
fn told_of(alloc: Global, catalog: &Catalog, text: Vec<u8>) -> anyhow::Result<String> {
    let mut folds = Vec::new(alloc);
    folds.push(FoldName::of(alloc, "median")?)?;
    let mut source = MemSource::new(text, PIECE, Vec::new(alloc));
    match read_script(alloc, &mut source, catalog, FoldNames::of(folds)) {
        Ok(_) => Ok(String::from_str(alloc, "script")?),
        Err(ScriptFault::Bad { line, kind }) => Ok(format!(in alloc; "line {line}: {kind:?}")?),
        Err(fault) => bail!(fault),
    }
}

/// The text of these pieces.
fn text_of(alloc: Global, pieces: &str) -> anyhow::Result<Vec<u8>> {
    let mut text = Vec::new(alloc);
    for piece in pieces.split(" / ") {
        match piece.split_once(" times ") {
            Some((count, part)) => put_times(&mut text, count.parse::<u32>()?, part)?,
            None => put_times(&mut text, 1, format!(in alloc; "{piece};")?.as_str())?,
        }
    }
    Ok(text)
}

/// Puts so many parts behind a text.
fn put_times(text: &mut Vec<u8>, count: u32, part: &str) -> Result<(), AllocError> {
    for _ in 0..count {
        put(text, part)?;
    }
    Ok(())
}

/// Puts a part behind a text.
fn put(text: &mut Vec<u8>, part: &str) -> Result<(), AllocError> {
    for sign in part.as_bytes() {
        text.push(byte_of(*sign))?;
    }
    Ok(())
}

/// The byte that a sign stands for.
fn byte_of(sign: u8) -> u8 {
    match sign {
        b';' => b'\n',
        b'^' => b'\r',
        b'@' => 0,
        b'!' => 0xff,
        other => other,
    }
}
