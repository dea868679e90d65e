//! One run of a script, in which at most one call of the outside world fails.
ghost use Rattle.std.specs.Prelude.{◌≡◌, ◌<◌};
ghost use Rattle.smc_types.specs.Tables.{the_tables};
ghost use Rattle.smc_script.specs.Sound.{IsSound};

use crate::pieces::Pieces;
use anyhow::bail;
use smc_desk::{fold_names, unknown_line};
use smc_folds::Bench;
use smc_outside::{MemShelf, MemSink, MemSource, Sink};
use smc_runner::{Ran, RunEnd, run_script};
use smc_script::{Script, ScriptFault, read_script};
use smc_types::{Catalog, tpch};
use smc_words::NoMemory;
use std::alloc::Global;
use std::fmt;

/// How a run ends that was not disturbed.
pub const DONE: &str = "done";

/// The file that scripts may load.
const FILE: (&str, &str) = ("two.tbl", "0|AFRICA|first|\n4|MIDDLE EAST|second|\n");

/// So many bytes have room in the sink.
const SPACE: usize = 4_096;

/// A kind of call of the outside world.
#[derive(Clone, Copy, PartialEq, Eq)]
pub enum Call {
    Read,
    Fetch,
    Write,
}

impl Call {
    /// How a run ends in which such a call fails.
    pub fn end(self) -> &'static str {
        match self {
            Call::Read | Call::Fetch => "read fault",
            Call::Write => "write fault",
        }
    }
}

impl fmt::Display for Call {
    fn fmt<W: fmt::Write>(&self, f: &mut fmt::Formatter<W>) -> fmt::Result {
        match self {
            Call::Read => write!(f, "read"),
            Call::Fetch => write!(f, "fetch"),
            Call::Write => write!(f, "write"),
        }
    }
}

/// The call that fails: of this kind, and of this number among them, from 0.
#[derive(Clone, Copy)]
pub struct Fault {
    pub call: Call,
    pub number: u64,
}

/// How a run ended, and what was written by then.
#[derive(Drop)]
pub struct Seen {
    pub end: &'static str,
    pub held: Vec<u8>,
}

/// The numbers of the calls of this kind that fail.
fn fails(alloc: Global, fault: Option<Fault>, call: Call) -> Result<Vec<u64>, NoMemory> {
    let mut numbers = Vec::new(alloc);
    if let Some(fault) = fault {
        if fault.call == call {
            numbers.push(fault.number)?;
        }
    }
    Ok(numbers)
}

/// How the running of a script ended, in words.
fn told_of(end: RunEnd) -> &'static str {
    match end {
        RunEnd::Done => DONE,
        RunEnd::WriteFault => "write fault",
        RunEnd::NoFile { .. } => "no file",
        RunEnd::BadTable { .. } => "bad table",
        RunEnd::TableFull { .. } => "table full",
        RunEnd::ReadFault => "read fault",
        RunEnd::NoMemory => "no memory",
    }
}

/// The shelf of the file, where such fetches fail.
fn shelf(alloc: Global, most: usize, fails: Vec<u64>) -> Result<Pieces, NoMemory>
    requires { 0 < most }
{
    let (name, bytes) = FILE;
    let mut files = Vec::new(alloc);
    files.push((name.to_string(alloc)?, bytes.as_bytes().to_vec(alloc)?))?;
    Ok(Pieces {
        shelf: MemShelf::new(files, fails),
        most,
    })
}

/// Runs a script that was read.
fn run_known<O: Sink>(
    alloc: Global,
    script: &Script,
    catalog: &Catalog,
    bench: &mut Bench,
    shelf: &mut Pieces,
    out: &mut O,
) -> anyhow::Result<&'static str>
    requires tables { catalog.now ≡ the_tables }
    requires sound { IsSound the_tables script.now }
{
    let unknown = unknown_line(alloc, script.parts.as_slice(), catalog, &script.folds)?;
    match unknown {
        Some(line) => bail!("line {line} is not run"),
        None => {
            let Ran { end, quiet } = run_script(alloc, script, catalog, bench, shelf, out);
            if let Some(quiet) = quiet {
                quiet.free();
            }
            Ok(told_of(end))
        }
    }
}

/// Reads and runs a script, with at most so many bytes at a call, where this call fails.
pub fn run(alloc: Global, text: &str, most: usize, fault: Option<Fault>) -> anyhow::Result<Seen>
    requires { 0 < most }
{
    let catalog = tpch(alloc)?;
    let mut bench = Bench::new(alloc);
    let folds = fold_names(alloc, &bench)?;
    let reads = fails(alloc, fault, Call::Read)?;
    let mut source = MemSource::new(text.as_bytes().to_vec(alloc)?, most, reads);
    let mut shelf = shelf(alloc, most, fails(alloc, fault, Call::Fetch)?)?;
    let mut out = MemSink::new(alloc, SPACE, most, fails(alloc, fault, Call::Write)?)?;
    let end = match read_script(alloc, &mut source, &catalog, folds) {
        Ok(script) => run_known(alloc, &script, &catalog, &mut bench, &mut shelf, &mut out)?,
        Err(ScriptFault::ReadFault) => "read fault",
        Err(ScriptFault::Bad { line, .. }) => bail!("line {line} is refused"),
        Err(ScriptFault::NoMemory) => bail!("no memory"),
    };
    Ok(Seen {
        end,
        held: out.bytes().to_vec(alloc)?,
    })
}
