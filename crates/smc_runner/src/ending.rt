//! How the running of a script ends, and what is written of a reply.
ghost use Rattle.std.specs.Prelude.{◌≡◌, ◌≤◌, ◌⊎◌, None};
ghost use Rattle.smc_outside.specs.Causes.{Rose};
ghost use Rattle.smc_runner.specs.Runs.{Writes, end_of};

use smc_desk::Reply;
use smc_load::LoadFault;
use smc_outside::{Sink, write_all};
use smc_region::Quiet;
use smc_script::FileName;
use std::alloc::Global;

/// How the running of a script ends.
#[derive(Debug, Drop)]
pub enum RunEnd {
    /// Each command was run, and each reply was written.
    Done,
    /// The output failed, and has a front of the replies.
    WriteFault,
    /// No file of the shelf has the name that was to be loaded.
    NoFile { name: FileName },
    /// This line of a file, counted from 1, is the first that is no row of its table.
    BadTable { name: FileName, line: u64 },
    /// The table had no room for the row of this line of a file.
    TableFull { name: FileName, line: u64 },
    /// The shelf failed.
    ReadFault,
    /// Memory was refused. A front of the replies was written.
    NoMemory,
}

/// How the running of a script ended, and its region, closed with all its passes, where it had one.
pub struct Ran {
    pub end: RunEnd,
    pub quiet: Option<Quiet>,
}

impl Ran {
    /// An end without a region.
    pub(crate) fn without(end: RunEnd) -> Ran
        ensures end { result.end ≡ end }
        ensures quiet { result.quiet ≡ None }
    {
        Ran { end, quiet: None }
    }
}

/// Writes a reply.
pub(crate) fn write_reply<O: Sink>(out: &mut O, reply: &Reply) -> RunEnd
    ensures ends { Writes result (O.held out.old) (O.held out.new) reply.now }
    ensures cause { result ≡ RunEnd.WriteFault → Rose (O.faults out.old) (O.faults out.new) }
    ensures later { O.faults out.old ≤ O.faults out.new }
{
    match write_all(out, reply.text()) {
        Ok(()) => RunEnd::Done,
        Err(_) => RunEnd::WriteFault,
    }
}

/// How the running ends where a load of this file stops at a fault.
pub(crate) fn end_of(alloc: Global, file: &FileName, fault: LoadFault) -> RunEnd
    ensures { (result ≡ RunEnd.NoMemory) ⊎ (result ≡ end_of file.now fault) }
{
    let Ok(name) = FileName::of(alloc, file.as_str()) else {
        return RunEnd::NoMemory;
    };
    match fault {
        LoadFault::NoFile => RunEnd::NoFile { name },
        LoadFault::Tbl { line, .. } => RunEnd::BadTable { name, line },
        LoadFault::Full { line } => RunEnd::TableFull { name, line },
        LoadFault::ReadFault => RunEnd::ReadFault,
        LoadFault::NoMemory => RunEnd::NoMemory,
    }
}
