//! `smc`: the program. Its words say what it does; it reads standard input and files of the current
//! folder, and writes standard output.
//!
//! `top` does all of it over any source, shelf and sink: `tally` reads a table and tells how many rows it has, `play` plays a
//! schedule on the machine, and `script` reads a script and runs it on a region of its own; `ended` and `status` say how the
//! program ends. Nothing stands on it. Here only the real input, shelf and output are made, and the boxes of the folds that
//! scripts may call; `specs/Tally.antt`, `Play.antt` and `Inputs.antt` define what is read and written.
#![tactic(auto)]

pub mod ended;
pub mod play;
pub mod script;
pub mod status;
pub mod tally;
pub mod top;

use smc_folds::{Bench, Boxed, Distinct, Median, Range};
use smc_outside::{DirShelf, Shelf, Sink, Source, StdSink, StdSource};
use status::Status;
use std::alloc::{AllocError, Global};
use std::process::ExitCode;
use std::rt::Env;
use std::{env, io};
use top::top;

// The words of the command line, behind the program's name. Bytes that are no text are wrong words.
fn words<R: Env + AllocGlobal>(rt: &R) -> Result<Vec<String>, Status> {
    let mut words = Vec::new(rt.alloc());
    let args = match env::args(rt) {
        Ok(args) => args,
        Err(error) if error.kind() == io::ErrorKind::OutOfMemory => return Err(Status::NoMemory),
        Err(_) => return Err(Status::BadWords),
    };
    for word in args.skip(1) {
        words.push(word).map_err(|_| Status::NoMemory)?;
    }
    Ok(words)
}

// What the words ask for, where scripts may call the folds of the program.
fn with_folds<I: Source, F: Shelf, O: Sink>(
    alloc: Global,
    words: &[String],
    input: &mut I,
    shelf: &mut F,
    out: &mut O,
) -> Result<Status, AllocError> {
    let mut bench = Bench::new(alloc);
    bench.boxes.push(Boxed {
        fold: Box::new(alloc, Distinct::new())?,
    })?;
    bench.boxes.push(Boxed {
        fold: Box::new(alloc, Median::new())?,
    })?;
    bench.boxes.push(Boxed {
        fold: Box::new(alloc, Range::new())?,
    })?;
    Ok(top(alloc, words, &mut bench, input, shelf, out).into_status())
}

fn main(rt: HostRuntime) -> ExitCode {
    let mut input = StdSource::new(rt.reader());
    let mut shelf = DirShelf::new(rt.alloc(), &rt);
    let mut out = StdSink::new(io::writer(&rt));
    let status = match words(&rt) {
        Ok(words) => match with_folds(rt.alloc(), &words, &mut input, &mut shelf, &mut out) {
            Ok(status) => status,
            Err(_) => Status::NoMemory,
        },
        Err(status) => status,
    };
    if !matches!(status, Status::Done) {
        // Where standard error is closed there is nobody to tell.
        let _ = eprintln!(rt; "{status}");
    }
    ExitCode::from(status.code())
}
