//! A whole script from its bytes.
ghost use Rattle.std.specs.Prelude.{◌≡◌, ◌≢◌, ◌≤◌, [], Err, IfOk, IfErr};
ghost use Rattle.smc_outside.specs.Causes.{Rose};
ghost use Rattle.smc_outside.specs.Told.{OnTold};
ghost use Rattle.smc_script.specs.Scripts.{Answers, LinesEnd, LinesGive, TextGives, limit_fault};
ghost use Rattle.smc_script.specs.Sound.{IsSound};
ghost use Rattle.smc_script.specs.States.{start};

use crate::fault::{ScriptFault, ScriptKind};
use crate::name::FoldNames;
use crate::script::Script;
use crate::state::Reader;
use smc_lines::{Lines, LinesFault, MAX_LINES, read_lines};
use smc_outside::Source;
use smc_tbl::laws::what_is_spelled_fits;
use smc_types::Catalog;
use std::alloc::Global;

// The fault of a script that has no lines.
fn limit_fault(fault: LinesFault) -> ScriptFault
    ensures { result ≡ limit_fault fault }
{
    match fault {
        LinesFault::ReadFault => ScriptFault::ReadFault,
        LinesFault::TooLong { line } => ScriptFault::Bad {
            line,
            kind: ScriptKind::TooLong,
        },
        LinesFault::TooMany => ScriptFault::Bad {
            line: MAX_LINES + 1,
            kind: ScriptKind::TooMany,
        },
        LinesFault::NoMemory => ScriptFault::NoMemory,
    }
}

// Reads the lines one after the other, up to the first that is refused.
fn read_all(
    alloc: Global,
    catalog: &Catalog,
    folds: &FoldNames,
    lines: &Lines,
) -> Result<Reader, ScriptFault>
    ensures { LinesEnd result (LinesGive catalog.now folds.now start 0 lines.now) folds.now }
{
    let mut reader = Reader::new(alloc);
    let mut cursor = lines.cursor();
    loop {
        let next = match cursor.next_line() {
            Ok(Some(next)) => next,
            Ok(None) => return reader.ended(cursor.line()),
            Err(bad) => {
                return Err(ScriptFault::Bad {
                    line: bad.line,
                    kind: ScriptKind::Grammar,
                });
            }
        };
        match reader.line(alloc, catalog, folds, next.line, next.text) {
            Ok(None) => {}
            Ok(Some(kind)) => {
                return Err(ScriptFault::Bad {
                    line: next.line,
                    kind,
                });
            }
            Err(_) => return Err(ScriptFault::NoMemory),
        }
    }
}

// The script of these lines.
fn script_of_lines(
    alloc: Global,
    catalog: &Catalog,
    folds: FoldNames,
    lines: &Lines,
) -> Result<Script, ScriptFault>
    ensures gives { Answers result (LinesGive catalog.now folds start 0 lines.now) }
    ensures inside { IfErr result (λ fault. fault ≢ ScriptFault.ReadFault) }
{
    let reader = match read_all(alloc, catalog, &folds, lines) {
        Ok(reader) => reader,
        Err(fault) => return Err(fault),
    };
    match reader.into_script(alloc, folds) {
        Ok(script) => Ok(script),
        Err(_) => Err(ScriptFault::NoMemory),
    }
}

/// Reads a script over the tables of the catalog and these folds.
///
/// The whole input is read before any line is examined, but for the first line past a limit, which ends the reading.
/// Then the first line that is refused is named, with the first kind that applies to it.
pub fn read_script<S: Source>(
    alloc: Global,
    source: &mut S,
    catalog: &Catalog,
    folds: FoldNames,
) -> Result<Script, ScriptFault>
    ensures gives { Answers result (λ outcome. OnTold (S.left source.old) (S.left source.new) (λ text _. TextGives catalog.now folds text outcome)) }
    ensures end { IfOk result (λ _. OnTold (S.left source.old) (S.left source.new) (λ _ left. left ≡ [])) }
    ensures sound { IfOk result (IsSound catalog.now) }
    ensures failed { result ≡ Err ScriptFault.ReadFault → Rose (S.faults source.old) (S.faults source.new) }
    ensures later { S.faults source.old ≤ S.faults source.new }
{
    // What lines and fields spell fits their tables.
    what_is_spelled_fits();
    let lines = match read_lines(alloc, source) {
        Ok(lines) => lines,
        Err(fault) => return Err(limit_fault(fault)),
    };
    script_of_lines(alloc, catalog, folds, &lines)
}
