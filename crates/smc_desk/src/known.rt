//! Which scripts are run: those whose commands all are.
ghost use Rattle.std.specs.Prelude.{◌≡◌, IfOk, map};
ghost use Rattle.smc_script.specs.Trees.{command_tree, numbered_tree, part_tree, worker_tree};
ghost use Rattle.smc_types.specs.Tables.{the_tables};
ghost use Rattle.smc_replies.specs.Commands.{is_known};
ghost use Rattle.smc_replies.specs.Scripts.{first_line, is_known_part, line_of, unknown_line};

use crate::edits::{can_delete, can_update};
use crate::queries::can_query;
use smc_script::{Command, FoldNames, Numbered, Part};
use smc_types::Catalog;
use smc_words::NoMemory;
use std::alloc::Global;

// The line of the first command of these.
fn first_line(commands: &[Numbered]) -> u64
    ensures { result ≡ first_line (map numbered_tree commands.now) }
{
    match commands {
        [numbered, ..] => numbered.line,
        [] => 0,
    }
}

// The line of the first command of a part.
fn line_of(part: &Part) -> u64
    ensures { result ≡ line_of (part_tree part.now) }
{
    match part {
        Part::One(numbered) => numbered.line,
        Part::Group { workers } => match workers.as_slice() {
            [worker, ..] => first_line(worker.commands.as_slice()),
            [] => 0,
        },
    }
}

/// Whether the command is one that is run, where the script was read with these folds.
///
/// # Errors
/// Memory was refused for a plan.
pub fn is_known(
    alloc: Global,
    c: &Command,
    catalog: &Catalog,
    folds: &FoldNames,
) -> Result<bool, NoMemory>
    requires tables { catalog.now ≡ the_tables }
    ensures { IfOk result (λ known. known ≡ is_known folds.now (command_tree c.now)) }
{
    match c {
        Command::Stat { .. } | Command::Load { .. } | Command::Compact { .. } => Ok(true),
        Command::Add { .. } | Command::Get { .. } => Ok(true),
        Command::Set { .. } | Command::Remove { .. } | Command::DropFold { .. } => Ok(true),
        Command::Query { query, .. } => can_query(alloc, query, catalog, folds),
        Command::Delete { place, filter } => can_delete(alloc, *place, filter, catalog),
        Command::Update {
            place,
            column,
            value,
            filter,
        } => can_update(alloc, *place, column, value, filter.as_ref(), catalog),
    }
}

// Whether a part is run.
fn is_known_part(
    alloc: Global,
    part: &Part,
    catalog: &Catalog,
    folds: &FoldNames,
) -> Result<bool, NoMemory>
    requires tables { catalog.now ≡ the_tables }
    ensures { IfOk result (λ known. known ≡ is_known_part folds.now (part_tree part.now)) }
{
    match part {
        Part::One(numbered) => is_known(alloc, &numbered.command, catalog, folds),
        Part::Group { .. } => Ok(false),
    }
}

/// The line at which the first part that is not run begins, where the script was read with these folds.
///
/// # Errors
/// Memory was refused for a plan.
pub fn unknown_line(
    alloc: Global,
    parts: &[Part],
    catalog: &Catalog,
    folds: &FoldNames,
) -> Result<Option<u64>, NoMemory>
    requires tables { catalog.now ≡ the_tables }
    ensures { IfOk result (λ line. line ≡ unknown_line folds.now (map part_tree parts.now)) }
{
    for part in parts {
        if !is_known_part(alloc, part, catalog, folds)? {
            return Ok(Some(line_of(part)));
        }
    }
    Ok(None)
}
