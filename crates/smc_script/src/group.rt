//! The group that is open in a script: what may stand in it, and how a line changes it.
ghost use Rattle.std.specs.Prelude.{◌≡◌, ◌≤◌, List, length, map, nat_le, IfOk, OnOk, Some};
ghost use Rattle.std.specs.List.{list_all};
ghost use Rattle.std.specs.Option.{option_or};
ghost use Rattle.smc_lines.specs.declared.limits.TheConstants.{MAX_LINES};
ghost use Rattle.smc_query.specs.Trees.{Word, call_tree, query_tree};
ghost use Rattle.smc_script.specs.Faults as fault;
ghost use Rattle.smc_script.specs.Says as says;
ghost use Rattle.smc_script.specs.Says.{said_tree};
ghost use Rattle.smc_script.specs.Scripts.{LinesEnd, end_gives};
ghost use Rattle.smc_script.specs.States as state;
ghost use Rattle.smc_script.specs.States.{after, group_shown, reading, with_command, workers_of};
ghost use Rattle.smc_script.specs.Trees.{command_tree, numbered_tree, worker_tree};

use crate::command::Command;
use crate::fault::{ScriptFault, ScriptKind};
use crate::limits::MAX_WORKERS;
use crate::said::Said;
use crate::script::{Commands, Numbered, Part, WorkerPart, Workers};
use crate::state::{Grouping, Phase, Reader};
use smc_query::{Item, ItemCall, Query};
use smc_words::NoMemory;
use std::alloc::Global;
use std::mem;

fn is_plain(call: &ItemCall) -> bool
    ensures { result ≡ fault.is_plain (call_tree call.now) }
{
    match call {
        ItemCall::Fold { .. } => false,
        _ => true,
    }
}

fn are_plain(items: &[Item]) -> bool
    ensures { result ≡ list_all (λ item. fault.is_plain (call_tree item.call)) items.now }
{
    items.iter().all(|item| is_plain(&item.call))
}

// Whether no item of the query is a fold.
fn is_without_folds(query: &Query) -> bool
    ensures { result ≡ fault.are_plain (query_tree query.now).items }
{
    are_plain(query.items.as_slice())
}

// Whether a worker with these commands may do this, or end with it.
fn is_of_worker(commands: &[Numbered], said: &Said) -> bool
    ensures { result ≡ fault.is_of_worker (map numbered_tree commands.now) (said_tree said.now) }
{
    match said {
        Said::Room { .. } | Said::Load { .. } | Said::DropFold { .. } | Said::Group => false,
        Said::Query { query } => is_without_folds(query),
        Said::Worker | Said::End => !commands.is_empty(),
        _ => true,
    }
}

impl Grouping {
    // Whether it has as many workers as a group may have.
    fn is_full(&self) -> bool
        ensures { result ≡ nat_le MAX_WORKERS (length (workers_of (group_shown self.now))) }
    {
        match self {
            Grouping::Working { workers, .. } => MAX_WORKERS <= workers.len() + 1,
            _ => false,
        }
    }

    // The kind of a line that begins one worker too many.
    fn many_fault(&self, said: &Said) -> Option<ScriptKind>
        ensures { result ≡ fault.many_fault (group_shown self.now) (said_tree said.now) }
    {
        match said {
            Said::Worker if self.is_full() => Some(ScriptKind::TooMany),
            _ => None,
        }
    }

    // Whether a line that says this may stand where this group is open.
    fn may_stand(&self, said: &Said) -> bool
        ensures { result ≡ fault.may_stand (group_shown self.now) (said_tree said.now) }
    {
        match self {
            Grouping::Outside => !matches!(said, Said::Worker | Said::End),
            Grouping::Begun => matches!(said, Said::Worker),
            Grouping::Working { commands, .. } => is_of_worker(commands, said),
        }
    }

    /// The kind of a line that begins one worker too many, or may not stand where it does.
    pub fn fault(&self, said: &Said) -> Option<ScriptKind>
        ensures { result ≡ option_or (fault.many_fault (group_shown self.now) (said_tree said.now)) (fault.group_fault (group_shown self.now) (said_tree said.now)) }
    {
        if let Some(kind) = self.many_fault(said) {
            return Some(kind);
        }
        if self.may_stand(said) {
            return None;
        }
        Some(ScriptKind::Group)
    }

    // Whether a group is open.
    fn is_open(&self) -> bool
        ensures { result ≡ state.is_open (group_shown self.now) }
    {
        match self {
            Grouping::Outside => false,
            _ => true,
        }
    }

    // Its workers, of which the last one is complete.
    fn into_workers(self, alloc: Global) -> Result<Vec<WorkerPart>, NoMemory>
        ensures { IfOk result (λ workers. map worker_tree workers.items ≡ workers_of (group_shown self)) }
    {
        match self {
            Grouping::Working {
                mut workers,
                commands,
            } => {
                workers.push(WorkerPart {
                    commands: Commands::of(commands),
                })?;
                Ok(workers)
            }
            _ => Ok(Vec::new(alloc)),
        }
    }
}

impl Reader {
    /// Takes a command.
    pub fn take_command(&mut self, line: u64, command: Command) -> Result<(), NoMemory>
        ensures { OnOk result (reading self.new ≡ with_command (reading self.old) line (Some (command_tree command))) }
    {
        let numbered = Numbered { line, command };
        match &mut self.group {
            Grouping::Working { commands, .. } => commands.push(numbered)?,
            _ => self.parts.push(Part::One(numbered))?,
        }
        self.phase = Phase::Doing;
        Ok(())
    }

    /// Takes the line that begins a group.
    pub fn take_group(&mut self, line: u64)
        ensures { (catalog : _) → reading self.new ≡ after catalog (reading self.old) line says.group }
    {
        self.names.hide_none(line);
        self.phase = Phase::Doing;
        self.group = Grouping::Begun;
    }

    /// Takes the line that begins a worker.
    pub fn take_worker(&mut self, alloc: Global, line: u64) -> Result<(), NoMemory>
        ensures { OnOk result ((catalog : _) → reading self.new ≡ after catalog (reading self.old) line says.worker) }
    {
        self.names.hide_before(line);
        self.phase = Phase::Doing;
        let group = mem::replace(&mut self.group, Grouping::Outside);
        let workers = group.into_workers(alloc)?;
        let commands = Vec::new(alloc);
        self.group = Grouping::Working { workers, commands };
        Ok(())
    }

    /// Takes the line that ends a group.
    pub fn take_end(&mut self, alloc: Global, line: u64) -> Result<(), NoMemory>
        ensures { OnOk result ((catalog : _) → reading self.new ≡ after catalog (reading self.old) line says.end) }
    {
        self.names.hide_none(line);
        self.phase = Phase::Doing;
        let group = mem::replace(&mut self.group, Grouping::Outside);
        let workers = Workers::of(group.into_workers(alloc)?);
        self.parts.push(Part::Group { workers })?;
        Ok(())
    }

    /// What was read, behind so many lines, where no group is left open.
    pub fn ended(self, lines: u64) -> Result<Reader, ScriptFault>
        requires { lines ≤ MAX_LINES }
        ensures { (folds : List Word) → LinesEnd result (λ outcome. outcome ≡ end_gives folds (reading self) lines) folds }
    {
        if self.group.is_open() {
            return Err(ScriptFault::Bad {
                line: lines + 1,
                kind: ScriptKind::Group,
            });
        }
        Ok(self)
    }
}
