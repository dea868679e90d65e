//! A region and its passes: how they are opened, and how one pass takes one step.
ghost use Rattle.std.specs.Prelude.{◌≡◌, ◌<◌, ℕ, List, false, Some, IfOk, IfErr, OnOk, OnErr, slice_get, replicate};
ghost use Rattle.smc_core.specs.declared.local.Local.{Local};
ghost use Rattle.smc_core.specs.Local.{fresh, after};
ghost use Rattle.smc_core.specs.Row.{row_shows};
ghost use Rattle.smc_automaton.specs.Fits.{FitsStand};
ghost use Rattle.smc_automaton.specs.FitsWord.{FitsOp};
ghost use Rattle.smc_core.specs.Machine.{IsOpening, IsOpened, Steps, local_offer, started};
ghost use Rattle.smc_machine.specs.Faults.{IsRefused, IsAllowed, IsRefusedFirst, is_spent};
ghost use Rattle.smc_machine.specs.Chosen.{IsChosen};
ghost use Rattle.smc_machine.specs.Running.{Tells, IsRunning, running};

use crate::pass::Pass;
use crate::row::Row;
use crate::step::{MOST_BEGUN, Step, StepFault};
use crate::told::told_by;
use smc_automaton::laws::{fresh_stands_fit, steps_keep_stands, steps_keep_words};
use smc_automaton::offered;
use smc_core::{Call, Choice, Offer, Opening, Stand};
use smc_shape::Shape;
use smc_words::NoMemory;
use std::alloc::Global;
use std::marker::Model;

/// A region and the passes that use it, one step at a time.
#[derive(Drop)]
pub struct Machine {
    alloc: Global,
    row: Row,
    passes: Vec<Pass>,
}

impl Model for Machine {
    ghost use Rattle.smc_machine.specs.Running.{Running, IsRunning};

    ghost Value = { Running };

    ghost view = { λ m. record {
      shape = m.row.shape;
      machine = record { row = m.row.row; locals = m.passes.items };
    } };

    ghost invariant = { λ m. IsRunning m.row.shape m.passes.items };
}

impl Machine {
    /// The machine of a region without objects, and of passes that have done nothing yet.
    pub fn open(alloc: Global, shape: Shape, opening: Opening) -> Result<Machine, NoMemory>
        requires { IsOpening opening }
        ensures shape { IfOk result (λ m. m.shape ≡ shape) }
        ensures row { IfOk result (λ m. IsOpened shape opening m.machine.row) }
        ensures fresh { IfOk result (λ m. m.machine ≡ started shape m.machine.row) }
    {
        let passes = fresh_passes(alloc, &shape)?;
        let row = Row::open(alloc, shape, opening)?;
        fresh_stands_fit();
        Ok(Machine { alloc, row, passes })
    }

    /// The pass takes the step that it offers for the choice.
    pub fn step(&mut self, pass: u32, choice: Choice) -> Result<Step, StepFault>
        ensures shape { self.new.shape ≡ self.old.shape }
        ensures done { OnOk result (Steps self.old.shape self.old.machine pass choice self.new.machine) }
        ensures told { IfOk result (λ step. (before after : Local)
            → slice_get self.old.machine.locals pass ≡ Some before
            → slice_get self.new.machine.locals pass ≡ Some after → Tells before after step) }
        ensures allowed { OnOk result (IsAllowed self.old pass choice) }
        ensures cause { IfErr result (IsRefused self.old pass choice) }
        ensures kept { OnErr result (self.new ≡ self.old) }
    {
        self.take(pass, &choice)
    }

    /// The same, where the choice is only read.
    pub(crate) fn take(&mut self, pass: u32, choice: &Choice) -> Result<Step, StepFault>
        ensures shape { self.new.shape ≡ self.old.shape }
        ensures done { OnOk result (Steps self.old.shape self.old.machine pass choice.now self.new.machine) }
        ensures told { IfOk result (λ step. (before after : Local)
            → slice_get self.old.machine.locals pass ≡ Some before
            → slice_get self.new.machine.locals pass ≡ Some after → Tells before after step) }
        ensures allowed { OnOk result (IsAllowed self.old pass choice.now) }
        ensures cause { IfErr result (IsRefused self.old pass choice.now) }
        ensures kept { OnErr result (self.new ≡ self.old) }
    {
        let chosen = match choose(&self.row, &self.passes, pass, choice) {
            Ok(chosen) => chosen,
            Err(fault) => return Err(fault),
        };
        let taken = take_part(
            self.alloc,
            &self.row,
            &mut self.passes[pass as usize],
            pass,
            choice,
            chosen,
        );
        match taken {
            Ok(step) => {
                self.row.apply(chosen.offer.op);
                Ok(step)
            }
            Err(NoMemory) => Err(StepFault::NoMemory),
        }
    }
}

/// The step that a pass offers, and what the other passes tell it.
#[derive(Clone, Copy)]
struct Chosen {
    offer: Offer,
    told: u64,
}

/// What the pass is to do, where it may.
fn choose(row: &Row, passes: &[Pass], pass: u32, choice: &Choice) -> Result<Chosen, StepFault>
    requires { IsRunning row.now.shape passes.now }
    ensures done { IfOk result (IsChosen row.now.shape passes.now pass choice.now) }
    ensures cause { IfErr result (λ fault. (numbers : List ℕ) →
        IsRefusedFirst (running row.now.shape numbers passes.now) pass choice.now fault) }
{
    let shape = row.shape();
    if pass >= shape.passes() {
        return Err(StepFault::NoPass);
    }
    let stand = passes[pass as usize].stand();
    let Some(offer) = offered(shape, pass, stand, choice) else {
        return Err(StepFault::NotOffered);
    };
    let Some(told) = told_by(passes, pass, choice) else {
        return Err(StepFault::NotOffered);
    };
    if is_spent(stand, choice) {
        return Err(StepFault::CountSpent);
    }
    Ok(Chosen { offer, told })
}

/// Does to one pass what the step makes of it.
fn take_part(
    alloc: Global,
    row: &Row,
    local: &mut Pass,
    pass: u32,
    choice: &Choice,
    chosen: Chosen,
) -> Result<Step, NoMemory>
    requires here { pass < row.now.shape.passes }
    requires fits { FitsStand row.now.shape local.old.stand }
    requires offers { local_offer row.now.shape pass local.old choice.now ≡ Some chosen.offer }
    requires counts { is_spent local.old.stand choice.now ≡ false }
    ensures done { OnOk result (local.new ≡ after row.now.shape pass local.old choice.now
        chosen.told (row_shows row.now.shape chosen.offer.op row.now.row)) }
    ensures stand { OnOk result (FitsStand row.now.shape local.new.stand) }
    ensures words { FitsOp chosen.offer.op }
    ensures told { IfOk result (Tells local.old local.new) }
    ensures kept { OnErr result (local.new ≡ local.old) }
{
    let seen = row.shows(chosen.offer.op);
    steps_keep_words();
    steps_keep_stands();
    local.step(alloc, row.shape(), pass, choice, chosen.told, seen)
}

/// So many passes that have done nothing yet.
fn fresh_passes(alloc: Global, shape: &Shape) -> Result<Vec<Pass>, NoMemory>
    ensures { IfOk result (λ passes. passes.items ≡ replicate shape.now.passes (fresh shape.now)) }
{
    let mut passes = Vec::new(alloc);
    for _ in 0..shape.passes() {
        passes.push(Pass::fresh(alloc, shape)?)?;
    }
    Ok(passes)
}

/// Whether the choice is one more of what the pass has begun or made the most of.
fn is_spent(stand: &Stand, choice: &Choice) -> bool
    ensures { result ≡ is_spent stand.now choice.now }
{
    match choice {
        Choice::Start(Call::Scan { .. }) => stand.begun == MOST_BEGUN,
        Choice::Start(Call::Note) => stand.noted == MOST_BEGUN,
        _ => false,
    }
}
