//! What one pass knows, and what a step makes of it.
ghost use Rattle.std.specs.Prelude.{◌≡◌, false, IfOk, OnOk, OnErr};
ghost use Rattle.smc_core.specs.Local.{fresh, after};
ghost use Rattle.smc_automaton.specs.Fits.{FitsStand};
ghost use Rattle.smc_machine.specs.Faults.{is_spent};
ghost use Rattle.smc_machine.specs.Running.{Tells};

use crate::event::copy_told;
use crate::kept::Kept;
use crate::stand::move_stand;
use crate::step::Step;
use smc_automaton::{changed, cursor_effect};
use smc_core::{Choice, Learnt, Phase, Section, Stand, Word};
use smc_model::Record;
use smc_shape::Shape;
use smc_words::NoMemory;
use std::alloc::Global;
use std::collections::LinkedList;
use std::marker::Model;

/// What a pass knows.
#[derive(Drop)]
pub(crate) struct Pass {
    stand: Stand,
    kept: Kept,
}

impl Model for Pass {
    ghost use Rattle.smc_core.specs.declared.local.Local.{Local};

    ghost Value = { Local };

    ghost use Rattle.smc_machine.specs.Kept.{local_of};

    ghost view = { λ p. local_of p.stand p.kept };
}

impl Pass {
    /// A pass that has done nothing yet.
    pub(crate) fn fresh(alloc: Global, shape: &Shape) -> Result<Pass, NoMemory>
        ensures { IfOk result (λ pass. pass ≡ fresh shape.now) }
    {
        let stand = Stand {
            section: Section::Outside,
            phase: Phase::Idle,
            held: LinkedList::new(alloc),
            scans: LinkedList::new(alloc),
            begun: 0,
            noted: 0,
            words: Record::of(alloc, &[])?,
            round: None,
        };
        let kept = Kept::fresh(alloc, shape.colls())?;
        Ok(Pass { stand, kept })
    }

    pub(crate) fn stand(&self) -> &Stand
        ensures { result.now ≡ self.now.stand }
    {
        &self.stand
    }

    pub(crate) fn notes(&self) -> &[u64]
        ensures { result.now ≡ self.now.notes }
    {
        &self.kept.notes
    }

    pub(crate) fn learnt(&self) -> &[Learnt]
        ensures { result.now ≡ self.now.learnt }
    {
        &self.kept.learnt
    }

    /// Does to the pass what a step makes of it. Where memory is refused nothing changes.
    pub(crate) fn step(
        &mut self,
        alloc: Global,
        shape: &Shape,
        pass: u32,
        choice: &Choice,
        told: u64,
        seen: Word,
    ) -> Result<Step, NoMemory>
        requires fits { FitsStand shape.now self.old.stand }
        requires counts { is_spent self.old.stand choice.now ≡ false }
        ensures done { OnOk result (self.new ≡
            after shape.now pass self.old choice.now told seen) }
        ensures told { IfOk result (Tells self.old self.new) }
        ensures kept { OnErr result (self.new ≡ self.old) }
    {
        let made = changed(alloc, shape, pass, &self.stand, choice, told, seen)?;
        let cursor = cursor_effect(shape, &self.stand, choice);
        let event = copy_told(alloc, &made.event)?;
        self.kept.make_room()?;
        move_stand(alloc, shape, pass, &mut self.stand, choice, seen, &made)?;

        // From here on nothing takes memory.
        let done = made.answer;
        self.kept.grow(choice, made.event, done, cursor);
        Ok(Step { event, done })
    }
}
