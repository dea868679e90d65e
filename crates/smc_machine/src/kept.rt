//! What a pass keeps beside where it stands: its log, its answers, its notes and what it has learnt.
ghost use Rattle.std.specs.Prelude.{◌≡◌, ◌∷◌, ◌++◌, [], IfOk, OnOk, OnErr, replicate};
ghost use Rattle.smc_automaton.specs.Effects.{cursors_by};
ghost use Rattle.smc_machine.specs.Added.{note_made, note_learnt, answer_at};
ghost use Rattle.smc_machine.specs.Kept.{IsFresh, IsSame, HasRoom, Grows};

use crate::grow::{add, make_room};
use smc_automaton::Cursor;
use smc_core::{Answer, Call, Choice, Done, Learnt};
use smc_model::Event;
use smc_row::push_copies;
use smc_words::NoMemory;
use std::alloc::Global;

/// What a pass knows beside where it stands. It only grows.
#[derive(Drop)]
pub(crate) struct Kept {
    pub(crate) log: Vec<Event>,
    pub(crate) answers: Vec<Answer>,
    pub(crate) notes: Vec<u64>,
    pub(crate) learnt: Vec<Learnt>,
    pub(crate) cursors: Vec<u32>,
    pub(crate) steps: u64,
}

impl Kept {
    /// What a pass keeps that has done nothing yet, in a region of so many collections.
    pub(crate) fn fresh(alloc: Global, colls: u32) -> Result<Kept, NoMemory>
        ensures { IfOk result (IsFresh colls) }
    {
        let mut cursors = Vec::new(alloc);
        push_copies(&mut cursors, colls as usize, 0)?;
        Ok(Kept {
            log: Vec::new(alloc),
            answers: Vec::new(alloc),
            notes: Vec::new(alloc),
            learnt: Vec::new(alloc),
            cursors,
            steps: 0,
        })
    }

    /// Takes memory for what one step may add.
    pub(crate) fn make_room(&mut self) -> Result<(), NoMemory>
        ensures same { IsSame self.old self.new }
        ensures room { OnOk result (HasRoom self.new) }
    {
        if self.steps == u64::MAX {
            return Err(NoMemory);
        }
        make_room(&mut self.log)?;
        make_room(&mut self.answers)?;
        make_room(&mut self.notes)?;
        make_room(&mut self.learnt)
    }

    /// Adds what a step of this choice tells, answers, notes and learns.
    pub(crate) fn grow(
        &mut self,
        choice: &Choice,
        event: Option<Event>,
        done: Option<Done>,
        cursor: Option<Cursor>,
    )
        requires { HasRoom self.old }
        ensures { Grows choice.now event done cursor self.old self.new }
    {
        self.steps += 1;
        add(&mut self.notes, note_made(self.log.len() as u64, choice));
        add(&mut self.learnt, note_learnt(choice));
        move_cursor(&mut self.cursors, cursor);
        add(&mut self.log, event);
        add(&mut self.answers, answer_at(self.log.len() as u64, done));
    }
}

/// The note that a step makes, at this length of the log.
fn note_made(length: u64, choice: &Choice) -> Option<u64>
    ensures { result ≡ note_made length choice.now }
{
    match choice {
        Choice::Start(Call::Note) => Some(length),
        _ => None,
    }
}

/// The note that a step learns.
fn note_learnt(choice: &Choice) -> Option<Learnt>
    ensures { result ≡ note_learnt choice.now }
{
    match choice {
        Choice::Start(Call::Learn { pass, note }) => Some(Learnt {
            pass: *pass,
            note: *note,
        }),
        _ => None,
    }
}

/// The answer that is kept, at this length of the log.
fn answer_at(length: u64, done: Option<Done>) -> Option<Answer>
    ensures { result ≡ answer_at length done }
{
    done.map(|done| Answer { length, done })
}

/// The cursor of a collection is where it has moved to.
fn move_cursor(cursors: &mut [u32], cursor: Option<Cursor>)
    ensures { cursors.new ≡ cursors_by cursor cursors.old }
{
    if let Some(Cursor { coll, slot }) = cursor
        && usize::from(coll) < cursors.len()
    {
        cursors[usize::from(coll)] = slot;
    }
}
