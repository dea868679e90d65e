ghost use Rattle.std.specs.Prelude.{◌≡◌, IfOk, IsSome, OnOk, string_bytes, vec_len};
ghost use Rattle.smc_schedule.specs.Known.{known_as};
ghost use Rattle.smc_play.specs.Turns as turns;
ghost use Rattle.smc_play.specs.Turns.{GivesName, Settles, SettlesAs, name_given, seat_after};
ghost use Rattle.smc_shape.specs.Layout.{IsShape};

use crate::begun::{Begun, Progress, begun_of};
use smc_core::{Choice, Done};
use smc_inv_bound::laws::calls_end;
use smc_machine::{Machine, Step, StepFault};
use smc_model::Event;
use smc_schedule::{Act, Known, Names, ScheduleLine, StartCall, answer_line};
use smc_words::{NoMemory, Number};
use std::alloc::Global;

/// What a schedule knows of a pass.
#[derive(Drop)]
pub struct Seat {
    /// The call in progress.
    pub call: Option<Progress>,
    /// The latest scan of the section.
    pub scan: Option<u64>,
}

/// Why a line is not played to its end.
#[derive(Clone, Copy, Debug, PartialEq, Eq)]
pub enum Halt {
    /// The machine refuses a step of it, or a name may not be used.
    Refused,
    /// Memory was refused.
    NoMemory,
}

impl From<NoMemory> for Halt {
    ghost use Rattle.std.specs.Prelude.{◌≡◌};
    ghost use Rattle.smc_play.specs.declared.player.Halt.TheVariants as halt;

    ghost from_gives = { λ _ fault. fault ≡ halt.NoMemory };

    fn from(_: NoMemory) -> Self {
        Halt::NoMemory
    }
}

/// A machine on which a schedule is played, with what was printed so far.
#[derive(Drop)]
pub struct Player {
    alloc: Global,
    machine: Machine,
    names: Names,
    seats: Vec<Seat>,
    text: String,
    ghost valid: { IsShape machine.shape },
    ghost here: { vec_len seats ≡ machine.shape.passes },
}

/// The name of the object that an answer visits.
fn visited(names: &Names, done: Done) -> &str
    ensures { result.now ≡ turns.visited names.now done }
{
    match done {
        Done::Visit { number, .. } => names.name_of(number).unwrap_or(""),
        _ => "",
    }
}

/// What is printed where the call ends, or does not.
fn printed(
    alloc: Global,
    pass: u32,
    names: &Names,
    call: &Option<Progress>,
    done: Option<Done>,
) -> Result<String, NoMemory>
    ensures { IfOk result (λ text. string_bytes text ≡ turns.printed pass names.now call.now done) }
{
    match (call, done) {
        (Some(progress), Some(done)) => {
            answer_line(alloc, pass, progress.verb, done, visited(names, done))
        }
        _ => Ok(String::new(alloc)),
    }
}

/// The number that an event adds.
fn number_added(event: &Option<Event>) -> Option<Number>
    ensures { result ≡ turns.number_added event.now }
{
    match event {
        Some(Event::Add { number, .. }) => Some(*number),
        _ => None,
    }
}

/// What the name of an add stands for once the add has ended so.
fn settled(event: &Option<Event>, done: Done) -> Option<Known>
    ensures { result ≡ turns.settled event.now done }
{
    match done {
        Done::Made { .. } => number_added(event).map(Known::Object),
        Done::Full { .. } => Some(Known::Full),
        _ => None,
    }
}

/// Settles a name that was given.
fn settle_as(
    alloc: Global,
    names: &mut Names,
    name: &str,
    known: Option<Known>,
) -> Result<(), NoMemory>
    requires { IsSome (known_as names.old name.now) }
    ensures { OnOk result (SettlesAs names.old names.new name.now known) }
{
    match known {
        Some(Known::Object(number)) => names.settle(alloc, name, number),
        Some(Known::Full) => {
            names.fill(name);
            Ok(())
        }
        Some(Known::Pending) | None => Ok(()),
    }
}

/// Settles the name of an add that has ended.
fn settle(
    alloc: Global,
    names: &mut Names,
    call: &Option<Progress>,
    step: &Step,
) -> Result<(), NoMemory>
    ensures { OnOk result (Settles names.old names.new (name_given call.now) step.now.event step.now.done) }
{
    let Some(
        Progress {
            name: Some(name),
            ..
        },
    ) = call
    else {
        return Ok(());
    };
    let Some(done) = step.done else {
        return Ok(());
    };
    if names.get(name.as_str()).is_none() {
        return Ok(());
    }
    settle_as(alloc, names, name.as_str(), settled(&step.event, done))
}

/// What is known of the pass after the step.
fn move_on(seat: &mut Seat, step: &Step)
    ensures { seat.new ≡ seat_after seat.old step.now }
{
    if step.done.is_some() {
        seat.call = None;
    }
    match &step.event {
        Some(Event::Begin { scan, .. }) => seat.scan = Some(*scan),
        Some(Event::Leave) => seat.scan = None,
        _ => {}
    }
}

impl Player {
    ghost use Rattle.std.specs.Prelude.{◌≡◌, ℕ, List, [], None, Err, IfOk, OnOk, replicate, string_bytes};
    ghost use Rattle.smc_schedule.specs.Known.{name_at};
    ghost use Rattle.smc_words.specs.declared.number.Number.{Number};
    ghost use Rattle.smc_play.specs.Turns.{Turn, IsRefused};
    ghost use Rattle.smc_play.specs.Texts.{cleared, empty_seat};
    ghost use Rattle.smc_play.specs.Plays.{playing, goes_on, Begins, CannotBegin, RefusesCall, RunsOn, StartsCall, StopsOn, TakesLine, RefusesLine};

    /// A player of this machine, which has so many passes that have begun nothing, and no names.
    pub(crate) fn of(alloc: Global, machine: Machine, passes: u32) -> Result<Player, NoMemory>
        requires valid { IsShape machine.shape }
        requires here { machine.shape.passes ≡ passes }
        ensures running { IfOk result (λ p. p.machine ≡ machine) }
        ensures names { IfOk result (λ p. (name : List ℕ) → known_as p.names name ≡ None) }
        ensures numbers { IfOk result (λ p. (number : Number) → name_at p.names number ≡ None) }
        ensures seats { IfOk result (λ p. p.seats.items ≡ replicate passes empty_seat) }
        ensures text { IfOk result (λ p. string_bytes p.text ≡ []) }
    {
        let mut seats = Vec::new(alloc);
        for _ in 0..passes {
            seats.push(Seat {
                call: None,
                scan: None,
            })?;
        }
        Ok(Player {
            alloc,
            machine,
            names: Names::new(alloc),
            seats,
            text: String::new(alloc),
        })
    }

    /// Whether the pass has a call in progress.
    fn goes_on(&self, pass: u32) -> bool
        ensures { result ≡ goes_on (playing self.now) pass }
    {
        match self.seats.get(pass as usize) {
            Some(seat) => seat.call.is_some(),
            None => false,
        }
    }

    /// The pass takes the step that it offers for the choice.
    fn take(&mut self, pass: u32, choice: Choice) -> Result<(), Halt>
        ensures done { OnOk result (Turn (playing self.old) pass choice (playing self.new)) }
        ensures refused { result ≡ Err Halt.Refused → IsRefused (playing self.old) pass choice }
    {
        let step = match self.machine.step(pass, choice) {
            Ok(step) => step,
            Err(StepFault::NoMemory) => return Err(Halt::NoMemory),
            Err(_) => return Err(Halt::Refused),
        };
        let seat = &mut self.seats[pass as usize];
        settle(self.alloc, &mut self.names, &seat.call, &step)?;
        let text = printed(self.alloc, pass, &self.names, &seat.call, step.done)?;
        match self.text.push_str(&text) {
            Ok(()) => {}
            Err(_) => return Err(Halt::NoMemory),
        }
        move_on(seat, &step);
        Ok(())
    }

    /// The pass takes the first step of a call.
    fn start(&mut self, pass: u32, call: StartCall) -> Result<(), Halt>
        ensures done { OnOk result (StartsCall (playing self.old) pass call (playing self.new)) }
        ensures refused { result ≡ Err Halt.Refused → RefusesCall (playing self.old) pass call }
    {
        let choice = match self.begin(pass, call) {
            Ok(choice) => choice,
            Err(halt) => return Err(halt),
        };
        self.take(pass, choice)
    }

    /// The call of a line is in progress, its names resolved; this is the choice of its first step.
    fn begin(&mut self, pass: u32, call: StartCall) -> Result<Choice, Halt>
        ensures done { IfOk result (λ choice. Begins (playing self.old) pass call choice (playing self.new)) }
        ensures refused { result ≡ Err Halt.Refused → CannotBegin (playing self.old) pass call }
    {
        let Some(seat) = self.seats.get_mut(pass as usize) else {
            return Err(Halt::Refused);
        };
        let Some(begun) = begun_of(&self.names, seat.scan, call) else {
            return Err(Halt::Refused);
        };
        let Begun { progress, choice } = begun;
        give(self.alloc, &mut self.names, &progress)?;
        seat.call = Some(progress);
        Ok(choice)
    }

    /// The pass goes on until its call has ended.
    fn run_on(&mut self, pass: u32) -> Result<(), Halt>
        ensures done { OnOk result (RunsOn (playing self.old) pass (playing self.new)) }
        ensures refused { result ≡ Err Halt.Refused → StopsOn (playing self.old) pass }
    {
        calls_end();
        while self.goes_on(pass) {
            match self.take(pass, Choice::Go) {
                Ok(()) => {}
                Err(halt) => return Err(halt),
            }
        }
        Ok(())
    }

    /// Nothing of the next line was printed yet.
    pub(crate) fn clear(&mut self)
        ensures { playing self.new ≡ cleared (playing self.old) }
    {
        self.text.clear();
    }

    /// What was printed since.
    pub(crate) fn text(&self) -> &str
        ensures { result.now ≡ (playing self.now).text }
    {
        self.text.as_str()
    }

    /// Plays a line.
    pub fn line(&mut self, line: ScheduleLine) -> Result<(), Halt>
        ensures done { OnOk result (TakesLine (playing self.old) line (playing self.new)) }
        ensures refused { result ≡ Err Halt.Refused → RefusesLine (playing self.old) line }
    {
        let ScheduleLine { pass, act } = line;
        match act {
            Act::Start(call) => self.start(pass, call),
            Act::Run(call) => match self.start(pass, call) {
                Ok(()) => self.run_on(pass),
                Err(halt) => Err(halt),
            },
            Act::Step => {
                if !self.goes_on(pass) {
                    return Err(Halt::Refused);
                }
                self.take(pass, Choice::Go)
            }
            Act::RunOn => {
                if !self.goes_on(pass) {
                    return Err(Halt::Refused);
                }
                self.run_on(pass)
            }
        }
    }
}

/// Gives the name of a call that gives one.
fn give(alloc: Global, names: &mut Names, progress: &Progress) -> Result<(), NoMemory>
    ensures { OnOk result (GivesName names.old names.new progress.now.name) }
{
    match &progress.name {
        Some(name) => names.give(alloc, name),
        None => Ok(()),
    }
}
