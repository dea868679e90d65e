//! The rule of the table, and what a step tells the one that takes it.
use atomic_table::{Join, Play, Split, TableRule};
use smc_core::{Local, Opening};
use smc_model::Event;
use smc_shape::Shape;
use std::collections::LinkedList;
use std::marker::{Brand, PhantomData};

/// The note with this number among those of its pass, with the log that the pass had then.
pub struct NoteSeen {
    pub pass: u32,
    pub number: u32,
    pub log: LinkedList<Event>,
}

/// What a seat knows: the local states of its passes, and notes. No value of it is made.
pub struct View {
    pub shape: Shape,
    pub locals: LinkedList<(u32, Local)>,
    pub notes: LinkedList<NoteSeen>,
}

/// What a table is told when it is made.
#[derive(Drop)]
pub struct About {
    pub shape: Shape,
    pub opening: Opening,
}

/// The words and the local states in the views are a state that the machine reaches.
pub struct Law;

impl TableRule<(), View, About> for Law {
    ghost use Rattle.smc_region.specs.Rule.{Kept};
    ghost use Rattle.smc_region.specs.Views.{first_view};

    ghost holds = { λ about s. Kept about.shape about.opening s.words s.views };

    ghost first = { λ about. first_view about.shape };
}

/// The choice of a step, and the operation that is offered for it.
pub trait Choosing {
    ghost use Rattle.smc_core.specs.declared.call.Choice.{Choice};
    ghost use Rattle.smc_core.specs.declared.op.Op.{Op};

    ghost choice: { Choice };

    ghost op: { Op };
}

impl Choosing for Brand {
    ghost use Rattle.smc_core.specs.declared.call.Choice.TheVariants.{Go};
    ghost use Rattle.smc_core.specs.declared.op.Op.TheVariants.{MarkGone};

    ghost choice = { Go };

    ghost op = { MarkGone 0 0 };
}

/// One step of the machine, for the choice of `C`.
pub struct Acts<C> {
    of: PhantomData<C>,
}

impl<C: Choosing> Play<(), View> for Acts<C> {
    ghost use Rattle.std.specs.Prelude.{◌≡◌};
    ghost use Rattle.smc_core.specs.Row.{shown};
    ghost use Rattle.smc_region.specs.Reached.{From, Showed, answered_number};
    ghost use Rattle.smc_region.specs.Views.{view_after};

    ghost then = { λ step me found me'. (me' ≡ (view_after C.choice 0 (shown C.op found) me.0, me.1)) × Showed me.0 C.op (answered_number C.op found) × From me'.0 };
}

/// A pass goes to a seat of its own.
pub struct Deal;

impl Split<View> for Deal {
    ghost use Rattle.smc_region.specs.Views.{behind, front};

    ghost left = { behind };

    ghost right = { front };
}

/// A seat takes another's passes in.
pub struct Gather;

impl Join<View> for Gather {
    ghost use Rattle.smc_region.specs.Views.{gathered, spent};

    ghost both = { gathered };

    ghost spent = { spent };
}

/// A pass makes a note, which goes to a seat of its own.
pub struct Notes;

impl Split<View> for Notes {
    ghost use Rattle.smc_region.specs.Views.{note_of, noting};

    ghost left = { noting };

    ghost right = { note_of };
}

/// The seat of a pass takes a note in, and the pass learns it.
pub struct Learns;

impl Join<View> for Learns {
    ghost use Rattle.smc_region.specs.Views.{learning, spent};

    ghost both = { learning };

    ghost spent = { spent };
}
