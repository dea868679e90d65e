//! The running region: the words of the machine on one table, which threads step on by its passes.
//!
//! `region` has `Region` and its one atomic step; `open` and `close` begin and end it. `pass` has what a pass does
//! outside a section (with `advance`, and with `note`, by which passes tell each other what they have seen), `section`
//! what it does inside: `Section::take` is one step of the machine, typed, `act` the same by numbers, and `deref` (with
//! `help`) a look-up over it. `chosen` is what a caller chooses, `held` an object that was found, `ripe` what a
//! section may use again, and `law` what the table keeps. Seats, logs and local states have no bytes: a step is the one instruction on its word.
//!
//! Below stand the definitions of the machine and their laws, above it the calls on objects. Callers may rely on it that
//! each step is the one that the pass offers, in a state that the machine reaches, and that a region which is closed is
//! in such a state. What contracts see of a pass is in `specs/Callers.antt` and of a note in `Notes`, what a step rests
//! on in `Reached`, what an act is in `Acts`, what the table keeps in `Rule` and `Views`, and what the calls leave in
//! `Sections`, `Looks`, `Advances` and `Ends`.
#![tactic(auto)]

mod act;
mod advance;
mod chosen;
mod close;
mod deref;
mod held;
mod help;
mod law;
mod note;
mod open;
mod pass;
mod region;
mod ripe;
mod section;
#[cfg(test)]
mod tests;

pub use act::Act;
pub use advance::Advance;
pub use chosen::Chosen;
pub use close::Quiet;
pub use held::Held;
pub use law::{About, View};
pub use note::Note;
pub use pass::Pass;
pub use region::Region;
pub use ripe::{is_ripe_entry, is_ripe_slot};
pub use section::Section;
