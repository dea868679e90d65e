//! What the calls of a pass do, as lists of calls of the machine.
//!
//! `specs/Does.antt` is the form of the contracts above: a pass goes on by these calls (`Does`), by some calls of which
//! something holds (`DoesSome`), its section goes on (`Stays`) and holds an object (`IsHeld`). `laws` joins them and says
//! that a section holds each object once; `proofs/DoesLaws.antt` and `proofs/HeldLaws.antt` have this as lemmas, and
//! `proofs/Bridges.antt` reads what is done off what the calls of a region leave of a pass. Below stand the running region
//! and the traces of passes, above it the calls on objects.
#![tactic(auto)]

pub mod laws;
