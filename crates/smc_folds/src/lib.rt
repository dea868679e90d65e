//! Folds: functions of the ascending numbers of a group, as boxes that a program hands in and finds again by name.
//!
//! `fold` has the trait, `distinct`, `median` and `range` the boxes that the program makes, `boxed` and `bench` the boxes
//! that are handed in, one and all, and `laws` worked examples. Below stands `smc_words`; above are to stand the crates
//! that answer queries, whose claim on a fold column is the function of the very box that was handed in, whatever box it is.
//!
//! `specs/Kinds.antt` defines what a box is and which box a name means, `Places.antt` where that one stands, `Takings.antt`
//! which numbers a box may be given, `Boxes.antt` the functions of the three boxes, and `Examples.antt` their answers to
//! short lists.
#![tactic(auto)]

mod bench;
mod boxed;
mod distinct;
mod fold;
pub mod laws;
mod median;
mod range;

pub use bench::Bench;
pub use boxed::Boxed;
pub use distinct::Distinct;
pub use fold::Fold;
pub use median::Median;
pub use range::Range;
