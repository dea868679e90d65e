//! The shape of a region, and the place of every word in its one row of 64-bit words.
//!
//! `shape` has `Shape`, which is made and asked here, of the collections in `coll`; `fault` says why one is refused;
//! `place` names the places and gives their indices; `laws` says that they lie apart and fill the row. Below it stands
//! no crate of this house, and above it all that touches a row. It takes no memory. Callers rely on the laws and never
//! on what an index is made of. The meaning is defined in `specs`: `Layout` (what a shape is), `Faults` (which one is
//! refused) and `Places` (where each word is).
#![tactic(auto)]

mod coll;
mod fault;
mod laws;
mod place;
mod shape;
#[cfg(test)]
mod tests;

pub use coll::{BLOCK_SLOTS, CollShape, MAX_WIDTH};
pub use fault::ShapeFault;
pub use laws::{
    collections_are_small, faults_are_exact, first_words, places_fill_the_row, places_lie_apart,
    places_lie_within,
};
pub use place::{EPOCH_AT, Place, ROUND_AT};
pub use shape::{MAX_COLLS, MAX_PASSES, MAX_WORDS, Shape};
