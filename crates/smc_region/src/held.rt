//! An object that a section holds.
ghost use Rattle.std.specs.Prelude.{◌≡◌};

use smc_words::Number;

/// An object that a section has found, with its slot. It is good in the section that made it.
#[derive(Clone, Copy, Debug, PartialEq, Eq)]
pub struct Held {
    pub(crate) number: Number,
    pub(crate) place: u32,
}

impl Held {
    /// The number of the object.
    pub fn number(&self) -> Number
        ensures { result ≡ self.now.number }
    {
        self.number
    }

    /// The slot in which the section holds it.
    pub fn place(&self) -> u32
        ensures { result ≡ self.now.place }
    {
        self.place
    }
}
