ghost use Rattle.std.specs.Prelude.{◌≡◌};
ghost use Rattle.smc_model.specs.World.{is_present_in};

use crate::Record;

/// An object of the plain world. It stays there when it is removed, and is not present any more.
#[derive(Debug, Drop)]
pub struct Object {
    pub coll: u8,
    pub words: Record,
    pub present: bool,
}

impl Object {
    /// Whether it is present, in the collection.
    pub(crate) fn is_present_in(&self, coll: u8) -> bool
        ensures { result ≡ is_present_in coll self.now }
    {
        self.present && self.coll == coll
    }
}
