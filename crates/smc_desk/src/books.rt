//! What a script knows between its commands.
ghost use Rattle.std.specs.Prelude.{◌≡◌, [], IfSome, List, OnOk};
ghost use Rattle.smc_folds.specs.Kinds.{Kind};
ghost use Rattle.smc_replies.specs.Books.{books_of, named, object_of, with_name};
ghost use Rattle.smc_desk.specs.Scenes.{seen};

use smc_types::Keys;
use smc_words::{NoMemory, Number};
use std::alloc::Global;
use std::collections::BTreeMap;
use std::marker::Model;

/// The names that were given, each with the number of its object, or with none. Contracts see a list, in the order of the
/// names' bytes.
#[derive(Drop)]
pub struct Names {
    objects: BTreeMap<String, Option<Number>>,
}

impl Model for Names {
    ghost use Rattle.std.specs.Prelude.{List};
    ghost use Rattle.smc_replies.specs.Books.{Named, names_in};

    ghost Value = { List Named };

    ghost view = { λ names. names_in names.objects.entries };
}

impl Names {
    /// No names.
    pub fn new(alloc: Global) -> Names
        ensures { result ≡ [] }
    {
        Names {
            objects: BTreeMap::new(alloc),
        }
    }

    /// What stands under the name, where it was given. Takes no memory.
    pub fn get(&self, name: &str) -> Option<Option<Number>>
        ensures { result ≡ named self.now name.now }
    {
        self.objects.get(name).copied()
    }

    /// Gives the name to this object, or to none.
    pub fn put(&mut self, alloc: Global, name: &str, object: Option<Number>) -> Result<(), NoMemory>
        ensures { OnOk result (self.new ≡ with_name name.now object self.old) }
    {
        let key = String::from_str(alloc, name)?;
        self.objects.insert(key, object)?;
        Ok(())
    }

    /// The object of the collection with this name, where it has one.
    pub(crate) fn object_of(&self, coll: u8, name: &str) -> Option<Number>
        ensures object { result ≡ object_of self.now coll name.now }
        ensures coll { IfSome result (λ number. number.coll ≡ coll) }
    {
        match self.get(name) {
            Some(Some(number)) if number.coll == coll => Some(number),
            _ => None,
        }
    }
}

/// The names that were given, and the objects that are found by their keys.
#[derive(Drop)]
pub struct Books {
    pub names: Names,
    pub keys: Keys,
}

impl Books {
    /// Those before the first command.
    pub fn new(alloc: Global) -> Books
        ensures { (kinds : List Kind) → seen result kinds ≡ books_of kinds }
    {
        Books {
            names: Names::new(alloc),
            keys: Keys::new(alloc),
        }
    }
}
