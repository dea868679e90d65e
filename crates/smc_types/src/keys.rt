ghost use Rattle.std.specs.Prelude.{◌≡◌, [], OnOk, OnErr, IfSome};
ghost use Rattle.smc_types.specs.Keys.{number_at, Puts};
ghost use Rattle.smc_words.specs.Number.{FitsNumber};

use smc_words::{NoMemory, Number};
use std::alloc::Global;
use std::collections::HashMap;
use std::marker::Model;

/// The number of the latest object that was put under each key of each table. Contracts see the list of the keys with
/// their numbers.
#[derive(Drop)]
pub struct Keys {
    numbers: HashMap<(u32, u64), Number>,
}

impl Model for Keys {
    ghost use Rattle.std.specs.Prelude.{List, ℕ};
    ghost use Rattle.smc_words.specs.declared.number.Number.{Number};
    ghost use Rattle.smc_types.specs.Keys.{AreNumbers};

    ghost Value = { List ((ℕ × ℕ) × Number) };

    ghost view = { λ keys. keys.numbers.entries };

    ghost invariant = { λ keys. AreNumbers keys.numbers.entries };
}

impl Keys {
    /// No keys.
    pub fn new(alloc: Global) -> Keys
        ensures { result ≡ [] }
    {
        Keys {
            numbers: HashMap::new(alloc),
        }
    }

    /// Puts a number under a key, in place of the one that stood there.
    pub fn put(&mut self, table: u32, key: u64, number: Number) -> Result<(), NoMemory>
        requires { FitsNumber number }
        ensures done { OnOk result (Puts self.old self.new table key number) }
        ensures kept { OnErr result (self.new ≡ self.old) }
    {
        self.numbers.insert((table, key), number)?;
        Ok(())
    }

    /// The number that was put last under a key. Takes no memory.
    pub fn get(&self, table: u32, key: u64) -> Option<Number>
        ensures number { result ≡ number_at self.now table key }
        ensures fits { IfSome result FitsNumber }
    {
        self.numbers.get(&(table, key)).copied()
    }
}
