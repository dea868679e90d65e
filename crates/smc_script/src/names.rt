ghost use Rattle.std.specs.Prelude.{◌≡◌, [], OnOk};
ghost use Rattle.smc_script.specs.Names as spec;
ghost use Rattle.smc_script.specs.Names.{origin_of, table_known, with_name};

use smc_words::NoMemory;
use std::alloc::Global;
use std::collections::BTreeMap;
use std::marker::Model;

/// Where a name was given: to an object of this table, on this line.
#[derive(Clone, Copy, Debug, PartialEq, Eq, Drop)]
pub struct Origin {
    pub table: u32,
    pub line: u64,
}

/// The names that were given. Contracts see a list, in the order of the names' bytes, and which of them are hidden.
#[derive(Drop)]
pub struct Names {
    origins: BTreeMap<String, Origin>,
    from: u64,
    before: u64,
}

impl Model for Names {
    ghost use Rattle.smc_script.specs.Names.{Naming, given_in};

    ghost Value = { Naming };

    ghost view = { λ names. record { given = given_in names.origins.entries; from = names.from; before = names.before } };
}

impl Names {
    /// No names.
    pub fn new(alloc: Global) -> Names
        ensures { result ≡ record { given = []; from = 0; before = 0 } }
    {
        Names {
            origins: BTreeMap::new(alloc),
            from: 0,
            before: 0,
        }
    }

    // Where the name was given, if it was.
    fn origin(&self, name: &str) -> Option<Origin>
        ensures { result ≡ origin_of self.now.given name.now }
    {
        self.origins.get(name).copied()
    }

    /// Whether the name was given.
    pub fn is_taken(&self, name: &str) -> bool
        ensures { result ≡ spec.is_taken self.now name.now }
    {
        self.origin(name).is_some()
    }

    /// The table of the object with this name, where the name is known.
    pub fn table(&self, name: &str) -> Option<u32>
        ensures { result ≡ table_known self.now name.now }
    {
        let origin = self.origin(name)?;
        if self.from <= origin.line && origin.line < self.before {
            return None;
        }
        Some(origin.table)
    }

    /// Gives a name to an object of this table, on this line.
    pub fn give(&mut self, alloc: Global, name: &str, table: u32, line: u64) -> Result<(), NoMemory>
        ensures { OnOk result (self.new ≡ record self.old { given = with_name name.now (record { table = table; line = line }) self.old.given }) }
    {
        let key = String::from_str(alloc, name)?;
        self.origins.insert(key, Origin { table, line })?;
        Ok(())
    }

    /// Hides none of the names. A group that begins or ends on this line knows all that went before.
    pub fn hide_none(&mut self, line: u64)
        ensures { self.new ≡ record self.old { from = line; before = line } }
    {
        self.from = line;
        self.before = line;
    }

    /// Hides the names that the open group gave before this line.
    pub fn hide_before(&mut self, line: u64)
        ensures { self.new ≡ record self.old { before = line } }
    {
        self.before = line;
    }
}
