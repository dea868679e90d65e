ghost use Rattle.std.specs.Prelude.{◌≡◌};

use smc_tokens::Name;
use std::marker::Model;

/// The names of a path, from the first on. Contracts see a list.
#[derive(Debug, Drop)]
pub struct Names {
    names: Vec<Name>,
}

impl Model for Names {
    ghost use Rattle.std.specs.Prelude.{List, ℕ};

    ghost Value = { List (List ℕ) };

    ghost view = { λ list. list.names.items };
}

impl Names {
    /// From a vector, which takes no memory.
    pub fn of(names: Vec<Name>) -> Names
        ensures { result ≡ names.items }
    {
        Names { names }
    }

    /// All of them, in order.
    pub fn as_slice(&self) -> &[Name]
        ensures { result.now ≡ self.now }
    {
        self.names.as_slice()
    }
}

/// A path: references to follow, and a field at its end.
#[derive(Debug, Drop)]
pub struct Path {
    pub names: Names,
}

/// Paths, in the order of the text. Contracts see a list.
#[derive(Debug, Drop)]
pub struct Paths {
    paths: Vec<Path>,
}

impl Model for Paths {
    ghost use Rattle.std.specs.Prelude.{List};
    ghost use Rattle.smc_query.specs.declared.path.Path.{Path};

    ghost Value = { List Path };

    ghost view = { λ list. list.paths.items };
}

impl Paths {
    /// From a vector, which takes no memory.
    pub fn of(paths: Vec<Path>) -> Paths
        ensures { result ≡ paths.items }
    {
        Paths { paths }
    }

    /// All of them, in order.
    pub fn as_slice(&self) -> &[Path]
        ensures { result.now ≡ self.now }
    {
        self.paths.as_slice()
    }
}
