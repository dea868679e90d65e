ghost use Rattle.std.specs.Prelude.{◌≡◌, IfOk};
ghost use Rattle.std.specs.String.{string_bytes};

use smc_words::NoMemory;
use std::alloc::Global;
use std::marker::Model;

/// A text between quotes. Contracts see its bytes.
#[derive(Debug, Drop)]
pub struct Quoted {
    text: String,
}

impl Model for Quoted {
    ghost use Rattle.std.specs.Prelude.{List, ℕ};
    ghost use Rattle.std.specs.String.{string_bytes};

    ghost Value = { List ℕ };

    ghost view = { λ quoted. string_bytes quoted.text };
}

impl Quoted {
    /// A quoted text from what stands between the quotes, which takes no memory.
    pub fn of(text: String) -> Quoted
        ensures { result ≡ string_bytes text }
    {
        Quoted { text }
    }

    /// What stands between the quotes.
    pub fn as_str(&self) -> &str
        ensures { result.now ≡ self.now }
    {
        self.text.as_str()
    }

    /// Another one with the same text.
    pub fn copied(&self, alloc: Global) -> Result<Quoted, NoMemory>
        ensures { IfOk result (λ text. text ≡ self.now) }
    {
        Ok(Quoted {
            text: String::from_str(alloc, self.text.as_str())?,
        })
    }
}
