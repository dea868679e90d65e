//! The names that stand in a script.
ghost use Rattle.std.specs.Prelude.{◌≡◌, IfOk};
ghost use Rattle.std.specs.List.{list_all};
ghost use Rattle.std.specs.String.{string_bytes};
ghost use Rattle.smc_script.specs.Names as spec;

use crate::limits::{MAX_NAME, UNDERSCORE};
use smc_words::NoMemory;
use std::alloc::Global;
use std::marker::Model;

fn is_name_byte(byte: u8) -> bool
    ensures { result ≡ spec.is_name_byte byte }
{
    byte.is_ascii_lowercase() || byte.is_ascii_digit() || byte == UNDERSCORE
}

fn are_name_bytes(bytes: &[u8]) -> bool
    ensures { result ≡ list_all spec.is_name_byte bytes.now }
{
    bytes.iter().all(|byte| is_name_byte(*byte))
}

/// Whether a word may be the name of an object.
pub fn is_script_name(word: &str) -> bool
    ensures { result ≡ spec.is_script_name word.now }
{
    match word.as_bytes() {
        [first, others @ ..] => {
            first.is_ascii_lowercase() & (others.len() < MAX_NAME) & are_name_bytes(others)
        }
        [] => false,
    }
}

/// The name of an object in a script. Contracts see its bytes.
#[derive(Debug, Drop)]
pub struct ScriptName {
    text: String,
}

impl Model for ScriptName {
    ghost use Rattle.std.specs.Prelude.{List, ℕ};
    ghost use Rattle.std.specs.String.{string_bytes};

    ghost Value = { List ℕ };

    ghost view = { λ name. string_bytes name.text };
}

impl ScriptName {
    /// A name from its text, which is copied.
    pub fn of(alloc: Global, text: &str) -> Result<ScriptName, NoMemory>
        ensures { IfOk result (λ name. name ≡ text.now) }
    {
        Ok(ScriptName {
            text: String::from_str(alloc, text)?,
        })
    }

    /// Its text.
    pub fn as_str(&self) -> &str
        ensures { result.now ≡ self.now }
    {
        self.text.as_str()
    }
}

/// The name of a file on the shelf. Contracts see its bytes.
#[derive(Debug, Drop)]
pub struct FileName {
    text: String,
}

impl Model for FileName {
    ghost use Rattle.std.specs.Prelude.{List, ℕ};
    ghost use Rattle.std.specs.String.{string_bytes};

    ghost Value = { List ℕ };

    ghost view = { λ name. string_bytes name.text };
}

impl FileName {
    /// A name from its text, which is copied.
    pub fn of(alloc: Global, text: &str) -> Result<FileName, NoMemory>
        ensures { IfOk result (λ name. name ≡ text.now) }
    {
        Ok(FileName {
            text: String::from_str(alloc, text)?,
        })
    }

    /// Its text.
    pub fn as_str(&self) -> &str
        ensures { result.now ≡ self.now }
    {
        self.text.as_str()
    }
}

/// The name of a fold. Contracts see its bytes.
#[derive(Debug, Drop)]
pub struct FoldName {
    text: String,
}

impl Model for FoldName {
    ghost use Rattle.std.specs.Prelude.{List, ℕ};
    ghost use Rattle.std.specs.String.{string_bytes};

    ghost Value = { List ℕ };

    ghost view = { λ name. string_bytes name.text };
}

impl FoldName {
    /// A name from its text, which is copied.
    pub fn of(alloc: Global, text: &str) -> Result<FoldName, NoMemory>
        ensures { IfOk result (λ name. name ≡ text.now) }
    {
        Ok(FoldName {
            text: String::from_str(alloc, text)?,
        })
    }

    /// Its text.
    pub fn as_str(&self) -> &str
        ensures { result.now ≡ self.now }
    {
        self.text.as_str()
    }
}

/// The names of folds, in the order in which they were handed in. Contracts see a list.
#[derive(Debug, Drop)]
pub struct FoldNames {
    names: Vec<FoldName>,
}

impl Model for FoldNames {
    ghost use Rattle.std.specs.Prelude.{List, ℕ};

    ghost Value = { List (List ℕ) };

    ghost view = { λ list. list.names.items };
}

impl FoldNames {
    /// From a vector, which takes no memory.
    pub fn of(names: Vec<FoldName>) -> FoldNames
        ensures { result ≡ names.items }
    {
        FoldNames { names }
    }

    /// All of them, in order.
    pub fn as_slice(&self) -> &[FoldName]
        ensures { result.now ≡ self.now }
    {
        self.names.as_slice()
    }
}
