ghost use Rattle.std.specs.Prelude.{◌≡◌, IfOk};
ghost use Rattle.std.specs.List.{list_all};
ghost use Rattle.smc_schedule.specs.Names as spec;

use smc_words::NoMemory;
use std::alloc::Global;
use std::marker::Model;

/// How many bytes a name has at most.
pub const MAX_NAME: usize = 16;

/// The name of an object in a schedule. Contracts see its bytes.
#[derive(Debug, Drop)]
pub struct Name {
    text: String,
}

impl Model for Name {
    ghost use Rattle.std.specs.Prelude.{List, ℕ, string_bytes};

    ghost Value = { List ℕ };

    ghost view = { λ n. string_bytes n.text };
}

impl Name {
    pub fn of(alloc: Global, text: &str) -> Result<Self, NoMemory>
        ensures { IfOk result (λ name. name ≡ text.now) }
    {
        Ok(Name {
            text: String::from_str(alloc, text)?,
        })
    }

    pub fn as_str(&self) -> &str
        ensures { result.now ≡ self.now }
    {
        self.text.as_str()
    }
}

fn is_name_byte(byte: u8) -> bool
    ensures { result ≡ spec.is_name_byte byte }
{
    byte.is_ascii_lowercase() || byte.is_ascii_digit() || byte == b'_'
}

fn are_name_bytes(bytes: &[u8]) -> bool
    ensures { result ≡ list_all spec.is_name_byte bytes.now }
{
    bytes.iter().all(|byte| is_name_byte(*byte))
}

/// Whether a word may be a name.
pub fn is_name(word: &str) -> bool
    ensures { result ≡ spec.is_name word.now }
{
    match word.as_bytes() {
        [first, others @ ..] => {
            first.is_ascii_lowercase() & (others.len() < MAX_NAME) & are_name_bytes(others)
        }
        [] => false,
    }
}
