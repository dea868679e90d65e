ghost use Rattle.std.specs.Prelude.{◌≡◌, ◌==◌, ◌<◌, IfOk, length, slice_get, slice_set};

use smc_words::NoMemory;
use std::alloc::Global;
use std::marker;

/// The words of a record, one for each field, in order.
#[derive(Debug, Drop)]
pub struct Record {
    words: Vec<u64>,
}

impl marker::Model for Record {
    ghost use Rattle.std.specs.Prelude.{List, ℕ};

    ghost Value = { List ℕ };

    ghost view = { λ r. r.words.items };
}

impl Record {
    pub fn of(alloc: Global, words: &[u64]) -> Result<Self, NoMemory>
        ensures done { IfOk result (λ r. r ≡ words.now) }
    {
        Ok(Record {
            words: Vec::from_slice(alloc, words)?,
        })
    }

    pub fn words(&self) -> &[u64]
        ensures { result.now ≡ self.now }
    {
        &self.words
    }

    /// How many fields there are.
    pub fn len(&self) -> usize
        ensures { result ≡ length self.now }
    {
        self.words.len()
    }

    pub fn is_empty(&self) -> bool
        ensures { result ≡ (length self.now == 0) }
    {
        self.words.is_empty()
    }

    pub(crate) fn word(&self, field: u32) -> Option<u64>
        ensures { result ≡ slice_get self.now field }
    {
        self.words.get(field as usize).copied()
    }

    pub(crate) fn set(&mut self, field: usize, word: u64)
        requires { field < length self.old }
        ensures { self.new ≡ slice_set self.old field word }
    {
        self.words[field] = word;
    }
}
