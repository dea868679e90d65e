//! What is kept of the objects that a worker adds, until its group has ended.

use smc_script::ScriptName;
use smc_words::Number;

/// An object that a worker added, or was refused.
#[derive(Drop)]
pub struct Added {
    /// The name that it was given.
    pub name: ScriptName,
    /// The number of its table.
    pub table: u32,
    /// Its key, where the objects of the table are found by one.
    pub key: Option<u64>,
    /// Its number; none where it was refused.
    pub number: Option<Number>,
}
