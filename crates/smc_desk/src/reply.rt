//! The reply to a command.
ghost use Rattle.std.specs.Prelude.{◌≡◌, IfOk, codes, length, string_bytes};
ghost use Rattle.smc_types.specs.Columns.{columns_width};
ghost use Rattle.smc_replies.specs.Folds.{dropped_line};
ghost use Rattle.smc_replies.specs.Loads.{loaded_line};
ghost use Rattle.smc_replies.specs.Objects.{PrintsObject, add_line, found_line, null_line};
ghost use Rattle.smc_replies.specs.Commands.{objects_line, packed_line, packed_reply};
ghost use Rattle.smc_replies.specs.Edits.{deleted_line, updated_line};

use smc_compact::{Census, Outcome, Packed};
use smc_exec::Updated;
use smc_tbl::print_row;
use smc_types::{Schema, decode};
use smc_words::{NoMemory, Number};
use std::alloc::Global;
use std::marker::Model;

/// The reply to a command, with its line ends. Contracts see its bytes.
#[derive(Debug, Drop)]
pub struct Reply {
    text: Vec<u8>,
}

impl Model for Reply {
    ghost use Rattle.std.specs.Prelude.{List, ℕ};

    ghost Value = { List ℕ };

    ghost view = { λ reply. reply.text.items };
}

impl Reply {
    /// From a text, which takes no memory.
    fn of(text: String) -> Reply
        ensures { result ≡ string_bytes text }
    {
        Reply {
            text: text.into_bytes(),
        }
    }

    /// From bytes, which takes no memory.
    pub(crate) fn from_bytes(text: Vec<u8>) -> Reply
        ensures { result ≡ text.items }
    {
        Reply { text }
    }

    /// The bytes of the reply.
    pub fn text(&self) -> &[u8]
        ensures { result.now ≡ self.now }
    {
        self.text.as_slice()
    }
}

/// The line that says how many objects there are.
pub(crate) fn objects_line(alloc: Global, count: u64) -> Result<Reply, NoMemory>
    ensures { IfOk result (λ reply. reply ≡ objects_line count) }
{
    Ok(Reply::of(format!(in alloc; "objects {count}\n")?))
}

// The line that says how many objects a table of this name has, and how many blocks hold them.
fn packed_line(alloc: Global, table: &str, census: Census) -> Result<String, NoMemory>
    ensures { IfOk result (λ text. string_bytes text ≡ packed_line table.now census) }
{
    let Census { objects, blocks } = census;
    Ok(format!(in alloc; "packed {table} objects {objects} blocks {blocks}\n")?)
}

/// The reply to packing the table of this name.
pub(crate) fn packed_reply(alloc: Global, table: &str, packed: Packed) -> Result<Reply, NoMemory>
    ensures { IfOk result (λ reply. reply ≡ packed_reply table.now packed) }
{
    let text = match packed.outcome {
        Outcome::Done { .. } | Outcome::Nothing => packed_line(alloc, table, packed.census)?,
        Outcome::Busy { .. } => String::from_str(alloc, "busy\n")?,
        Outcome::Later { .. } => String::from_str(alloc, "later\n")?,
        Outcome::Spent => String::from_str(alloc, "spent\n")?,
    };
    Ok(Reply::of(text))
}

/// The reply to the loading of so many rows of the table of this name.
pub(crate) fn loaded_reply(alloc: Global, table: &str, count: u64) -> Result<Reply, NoMemory>
    ensures { IfOk result (λ reply. reply ≡ loaded_line table.now count) }
{
    Ok(Reply::of(format!(in alloc; "loaded {table} {count}\n")?))
}

/// The line that says which fold was dropped.
pub fn dropped_line(alloc: Global, name: &str) -> Result<Reply, NoMemory>
    ensures { IfOk result (λ reply. reply ≡ dropped_line name.now) }
{
    Ok(Reply::of(format!(in alloc; "dropped {name}\n")?))
}

/// The reply to a delete: how many objects it removed first.
pub(crate) fn deleted_line(alloc: Global, removed: u64) -> Result<Reply, NoMemory>
    ensures { IfOk result (λ reply. reply ≡ deleted_line removed) }
{
    Ok(Reply::of(format!(in alloc; "deleted {removed}\n")?))
}

/// The reply to an update: how many objects it wrote, and how many it passed over.
pub(crate) fn updated_line(alloc: Global, updated: Updated) -> Result<Reply, NoMemory>
    ensures { IfOk result (λ reply. reply ≡ updated_line updated) }
{
    let Updated { written, skipped } = updated;
    Ok(Reply::of(format!(in alloc; "updated {written} skipped {skipped}\n")?))
}

/// The reply where a name has no object, or where its object is not found.
pub(crate) fn null_reply(alloc: Global) -> Result<Reply, NoMemory>
    ensures { IfOk result (λ reply. reply ≡ null_line) }
{
    Ok(Reply::of(String::from_str(alloc, "null\n")?))
}

/// This line, where the object was found.
pub(crate) fn found_reply(alloc: Global, found: bool, line: &str) -> Result<Reply, NoMemory>
    ensures { IfOk result (λ reply. reply ≡ found_line found line.now) }
{
    if found {
        Ok(Reply::of(String::from_str(alloc, line)?))
    } else {
        null_reply(alloc)
    }
}

/// The reply to an add, behind which this object stands under the name, or none.
pub(crate) fn add_reply(
    alloc: Global,
    object: Option<Number>,
    name: &str,
) -> Result<Reply, NoMemory>
    ensures { IfOk result (λ reply. reply ≡ add_line object name.now) }
{
    let text = match object {
        Some(_) => format!(in alloc; "added {name}\n")?,
        None => String::from_str(alloc, "full\n")?,
    };
    Ok(Reply::of(text))
}

/// The row that stands in the words of an object, where it was found.
pub(crate) fn object_reply(
    alloc: Global,
    schema: &Schema,
    found: bool,
    words: &[u64],
) -> Result<Reply, NoMemory>
    requires { length words.now ≡ columns_width schema.now.columns }
    ensures { IfOk result (λ reply. PrintsObject schema.now.columns found words.now reply) }
{
    if !found {
        return null_reply(alloc);
    }
    let row = decode(alloc, words, schema)?;
    let mut text = print_row(alloc, &row, schema)?;
    text.push(b'\n')?;
    Ok(Reply::from_bytes(text))
}
