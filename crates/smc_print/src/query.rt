//! A whole query as text.
#![tactic(auto, using(crate::proofs::WriteLaws::writing), unfolding(crate::specs::TokenText::token_text))]

ghost use Rattle.std.specs.Prelude.{◌≡◌, IfOk};
ghost use Rattle.std.specs.String.{string_bytes};
ghost use Rattle.smc_query.specs.Trees.{query_tree};
ghost use Rattle.smc_print.specs.TokenText.{tokens_text};
ghost use Rattle.smc_print.specs.Printed.{query_tokens};

use crate::lists::{write_by, write_filter, write_first, write_show, write_sort};
use crate::token::write_name;
use smc_query::Query;
use smc_tokens::Reserved;
use smc_words::NoMemory;
use std::alloc::Global;

/// The text of a query: its tokens with one space between them. Parentheses and brackets stand round each operand that is
/// itself a sum, difference, product or minus, or an `or`, `and` or `not`. Memory is taken for the text.
pub fn print(alloc: Global, query: &Query) -> Result<String, NoMemory>
    ensures { IfOk result (λ text. string_bytes text ≡ tokens_text (query_tokens (query_tree query.now))) }
{
    let mut text = String::from_str(alloc, Reserved::From.text())?;
    write_name(&mut text, &query.table)?;
    write_filter(&mut text, &query.filter)?;
    write_by(&mut text, &query.by)?;
    write_show(&mut text, &query.items)?;
    write_sort(&mut text, &query.sort)?;
    write_first(&mut text, query.first)?;
    Ok(text)
}
