ghost use Rattle.std.specs.Prelude.{◌≡◌, ◌↔◌, ◌⊎◌, ◌<◌, length, Err, IfOk, IfErr};
ghost use Rattle.smc_tokens.specs.TokenList.{AreTokensOf};
ghost use Rattle.smc_query.specs.Trees.{a_cond, a_query, an_edit, cond_text, cond_tree, edit_text, expr_tree, filter_tree, query_text, query_tree};
ghost use Rattle.smc_lang.specs.Texts.{IsFaultOf, ReadsText};
ghost use Rattle.smc_lang.specs.declared.limits.TheConstants.{MAX_TEXT};
ghost use Rattle.smc_lang.specs.declared.fault.ParseFault.TheVariants.{TooLong, NoMemory};

use crate::ParseFault;
use crate::limits::MAX_TEXT;
use crate::place::settled;
use smc_parse::{read_cond, read_edit, read_query};
use smc_query::{Cond, Expr, Query};
use smc_tokens::{Tokens, read_tokens};
use std::alloc::Global;

// The tokens of a text, where it is not too long.
fn tokens_within(alloc: Global, text: &str) -> Result<Tokens, ParseFault>
    ensures done { IfOk result (AreTokensOf text.now) }
    ensures fault { IfErr result (λ fault. fault ≡ TooLong ⊎ fault ≡ NoMemory) }
    ensures limit { (result ≡ Err TooLong) ↔ (MAX_TEXT < length text.now) }
{
    if text.len() > MAX_TEXT {
        return Err(ParseFault::TooLong);
    }
    Ok(read_tokens(alloc, text)?)
}

/// Parses a query. Memory is taken for the tokens, and for the parts of the query.
///
/// A fault stands at the first byte of what can't stand there, or opens too much there; TooLong comes before all others.
pub fn parse(alloc: Global, text: &str) -> Result<Query, ParseFault>
    ensures done { IfOk result (λ query. ReadsText query_text text.now (a_query (query_tree query))) }
    ensures fault { IfErr result (IsFaultOf query_text text.now) }
    ensures limit { (result ≡ Err TooLong) ↔ (MAX_TEXT < length text.now) }
{
    let list = tokens_within(alloc, text)?;
    settled(&list, read_query(list.placed(), alloc))
}

/// Parses a condition, as `parse` does a query.
pub fn parse_cond(alloc: Global, text: &str) -> Result<Cond, ParseFault>
    ensures done { IfOk result (λ cond. ReadsText cond_text text.now (a_cond (cond_tree cond))) }
    ensures fault { IfErr result (IsFaultOf cond_text text.now) }
    ensures limit { (result ≡ Err TooLong) ↔ (MAX_TEXT < length text.now) }
{
    let list = tokens_within(alloc, text)?;
    settled(&list, read_cond(list.placed(), alloc))
}

/// Parses an edit, as `parse` does a query: an expression, and a condition where `where` stands behind it.
pub fn parse_edit(alloc: Global, text: &str) -> Result<(Expr, Option<Cond>), ParseFault>
    ensures done { IfOk result (λ edit. ReadsText edit_text text.now (an_edit (expr_tree edit.0) (filter_tree edit.1))) }
    ensures fault { IfErr result (IsFaultOf edit_text text.now) }
    ensures limit { (result ≡ Err TooLong) ↔ (MAX_TEXT < length text.now) }
{
    let list = tokens_within(alloc, text)?;
    settled(&list, read_edit(list.placed(), alloc))
}
