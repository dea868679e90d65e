ghost use Rattle.std.specs.Prelude.{◌≡◌, ◌+◌, ◌<◌, ◌≤◌, length, [], MatchOption, MatchResult, true};
ghost use Rattle.smc_tokens.specs.declared.token.Token.TheVariants.{Name as OfName, Number as OfNumber, Sign as OfSign, Word as OfWord};
ghost use Rattle.smc_query.specs.Machine.{sees, must, name, whole};
ghost use Rattle.smc_parse.specs.Reading.{ahead, names_none, wholes_none, Stands, Passes, Reads, ReadsInPlace};

use crate::Fault;
use smc_tokens::{Name, Placed, Reserved, Sign, Token};
use std::alloc::Global;

/// The token at a place, or none at the end.
pub fn token_at(tokens: &[Placed], at: usize) -> Option<&Token>
    ensures { MatchOption result (ahead tokens.now at ≡ []) (λ token. Stands tokens.now at token.now) }
{
    if at < tokens.len() {
        Some(&tokens[at].token)
    } else {
        None
    }
}

/// Whether this sign stands at a place.
pub fn is_sign(tokens: &[Placed], at: usize, sign: Sign) -> bool
    ensures { result ≡ sees (OfSign sign) (ahead tokens.now at) }
{
    match token_at(tokens, at) {
        Some(Token::Sign(found)) => sign.code() == found.code(),
        _ => false,
    }
}

/// Whether this word stands at a place.
pub fn is_word(tokens: &[Placed], at: usize, word: Reserved) -> bool
    ensures { result ≡ sees (OfWord word) (ahead tokens.now at) }
{
    match token_at(tokens, at) {
        Some(Token::Word(found)) => word.code() == found.code(),
        _ => false,
    }
}

/// The place behind a sign that must stand at a place.
pub fn must_sign(tokens: &[Placed], at: usize, sign: Sign) -> Result<usize, Fault>
    requires { at ≤ length tokens.now }
    ensures { Passes (must (OfSign sign)) tokens.now at result }
{
    if is_sign(tokens, at, sign) {
        Ok(at + 1)
    } else {
        Err(Fault::Wrong { index: at })
    }
}

/// The place behind a word that must stand at a place.
pub fn must_word(tokens: &[Placed], at: usize, word: Reserved) -> Result<usize, Fault>
    requires { at ≤ length tokens.now }
    ensures { Passes (must (OfWord word)) tokens.now at result }
{
    if is_word(tokens, at, word) {
        Ok(at + 1)
    } else {
        Err(Fault::Wrong { index: at })
    }
}

/// The name at a place, if one stands there.
pub fn name_at(tokens: &[Placed], at: usize) -> Option<&Name>
    ensures { MatchOption result (names_none (ahead tokens.now at) ≡ true)
        (λ text. Stands tokens.now at (OfName text.now)) }
{
    match token_at(tokens, at) {
        Some(Token::Name(text)) => Some(text),
        _ => None,
    }
}

/// A name that must stand at a place, and the place behind it.
pub fn must_name(tokens: &[Placed], at: usize, alloc: Global) -> Result<(Name, usize), Fault>
    requires { at ≤ length tokens.now }
    ensures { Reads name (λ text. text) tokens.now at result }
{
    match name_at(tokens, at) {
        Some(text) => Ok((text.copied(alloc)?, at + 1)),
        None => Err(Fault::Wrong { index: at }),
    }
}

// The number without decimals at a place, if one stands there.
fn whole_at(tokens: &[Placed], at: usize) -> Option<u64>
    ensures { MatchOption result (wholes_none (ahead tokens.now at) ≡ true)
        (λ count. Stands tokens.now at (OfNumber count 0)) }
{
    let Some(token) = token_at(tokens, at) else {
        return None;
    };
    match token {
        Token::Number { units, decimals: 0 } => Some(*units),
        _ => None,
    }
}

/// A number without decimals that must stand at a place, and the place behind it.
pub fn must_whole(tokens: &[Placed], at: usize) -> Result<(u64, usize), Fault>
    requires { at ≤ length tokens.now }
    ensures { ReadsInPlace whole (λ count. count) tokens.now at result }
{
    match whole_at(tokens, at) {
        Some(count) => Ok((count, at + 1)),
        None => Err(Fault::Wrong { index: at }),
    }
}
