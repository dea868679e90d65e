//! The token that a text begins with, by its first byte.
ghost use Rattle.std.specs.Prelude.{◌≡◌, ◌+◌, ◌<◌, true, false, length, slice_index, IfOk, IfSome, IfNone};
ghost use Rattle.std.specs.Char.{is_ascii_lowercase};
ghost use Rattle.smc_tokens.specs.Front.{BeginsWith, Finds, IsLongest, NoFront, begins_other, pair_at, spelled_word};
ghost use Rattle.smc_tokens.specs.Tokens.{quote, named, ends_quoted};

use crate::bytes::{QUOTE, name_run, text_run};
use crate::date::read_date;
use crate::found::Found;
use crate::limits::MAX_NAME;
use crate::number::read_number;
use crate::{Name, Quoted, Reserved, Sign, Token};
use smc_words::NoMemory;
use std::alloc::Global;

/// The token that the text begins with, if there is one: the longest. Memory is taken for a name and for a text.
pub fn read_token(alloc: Global, text: &str) -> Result<Option<Found>, NoMemory>
    requires { 0 < length text.now }
    ensures { IfOk result (BeginsWith text.now) }
{
    let bytes = text.as_bytes();
    let first = bytes[0];
    if first.is_ascii_lowercase() {
        return Ok(Some(read_name(alloc, text)?));
    }
    if first.is_ascii_digit() {
        return Ok(Some(match read_date(bytes) {
            Some(date) => date,
            None => read_number(bytes),
        }));
    }
    if first == QUOTE {
        return read_quoted(alloc, text);
    }
    Ok(read_sign(bytes))
}

// The name or the reserved word at the front of a text that begins with a letter.
fn read_name(alloc: Global, text: &str) -> Result<Found, NoMemory>
    requires { is_ascii_lowercase (slice_index text.now 0) ≡ true }
    ensures { IfOk result (Finds text.now) }
{
    let len = name_run(text.as_bytes()).min(MAX_NAME);
    let (name, _) = text.split_at(len);
    let token = named(alloc, name)?;
    Ok(Found { token, len })
}

// The token of the bytes of a name: a reserved word, or else a name.
fn named(alloc: Global, name: &str) -> Result<Token, NoMemory>
    ensures { IfOk result (λ token. token ≡ named name.now (spelled_word name.now)) }
{
    match Reserved::of(name) {
        Some(word) => Ok(Token::Word(word)),
        None => Ok(Token::Name(Name::of(String::from_str(alloc, name)?))),
    }
}

// The text between quotes at the front of a text that begins with a quote.
fn read_quoted(alloc: Global, text: &str) -> Result<Option<Found>, NoMemory>
    requires { slice_index text.now 0 ≡ quote }
    ensures { IfOk result (BeginsWith text.now) }
{
    let (_, inside) = text.split_at(1);
    let Some(len) = quoted_len(inside.as_bytes()) else {
        return Ok(None);
    };
    let (quoted, _) = inside.split_at(len);
    let token = Token::Text(Quoted::of(String::from_str(alloc, quoted)?));
    Ok(Some(Found {
        token,
        len: len + 2,
    }))
}

// How many bytes stand before the quote that ends a text.
fn quoted_len(inside: &[u8]) -> Option<usize>
    ensures within { IfSome result (λ len. len < length inside.now) }
    ensures ended { IfSome result (λ len. slice_index inside.now len ≡ quote) }
    ensures longest { IfSome result (λ len. IsLongest ends_quoted inside.now (len + 1)) }
    ensures none { IfNone result (NoFront ends_quoted inside.now) }
{
    let len = text_run(inside);
    if len < inside.len() && inside[len] == QUOTE {
        Some(len)
    } else {
        None
    }
}

// The sign at the front of a text that begins with no letter, digit or quote.
fn read_sign(text: &[u8]) -> Option<Found>
    requires some { 0 < length text.now }
    requires other { begins_other (slice_index text.now 0) ≡ false }
    ensures { BeginsWith text.now result }
{
    if let Some(sign) = pair_at(text) {
        return Some(Found {
            token: Token::Sign(sign),
            len: 2,
        });
    }
    match Sign::of_byte(text[0]) {
        Some(sign) => Some(Found {
            token: Token::Sign(sign),
            len: 1,
        }),
        None => None,
    }
}

// The sign that the first two bytes are.
fn pair_at(text: &[u8]) -> Option<Sign>
    ensures { result ≡ pair_at text.now }
{
    match text {
        [first, second, ..] => Sign::of_pair(*first, *second),
        _ => None,
    }
}
