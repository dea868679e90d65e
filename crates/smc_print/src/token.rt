//! Single tokens behind what is there, each behind a space.
#![tactic(auto, unfolding(crate::specs::TokenText::token_text))]

ghost use Rattle.std.specs.Prelude.{◌≡◌, ◌∷◌, ◌++◌, [], OnOk};
ghost use Rattle.std.specs.String.{string_bytes};
ghost use Rattle.smc_tokens.specs.Tokens.{space};
ghost use Rattle.smc_tokens.specs.declared.token.Token.TheVariants as tokens;
ghost use Rattle.smc_print.specs.TokenText.{Writes};

use crate::number::{push_date, push_number};
use smc_tokens::{Name, Quoted, Reserved, Sign};
use smc_words::NoMemory;

/// Writes a reserved word.
pub fn write_word(text: &mut String, word: Reserved) -> Result<(), NoMemory>
    ensures { OnOk result (Writes text.old text.new (tokens.Word word ∷ [])) }
{
    push_spaced(text, word.text())
}

/// Writes a sign.
pub fn write_sign(text: &mut String, sign: Sign) -> Result<(), NoMemory>
    ensures { OnOk result (Writes text.old text.new (tokens.Sign sign ∷ [])) }
{
    push_spaced(text, sign.text())
}

/// Writes a name.
pub fn write_name(text: &mut String, name: &Name) -> Result<(), NoMemory>
    ensures { OnOk result (Writes text.old text.new (tokens.Name name.now ∷ [])) }
{
    push_spaced(text, name.as_str())
}

/// Writes a text between quotes.
pub fn write_quoted(text: &mut String, quoted: &Quoted) -> Result<(), NoMemory>
    ensures { OnOk result (Writes text.old text.new (tokens.Text quoted.now ∷ [])) }
{
    push_spaced(text, "'")?;
    text.push_str(quoted.as_str())?;
    text.push_str("'")?;
    Ok(())
}

/// Writes a number of so many units with its decimals.
pub fn write_number(text: &mut String, units: u64, decimals: u32) -> Result<(), NoMemory>
    ensures { OnOk result (Writes text.old text.new (tokens.Number units decimals ∷ [])) }
{
    text.push_str(" ")?;
    push_number(text, units, decimals)
}

/// Writes a date.
pub fn write_date(text: &mut String, year: u32, month: u32, day: u32) -> Result<(), NoMemory>
    ensures { OnOk result (Writes text.old text.new (tokens.Date year month day ∷ [])) }
{
    text.push_str(" ")?;
    push_date(text, year, month, day)
}

// Puts a space and a text behind what is there.
fn push_spaced(text: &mut String, part: &str) -> Result<(), NoMemory>
    ensures { OnOk result (string_bytes text.new ≡ string_bytes text.old ++ space ∷ part.now) }
{
    text.push_str(" ")?;
    text.push_str(part)?;
    Ok(())
}
