//! A whole text as its tokens.
ghost use Rattle.std.specs.Prelude.{◌≡◌, ◌<◌, ◌^◌, length, IfOk};
ghost use Rattle.smc_tokens.specs.TokenList.{AreTokensOf, behind_spaces};

use crate::Placed;
use crate::bytes::space_run;
use crate::read::read_token;
use smc_words::NoMemory;
use std::alloc::Global;
use std::marker::Model;

/// The tokens of a text in their order, up to the place where the text ends or where no token begins.
#[derive(Debug, Drop)]
pub struct Tokens {
    placed: Vec<Placed>,
    end: u32,
    whole: bool,
}

impl Model for Tokens {
    ghost use Rattle.smc_tokens.specs.TokenList.{TokenList};

    ghost Value = { TokenList };

    ghost view = { λ list. record { tokens = list.placed.items; end = list.end; whole = list.whole } };
}

impl Tokens {
    /// The tokens, each with the byte where it begins.
    pub fn placed(&self) -> &[Placed]
        ensures { result.now ≡ self.now.tokens }
    {
        self.placed.as_slice()
    }

    /// The byte where they stop: the length of the text, or the first byte of what begins no token.
    pub fn end(&self) -> u32
        ensures { result ≡ self.now.end }
    {
        self.end
    }

    /// Whether the text ends where they stop.
    pub fn is_whole(&self) -> bool
        ensures { result ≡ self.now.whole }
    {
        self.whole
    }
}

/// The tokens of a text. Memory is taken for the list, and for each name and text in it.
pub fn read_tokens(alloc: Global, text: &str) -> Result<Tokens, NoMemory>
    requires { length text.now < 2 ^ 32 }
    ensures { IfOk result (AreTokensOf text.now) }
{
    let mut placed = Vec::new(alloc);
    let mut rest = skip_spaces(text);
    while !rest.is_empty() {
        let at = (text.len() - rest.len()) as u32;
        let Some(found) = read_token(alloc, rest)? else {
            return Ok(Tokens {
                placed,
                end: at,
                whole: false,
            });
        };
        let (_, behind) = rest.split_at(found.len);
        placed.push(Placed {
            token: found.token,
            at,
        })?;
        rest = skip_spaces(behind);
    }
    Ok(Tokens {
        placed,
        end: text.len() as u32,
        whole: true,
    })
}

// What stands behind the spaces that the text begins with.
fn skip_spaces(text: &str) -> &str
    ensures { result.now ≡ behind_spaces text.now }
{
    let (_, rest) = text.split_at(space_run(text.as_bytes()));
    rest
}
