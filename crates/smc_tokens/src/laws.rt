ghost use Rattle.smc_tokens.specs.TokenList.{FallsIntoSome};
ghost use Rattle.smc_tokens.specs.Tokens.{FallsIntoOne};

/// A text falls into one list of tokens, and up to one place.
pub fn one_list()
    ensures { FallsIntoOne }
{}

/// Each text falls into some tokens, whatever its bytes and however many.
///
/// So what `read_tokens` gives, where memory suffices, is the only thing that the text falls into.
pub fn some_list()
    ensures { FallsIntoSome }
{}
