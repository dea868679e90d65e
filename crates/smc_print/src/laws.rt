ghost use Rattle.smc_print.specs.Laws.{TokensSpellTheQuery, TokensOfTextsAreRead, TextFallsIntoItsTokens, PrintedIsRead};

/// The tokens with which a query is printed spell this query.
pub fn tokens_spell_the_query()
    ensures { TokensSpellTheQuery }
{}

/// The text of tokens falls into these tokens again.
pub fn text_falls_into_its_tokens()
    ensures { TextFallsIntoItsTokens }
{}

/// A token of any text is read where it is written, so a number or a name is written so that it is read again.
pub fn tokens_of_texts_are_read()
    ensures { TokensOfTextsAreRead }
{}

/// What is printed of a query that a text spells is a text of this query again.
pub fn printed_is_read()
    ensures { PrintedIsRead }
{}
