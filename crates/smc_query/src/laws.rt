ghost use Rattle.smc_query.specs.Laws.{SpellsOne, SpellsOrStops, SpelledNeverStops, FrontsBegin};
ghost use Rattle.smc_query.specs.Examples.{CountsRegions, PairsFromTheLeft, PairsInParentheses, BindsAndCloser, KeepsItsWords, CountsWholeRows, NestsTwice};

/// No list of tokens spells two things.
pub fn one_tree()
    ensures { SpellsOne }
{}

/// A list of tokens spells something, or there is a first token that is wrong or opens too much, or the end is wrong.
pub fn spelled_or_stopped()
    ensures { SpellsOrStops }
{}

/// What spells something has no such place.
pub fn spelled_never_stops()
    ensures { SpelledNeverStops }
{}

/// Where a list of tokens can still become a text, each front of it can.
pub fn fronts_begin()
    ensures { FrontsBegin }
{}

/// Short texts, and what they spell.
pub fn worked_texts()
    ensures counts_regions { CountsRegions }
    ensures pairs_from_the_left { PairsFromTheLeft }
    ensures pairs_in_parentheses { PairsInParentheses }
    ensures binds_and_closer { BindsAndCloser }
    ensures keeps_its_words { KeepsItsWords }
    ensures counts_whole_rows { CountsWholeRows }
    ensures nests_twice { NestsTwice }
{}
