//! What holds of days and of texts, as theorems over the definitions: functions with no body, whose clauses are the laws.
ghost use Rattle.std.specs.Prelude.{◌≡◌, List, ℕ, ℤ};
ghost use Rattle.smc_types.specs.Days.{SpellsDay, IsDay};

/// A text says one day alone.
pub fn a_text_says_one_day()
    ensures { (text : List ℕ) (a b : ℤ) → SpellsDay text a → SpellsDay text b → a ≡ b }
{}

/// A day is said by one text alone.
pub fn a_day_has_one_text()
    ensures { (a b : List ℕ) (day : ℤ) → SpellsDay a day → SpellsDay b day → a ≡ b }
{}

/// A day that a text says is one of the years 0000 to 9999.
pub fn a_text_says_a_day_in_range()
    ensures { (text : List ℕ) (day : ℤ) → SpellsDay text day → IsDay day }
{}
