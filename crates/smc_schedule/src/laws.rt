//! What the definitions of a line say: each is a public function whose clause is the law.

ghost use Rattle.std.specs.Prelude.{◌≡◌, ℕ, List, Some};
ghost use Rattle.smc_schedule.specs.Grammar.{SpellsLine};
ghost use Rattle.smc_schedule.specs.Lines.{line_of};
ghost use Rattle.smc_schedule.specs.declared.line.ScheduleLine.{ScheduleLine};

/// What a line spells is what is read from it.
pub fn spelled_is_read()
    ensures { (width : ℕ) (text : List ℕ) (line : ScheduleLine) → SpellsLine width text line → line_of width text ≡ Some line }
{}

/// What is read from a line is what it spells.
pub fn read_is_spelled()
    ensures { (width : ℕ) (text : List ℕ) (line : ScheduleLine) → line_of width text ≡ Some line → SpellsLine width text line }
{}

/// A line spells at most one thing.
pub fn spells_one()
    ensures { (width : ℕ) (text : List ℕ) (one other : ScheduleLine) → SpellsLine width text one → SpellsLine width text other → one ≡ other }
{}
