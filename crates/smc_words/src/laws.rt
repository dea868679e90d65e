ghost use Rattle.std.specs.Prelude.{◌≡◌, ◌≢◌, IsTrue};
ghost use Rattle.smc_words.specs.declared.dir.Dir.{Dir};
ghost use Rattle.smc_words.specs.declared.entry.Entry.{Entry};
ghost use Rattle.smc_words.specs.declared.number.Number.{Number};
ghost use Rattle.smc_words.specs.declared.round.RoundWord.{RoundWord};
ghost use Rattle.smc_words.specs.Dir.{packed_dir, FitsDir};
ghost use Rattle.smc_words.specs.Entry.{packed_entry, FitsEntry};
ghost use Rattle.smc_words.specs.Number.{packed_number, FitsNumber};
ghost use Rattle.smc_words.specs.RoundWord.{packed_round, FitsRound};

use crate::layout::BLANK;
use crate::number::Number;
use crate::round::RoundWord;

/// No two values of a kind have one word.
pub fn one_word_each()
    ensures entry { (a b : Entry) → FitsEntry a → FitsEntry b
        → packed_entry a ≡ packed_entry b → a ≡ b }
    ensures dir { (a b : Dir) → FitsDir a → FitsDir b → packed_dir a ≡ packed_dir b → a ≡ b }
    ensures number { (a b : Number) → FitsNumber a → FitsNumber b
        → packed_number a ≡ packed_number b → a ≡ b }
    ensures round { (a b : RoundWord) → FitsRound a → FitsRound b
        → packed_round a ≡ packed_round b → a ≡ b }
{}

/// No object has the null reference for its number, and no round has the word of no round.
pub fn never_zero()
    ensures number { (number : Number) → FitsNumber number → packed_number number ≢ Number.NULL }
    ensures round { (round : RoundWord) → FitsRound round → packed_round round ≢ RoundWord.NONE }
{}

/// No packed word is `BLANK`, but that of an entry with all four marks.
pub fn never_blank()
    ensures entry { (entry : Entry) → FitsEntry entry → packed_entry entry ≡ BLANK
        → IsTrue entry.frozen × IsTrue entry.locked × IsTrue entry.gone × IsTrue entry.free }
    ensures dir { (dir : Dir) → FitsDir dir → packed_dir dir ≢ BLANK }
    ensures number { (number : Number) → FitsNumber number → packed_number number ≢ BLANK }
    ensures round { (round : RoundWord) → FitsRound round → packed_round round ≢ BLANK }
{}
