//! The words at the front of a text, and the text behind them.
ghost use Rattle.std.specs.Prelude.{◌≡◌, ◌≢◌, ◌∷◌, [], ℕ, List, IfSome, IfNone};
ghost use Rattle.smc_lines.specs.Words.{words};
ghost use Rattle.smc_query.specs.Trees.{Word};

use smc_lines::{Words, split_word};

/// Two words, and the text behind them.
#[derive(Clone, Copy)]
pub struct Cut<'a> {
    pub first: &'a str,
    pub second: &'a str,
    pub text: &'a str,
}

/// The first two words of a text, and what stands behind them.
pub fn cut_two(text: &str) -> Option<Cut<'_>>
    ensures some { IfSome result (λ cut. words text.now ≡ cut.first.now ∷ cut.second.now ∷ words cut.text.now) }
    ensures none { IfNone result ((first second behind : List ℕ) → words text.now ≢ first ∷ second ∷ words behind) }
{
    let (first, behind) = split_word(text);
    let Some(text) = behind else {
        return None;
    };
    let (second, behind) = split_word(text);
    let Some(text) = behind else {
        return None;
    };
    Some(Cut {
        first,
        second,
        text,
    })
}

/// The words of a text that is three words.
pub fn cut_three(text: &str) -> Option<Cut<'_>>
    ensures some { IfSome result (λ cut. words text.now ≡ cut.first.now ∷ cut.second.now ∷ cut.text.now ∷ []) }
    ensures none { IfNone result ((first second third : Word) → words text.now ≢ first ∷ second ∷ third ∷ []) }
{
    let mut words = Words::of(text);
    let (Some(first), Some(second), Some(text), None) = (
        words.next_word(),
        words.next_word(),
        words.next_word(),
        words.next_word(),
    ) else {
        return None;
    };
    Some(Cut {
        first,
        second,
        text,
    })
}
