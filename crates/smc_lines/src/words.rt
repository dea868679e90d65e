ghost use Rattle.std.specs.Prelude.{◌≡◌, ◌==◌, [], ◌∷◌, length, MatchOption};
ghost use Rattle.std.specs.Option.{option_copied};
ghost use Rattle.smc_lines.specs.Words.{words, words_left};

use std::marker::Model;

/// The words of a line that were not taken yet. Contracts see their list.
#[derive(Drop)]
pub struct Words<'a> {
    rest: Option<&'a str>,
}

impl<'a> Model for Words<'a> {
    ghost use Rattle.std.specs.Prelude.{List, ℕ};
    ghost use Rattle.std.specs.Option.{option_copied};
    ghost use Rattle.smc_lines.specs.Words.{words_left};

    ghost Value = { List (List ℕ) };

    ghost view = { λ w. words_left (option_copied w.rest) };
}

/// The first word of a text, and what is behind the space after it.
pub fn split_word(text: &str) -> (&str, Option<&str>)
    ensures { words text.now ≡ result.0.now ∷ words_left (option_copied result.1) }
{
    match text.split_once(' ') {
        Some((word, later)) => (word, Some(later)),
        None => (text, None),
    }
}

impl<'a> Words<'a> {
    /// All the words of a text.
    pub fn of(text: &'a str) -> Self
        ensures { result ≡ words text.now }
    {
        Words { rest: Some(text) }
    }

    /// Takes the next word.
    pub fn next_word(&mut self) -> Option<&'a str>
        ensures { MatchOption result ((self.old ≡ []) × (self.new ≡ [])) (λ word. self.old ≡ word.now ∷ self.new) }
    {
        let (word, later) = split_word(self.rest?);
        self.rest = later;
        Some(word)
    }

    /// Whether all words were taken.
    pub fn is_empty(&self) -> bool
        ensures { result ≡ (length self.now == 0) }
    {
        self.rest.is_none()
    }
}

#[cfg(test)]
mod tests {
    use super::*;

    #[test]
    fn words_stand_between_single_spaces(rt: HostRuntime) {
        let cases: [(&str, &[&str]); 6] = [
            ("", &[""]),
            ("a", &["a"]),
            ("0 enter !", &["0", "enter", "!"]),
            ("a  b", &["a", "", "b"]),
            (" a ", &["", "a", ""]),
            ("a\tb", &["a\tb"]),
        ];
        for (text, list) in cases {
            let mut words = Words::of(text);
            for word in list {
                assert!(rt; !words.is_empty(), "at {text}");
                assert_eq!(rt; words.next_word().unwrap_or("?"), *word, "at {text}");
            }
            assert!(rt; words.is_empty(), "at {text}");
            assert!(rt; words.next_word().is_none(), "at {text}");
        }
    }
}
