use crate::cursor::Cursor;
use std::marker::Model;

/// A text whose lines are within the limits. Contracts see the list of its lines.
#[derive(Drop)]
pub struct Lines {
    text: Vec<u8>,
}

impl Model for Lines {
    ghost use Rattle.std.specs.Prelude.{ℕ, List};

    ghost Value = { List (List ℕ) };

    ghost use Rattle.smc_lines.specs.Lines.{lines, IsWithin};

    ghost view = { λ l. lines l.text.items };

    ghost invariant = { λ l. IsWithin l.text.items };
}

impl Lines {
    ghost use Rattle.std.specs.Prelude.{◌≡◌};
    ghost use Rattle.smc_lines.specs.Lines.{lines, IsWithin};

    pub(crate) fn of(text: Vec<u8>) -> Self
        requires { IsWithin text.items }
        ensures { result ≡ lines text.items }
    {
        Lines { text }
    }

    /// The lines from the first on.
    pub fn cursor(&self) -> Cursor<'_>
        ensures { result ≡ record { number = 0; lines = self.now } }
    {
        Cursor::of(&self.text)
    }
}
