ghost use Rattle.std.specs.Prelude.{◌≡◌, IfOk};
ghost use Rattle.smc_schedule.specs.Verbs.{verb_of, word_of};

/// The calls that a schedule has, each by the word that starts it.
#[derive(Clone, Copy, Debug, PartialEq, Eq)]
pub enum Verb {
    Enter,
    Leave,
    Advance,
    Add,
    Look,
    Read,
    Write,
    Remove,
    Scan,
    Next,
    Begin,
    Finish,
    Cancel,
}

impl Verb {
    /// The word of a schedule's line, and of the answer's.
    pub fn word(self) -> &'static str
        ensures { result.now ≡ word_of self }
    {
        match self {
            Verb::Enter => "enter",
            Verb::Leave => "leave",
            Verb::Advance => "advance",
            Verb::Add => "add",
            Verb::Look => "look",
            Verb::Read => "read",
            Verb::Write => "write",
            Verb::Remove => "remove",
            Verb::Scan => "scan",
            Verb::Next => "next",
            Verb::Begin => "begin",
            Verb::Finish => "finish",
            Verb::Cancel => "cancel",
        }
    }
}

/// The verb that a word is.
pub fn read_verb(word: &str) -> Option<Verb>
    ensures { result ≡ verb_of word.now }
{
    match word {
        "enter" => Some(Verb::Enter),
        "leave" => Some(Verb::Leave),
        "advance" => Some(Verb::Advance),
        "add" => Some(Verb::Add),
        "look" => Some(Verb::Look),
        "read" => Some(Verb::Read),
        "write" => Some(Verb::Write),
        "remove" => Some(Verb::Remove),
        "scan" => Some(Verb::Scan),
        "next" => Some(Verb::Next),
        "begin" => Some(Verb::Begin),
        "finish" => Some(Verb::Finish),
        "cancel" => Some(Verb::Cancel),
        _ => None,
    }
}
