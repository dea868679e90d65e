ghost use Rattle.std.specs.Prelude.{◌≡◌};
ghost use Rattle.smc_tokens.specs.Marks.{word_text, word_code};
ghost use Rattle.smc_tokens.specs.Front.{spelled_word};

/// A word that is no name.
#[derive(Clone, Copy, Debug, Drop, PartialEq, Eq)]
pub enum Reserved {
    From,
    Where,
    By,
    Show,
    Sort,
    First,
    As,
    And,
    Or,
    Not,
    Between,
    Desc,
    Sum,
    Avg,
    Min,
    Max,
    Count,
    Fold,
}

impl Reserved {
    /// The word that is written so.
    pub fn of(text: &str) -> Option<Reserved>
        ensures { result ≡ spelled_word text.now }
    {
        match text {
            "from" => Some(Reserved::From),
            "where" => Some(Reserved::Where),
            "by" => Some(Reserved::By),
            "show" => Some(Reserved::Show),
            "sort" => Some(Reserved::Sort),
            "first" => Some(Reserved::First),
            "as" => Some(Reserved::As),
            "and" => Some(Reserved::And),
            "or" => Some(Reserved::Or),
            "not" => Some(Reserved::Not),
            "between" => Some(Reserved::Between),
            "desc" => Some(Reserved::Desc),
            "sum" => Some(Reserved::Sum),
            "avg" => Some(Reserved::Avg),
            "min" => Some(Reserved::Min),
            "max" => Some(Reserved::Max),
            "count" => Some(Reserved::Count),
            "fold" => Some(Reserved::Fold),
            _ => None,
        }
    }

    /// How it is written.
    pub fn text(self) -> &'static str
        ensures { result.now ≡ word_text self }
    {
        match self {
            Reserved::From => "from",
            Reserved::Where => "where",
            Reserved::By => "by",
            Reserved::Show => "show",
            Reserved::Sort => "sort",
            Reserved::First => "first",
            Reserved::As => "as",
            Reserved::And => "and",
            Reserved::Or => "or",
            Reserved::Not => "not",
            Reserved::Between => "between",
            Reserved::Desc => "desc",
            Reserved::Sum => "sum",
            Reserved::Avg => "avg",
            Reserved::Min => "min",
            Reserved::Max => "max",
            Reserved::Count => "count",
            Reserved::Fold => "fold",
        }
    }

    /// Its place in the list of them all.
    pub fn code(self) -> u8
        ensures { result ≡ word_code self }
    {
        match self {
            Reserved::From => 0,
            Reserved::Where => 1,
            Reserved::By => 2,
            Reserved::Show => 3,
            Reserved::Sort => 4,
            Reserved::First => 5,
            Reserved::As => 6,
            Reserved::And => 7,
            Reserved::Or => 8,
            Reserved::Not => 9,
            Reserved::Between => 10,
            Reserved::Desc => 11,
            Reserved::Sum => 12,
            Reserved::Avg => 13,
            Reserved::Min => 14,
            Reserved::Max => 15,
            Reserved::Count => 16,
            Reserved::Fold => 17,
        }
    }
}
