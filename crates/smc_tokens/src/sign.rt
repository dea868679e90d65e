ghost use Rattle.std.specs.Prelude.{◌≡◌, ◌∷◌, []};
ghost use Rattle.smc_tokens.specs.Marks.{sign_text, sign_code};
ghost use Rattle.smc_tokens.specs.Front.{spelled_sign};

/// A sign.
#[derive(Clone, Copy, Debug, Drop, PartialEq, Eq)]
pub enum Sign {
    Equal,
    Unequal,
    Less,
    LessEqual,
    Greater,
    GreaterEqual,
    Plus,
    Minus,
    Star,
    Open,
    Close,
    OpenBracket,
    CloseBracket,
    Comma,
    Dot,
}

impl Sign {
    /// The sign that is written as this one byte.
    pub fn of_byte(byte: u8) -> Option<Sign>
        ensures { result ≡ spelled_sign (byte ∷ []) }
    {
        match byte {
            b'=' => Some(Sign::Equal),
            b'<' => Some(Sign::Less),
            b'>' => Some(Sign::Greater),
            b'+' => Some(Sign::Plus),
            b'-' => Some(Sign::Minus),
            b'*' => Some(Sign::Star),
            b'(' => Some(Sign::Open),
            b')' => Some(Sign::Close),
            b'[' => Some(Sign::OpenBracket),
            b']' => Some(Sign::CloseBracket),
            b',' => Some(Sign::Comma),
            b'.' => Some(Sign::Dot),
            _ => None,
        }
    }

    /// The sign that is written as these two bytes.
    pub fn of_pair(first: u8, second: u8) -> Option<Sign>
        ensures { result ≡ spelled_sign (first ∷ second ∷ []) }
    {
        match (first, second) {
            (b'<', b'>') => Some(Sign::Unequal),
            (b'<', b'=') => Some(Sign::LessEqual),
            (b'>', b'=') => Some(Sign::GreaterEqual),
            _ => None,
        }
    }

    /// How it is written.
    pub fn text(self) -> &'static str
        ensures { result.now ≡ sign_text self }
    {
        match self {
            Sign::Equal => "=",
            Sign::Unequal => "<>",
            Sign::Less => "<",
            Sign::LessEqual => "<=",
            Sign::Greater => ">",
            Sign::GreaterEqual => ">=",
            Sign::Plus => "+",
            Sign::Minus => "-",
            Sign::Star => "*",
            Sign::Open => "(",
            Sign::Close => ")",
            Sign::OpenBracket => "[",
            Sign::CloseBracket => "]",
            Sign::Comma => ",",
            Sign::Dot => ".",
        }
    }

    /// Its place in the list of them all.
    pub fn code(self) -> u8
        ensures { result ≡ sign_code self }
    {
        match self {
            Sign::Equal => 0,
            Sign::Unequal => 1,
            Sign::Less => 2,
            Sign::LessEqual => 3,
            Sign::Greater => 4,
            Sign::GreaterEqual => 5,
            Sign::Plus => 6,
            Sign::Minus => 7,
            Sign::Star => 8,
            Sign::Open => 9,
            Sign::Close => 10,
            Sign::OpenBracket => 11,
            Sign::CloseBracket => 12,
            Sign::Comma => 13,
            Sign::Dot => 14,
        }
    }
}
