use crate::{Name, Quoted, Reserved, Sign};

/// One token of a query text.
#[derive(Debug, Drop)]
pub enum Token {
    Name(Name),
    Word(Reserved),
    Date { year: u32, month: u32, day: u32 },
    Number { units: u64, decimals: u32 },
    Text(Quoted),
    Sign(Sign),
}

/// A token, and the byte of the text where it begins.
#[derive(Debug, Drop)]
pub struct Placed {
    pub token: Token,
    pub at: u32,
}
