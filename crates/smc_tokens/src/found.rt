use crate::Token;

/// The token that a text begins with, and how many bytes it has.
#[derive(Drop)]
pub struct Found {
    pub token: Token,
    pub len: usize,
}
