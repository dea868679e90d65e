use crate::Path;
use smc_tokens::Quoted;

/// An expression over the fields of a row.
#[derive(Debug, Drop)]
pub enum Expr {
    /// So many units, of which ten to the power of `decimals` make one.
    Number { units: u64, decimals: u32 },
    Date { year: u32, month: u32, day: u32 },
    Text(Quoted),
    Field(Path),
    Add(Box<Expr>, Box<Expr>),
    Sub(Box<Expr>, Box<Expr>),
    Mul(Box<Expr>, Box<Expr>),
    Minus(Box<Expr>),
}
