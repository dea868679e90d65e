use crate::Expr;

/// How two values are compared.
#[derive(Clone, Copy, Debug, Drop, PartialEq, Eq)]
pub enum Op {
    Equal,
    Unequal,
    Less,
    LessEqual,
    Greater,
    GreaterEqual,
}

/// A condition on a row.
#[derive(Debug, Drop)]
pub enum Cond {
    Or(Box<Cond>, Box<Cond>),
    And(Box<Cond>, Box<Cond>),
    Not(Box<Cond>),
    Compare { op: Op, left: Expr, right: Expr },
    Between { value: Expr, low: Expr, high: Expr },
}
