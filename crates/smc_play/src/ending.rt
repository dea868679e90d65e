/// How the playing of a schedule ends.
#[derive(Clone, Copy, Debug, PartialEq, Eq)]
pub enum Ending {
    /// Each line was played.
    All,
    /// This line, counted from 1, is the first that is refused.
    RefusedAt { line: u64 },
}
