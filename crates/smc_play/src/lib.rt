//! Schedules are played: each line takes its steps on the machine, and each call that ends prints its answer.
//!
//! `begun` resolves the names of a call, `player` has the machine with the names and the calls in progress and plays a
//! line, `text` plays all lines of a text, and `play` does so from a source to a sink. It stands on the machine, on the
//! reader of lines and on the text of schedules; the program stands on it. Callers may rely on it that what is printed
//! is what the machine answers, and that a line is refused exactly where it is the first that cannot be played.
//!
//! The meaning is in `specs`: `Turns` says what one step plays, `Plays` what a line, the lines behind the first, and a
//! whole text play, and `Ending` what an answer of `play` says of the text and of the output.
#![tactic(auto)]

mod begun;
mod ending;
mod open;
mod play;
mod player;
mod text;

pub use begun::{Begun, Progress};
pub use ending::Ending;
pub use play::{PlayEnd, play_text};
pub use player::{Halt, Player, Seat};
pub use text::{Played, play_all};
