ghost use Rattle.std.specs.Prelude.{◌≡◌, [], true, false, Ok, IfOk, string_bytes};
ghost use Rattle.smc_play.specs.Plays.{playing};
ghost use Rattle.smc_play.specs.Texts.{IsNotPlayed, PlaysLine, PlaysLines, PlaysText};

use crate::ending::Ending;
use crate::open::{Opened, open};
use crate::player::{Halt, Player};
use smc_lines::{Cursor, Lines};
use smc_schedule::read_line;
use smc_words::NoMemory;
use std::alloc::Global;

/// What a schedule prints, and how it ends.
#[derive(Debug, Drop)]
pub struct Played {
    pub text: String,
    pub ending: Ending,
}

/// Plays the text of a line; true where it is a line and the machine takes it.
fn play_line(alloc: Global, player: &mut Player, text: &str, width: u32) -> Result<bool, NoMemory>
    ensures taken { result ≡ Ok true → PlaysLine width (playing player.old) text.now (playing player.new) }
    ensures refused { result ≡ Ok false → IsNotPlayed width (playing player.old) text.now }
{
    let Some(line) = read_line(alloc, text, width)? else {
        return Ok(false);
    };
    player.clear();
    match player.line(line) {
        Ok(()) => Ok(true),
        Err(Halt::Refused) => Ok(false),
        Err(Halt::NoMemory) => Err(NoMemory),
    }
}

/// Plays the lines that are left.
fn play_lines(
    alloc: Global,
    player: &mut Player,
    cursor: &mut Cursor<'_>,
    width: u32,
) -> Result<Played, NoMemory>
    ensures { IfOk result (λ played. PlaysLines width (playing player.old) cursor.old (string_bytes played.text) played.ending) }
{
    let mut text = String::new(alloc);
    loop {
        let next = match cursor.next_line() {
            Ok(Some(next)) => next,
            Ok(None) => {
                let ending = Ending::All;
                return Ok(Played { text, ending });
            }
            Err(bad) => {
                let ending = Ending::RefusedAt { line: bad.line };
                return Ok(Played { text, ending });
            }
        };
        if !play_line(alloc, player, next.text, width)? {
            let ending = Ending::RefusedAt { line: next.line };
            return Ok(Played { text, ending });
        }
        text.push_str(player.text())?;
    }
}

/// A schedule that prints nothing, since this line is refused.
fn refused_at(alloc: Global, line: u64) -> Played
    ensures text { string_bytes result.text ≡ [] }
    ensures ending { result.ending ≡ Ending.RefusedAt line }
{
    Played {
        text: String::new(alloc),
        ending: Ending::RefusedAt { line },
    }
}

/// Plays a whole text, whose first line that counts says the shape of a region.
pub fn play_all(alloc: Global, lines: &Lines) -> Result<Played, NoMemory>
    ensures { IfOk result (λ played. PlaysText lines.now (string_bytes played.text) played.ending) }
{
    let mut cursor = lines.cursor();
    let first = match cursor.next_line() {
        Ok(Some(first)) => first,
        Ok(None) => return Ok(refused_at(alloc, cursor.line() + 1)),
        Err(bad) => return Ok(refused_at(alloc, bad.line)),
    };
    let Some(opened) = open(alloc, first.text)? else {
        return Ok(refused_at(alloc, first.line));
    };
    let Opened { mut player, width } = opened;
    play_lines(alloc, &mut player, &mut cursor, width)
}
