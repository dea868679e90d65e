ghost use Rattle.std.specs.Prelude.{◌≡◌, IfOk, string_bytes};
ghost use Rattle.smc_schedule.specs.Answers.{answer_of, cause_of, finished_of, line_with, round_of};

use crate::verb::Verb;
use smc_core::Done;
use smc_model::Cause;
use smc_words::NoMemory;
use std::alloc::{AllocError, Global};

// The word for what there was none left of.
fn cause_word(cause: Cause) -> &'static str
    ensures { result.now ≡ cause_of cause }
{
    match cause {
        Cause::Slots => "slots",
        Cause::Entries => "entries",
    }
}

fn round_text(alloc: Global, bound: u64, moves: u64) -> Result<String, AllocError>
    ensures { IfOk result (λ text. string_bytes text ≡ round_of bound moves) }
{
    format!(in alloc; "round {bound} moves {moves}")
}

fn finished_text(alloc: Global, moved: u64, abandoned: u64, gone: u64) -> Result<String, AllocError>
    ensures { IfOk result (λ text. string_bytes text ≡ finished_of moved abandoned gone) }
{
    format!(in alloc; "done {moved} {abandoned} {gone}")
}

// What stands behind the word of the call. `name` is that of a visited object.
fn answer_text(alloc: Global, done: Done, name: &str) -> Result<String, AllocError>
    ensures { IfOk result (λ text. string_bytes text ≡ answer_of name.now done) }
{
    match done {
        Done::At { epoch } => format!(in alloc; "at {epoch}"),
        Done::Out => format!(in alloc; "out"),
        Done::Advanced { epoch } => format!(in alloc; "advanced {epoch}"),
        Done::NotYet { pass, seen } => format!(in alloc; "notyet {pass} {seen}"),
        Done::Overtaken { seen } => format!(in alloc; "overtaken {seen}"),
        Done::Spent => format!(in alloc; "spent"),
        Done::Made { slot } => format!(in alloc; "made {slot}"),
        Done::Full { full } => {
            let cause = cause_word(full);
            format!(in alloc; "full {cause}")
        }
        Done::Here { slot } => format!(in alloc; "here {slot}"),
        Done::Null => format!(in alloc; "null"),
        Done::Value { value } => format!(in alloc; "value {value}"),
        Done::Written | Done::Cancelled => format!(in alloc; "done"),
        Done::First => format!(in alloc; "first"),
        Done::Late => format!(in alloc; "late"),
        Done::Begun => format!(in alloc; "begun"),
        Done::Visit { slot, .. } => format!(in alloc; "visit {name} {slot}"),
        Done::End => format!(in alloc; "end"),
        Done::Round { bound, moves, .. } => round_text(alloc, bound, moves),
        Done::Nothing { .. } => format!(in alloc; "nothing"),
        Done::Busy { bound, pass, .. } => format!(in alloc; "busy {bound} {pass}"),
        Done::Finished {
            moved,
            abandoned,
            gone,
        } => finished_text(alloc, moved, abandoned, gone),
        Done::Early { epoch, bound } => format!(in alloc; "early {epoch} {bound}"),
        Done::Noted { .. } | Done::Learned | Done::Surveyed { .. } => Ok(String::new(alloc)),
    }
}

/// The line that is printed when a call has ended. `name` is that of a visited object; no other answer prints one.
///
/// The answers of calls that no schedule has print nothing behind their word.
pub fn answer_line(
    alloc: Global,
    pass: u32,
    verb: Verb,
    done: Done,
    name: &str,
) -> Result<String, NoMemory>
    ensures { IfOk result (λ text. string_bytes text ≡ line_with pass verb (answer_of name.now done)) }
{
    let answer = answer_text(alloc, done, name)?;
    let word = verb.word();
    Ok(format!(in alloc; "{pass} {word} {answer}\n")?)
}

#[cfg(test)]
mod tests {
    use super::*;
    use smc_words::Number;
    use std::test::Fail;

    #[test]
    fn answers_are_printed_behind_their_call(rt: HostRuntime) -> Result<(), Fail> {
        let number = Number {
            incarnation: 1,
            entry: 0,
            coll: 0,
        };
        let cases = [
            (0, Verb::Enter, Done::At { epoch: 2 }, "0 enter at 2\n"),
            (0, Verb::Leave, Done::Out, "0 leave out\n"),
            (
                1,
                Verb::Advance,
                Done::Advanced { epoch: 3 },
                "1 advance advanced 3\n",
            ),
            (
                1,
                Verb::Advance,
                Done::NotYet { pass: 0, seen: 5 },
                "1 advance notyet 0 5\n",
            ),
            (
                0,
                Verb::Advance,
                Done::Overtaken { seen: 3 },
                "0 advance overtaken 3\n",
            ),
            (0, Verb::Advance, Done::Spent, "0 advance spent\n"),
            (0, Verb::Add, Done::Made { slot: 64 }, "0 add made 64\n"),
            (
                0,
                Verb::Add,
                Done::Full { full: Cause::Slots },
                "0 add full slots\n",
            ),
            (
                0,
                Verb::Add,
                Done::Full {
                    full: Cause::Entries,
                },
                "0 add full entries\n",
            ),
            (31, Verb::Look, Done::Here { slot: 0 }, "31 look here 0\n"),
            (0, Verb::Look, Done::Null, "0 look null\n"),
            (
                0,
                Verb::Read,
                Done::Value { value: u64::MAX },
                "0 read value 18446744073709551615\n",
            ),
            (0, Verb::Write, Done::Written, "0 write done\n"),
            (0, Verb::Remove, Done::First, "0 remove first\n"),
            (0, Verb::Remove, Done::Late, "0 remove late\n"),
            (0, Verb::Scan, Done::Begun, "0 scan begun\n"),
            (
                1,
                Verb::Next,
                Done::Visit { number, slot: 7 },
                "1 next visit a 7\n",
            ),
            (1, Verb::Next, Done::End, "1 next end\n"),
            (
                0,
                Verb::Begin,
                Done::Round {
                    coll: 0,
                    bound: 6,
                    moves: 1,
                },
                "0 begin round 6 moves 1\n",
            ),
            (
                0,
                Verb::Begin,
                Done::Nothing { coll: 0 },
                "0 begin nothing\n",
            ),
            (
                1,
                Verb::Begin,
                Done::Busy {
                    bound: 6,
                    pass: 0,
                    coll: 0,
                },
                "1 begin busy 6 0\n",
            ),
            (
                0,
                Verb::Finish,
                Done::Finished {
                    moved: 1,
                    abandoned: 0,
                    gone: 0,
                },
                "0 finish done 1 0 0\n",
            ),
            (
                0,
                Verb::Finish,
                Done::Early { epoch: 5, bound: 6 },
                "0 finish early 5 6\n",
            ),
            (0, Verb::Cancel, Done::Cancelled, "0 cancel done\n"),
        ];
        for (pass, verb, done, line) in cases {
            let text = answer_line(rt.alloc(), pass, verb, done, "a")?;
            assert_eq!(rt; text.as_str(), line, "at {done:?}");
        }
        Ok(())
    }
}
