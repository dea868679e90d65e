ghost use Rattle.std.specs.Prelude.{◌≡◌, IfOk};
ghost use Rattle.smc_schedule.specs.Grammar.{Reads};
ghost use Rattle.smc_schedule.specs.Lines.{line_of, pass_and, run_of, step_alone, step_of};

use crate::call::{StartCall, read_call, read_index};
use smc_lines::Words;
use smc_words::NoMemory;
use std::alloc::Global;

/// What a pass is to do.
#[derive(Debug, Drop)]
pub enum Act {
    /// Start a call and take its first step.
    Start(StartCall),
    /// Start a call and take its steps until it ends.
    Run(StartCall),
    /// Take one step of the call in progress.
    Step,
    /// Take steps until the call in progress ends.
    RunOn,
}

/// A line of a schedule behind the first.
#[derive(Debug, Drop)]
pub struct ScheduleLine {
    pub pass: u32,
    pub act: Act,
}

// What words before a last `!` say.
fn read_run(alloc: Global, mut words: Words<'_>, width: u32) -> Result<Option<Act>, NoMemory>
    ensures { IfOk result (λ act. act ≡ run_of width words.entry) }
{
    let Some(word) = words.next_word() else {
        return Ok(Some(Act::RunOn));
    };
    Ok(read_call(alloc, word, words, width)?.map(Act::Run))
}

// One step, where no word is left.
fn read_alone(mut words: Words<'_>) -> Option<Act>
    ensures { result ≡ step_alone words.entry }
{
    match words.next_word() {
        None => Some(Act::Step),
        Some(_) => None,
    }
}

// What words without a last `!` say.
fn read_step(alloc: Global, mut words: Words<'_>, width: u32) -> Result<Option<Act>, NoMemory>
    ensures { IfOk result (λ act. act ≡ step_of width words.entry) }
{
    let Some(word) = words.next_word() else {
        return Ok(None);
    };
    if word == "." {
        return Ok(read_alone(words));
    }
    Ok(read_call(alloc, word, words, width)?.map(Act::Start))
}

// A line whose last word, a `!`, was taken off.
fn read_running(
    alloc: Global,
    mut words: Words<'_>,
    width: u32,
) -> Result<Option<ScheduleLine>, NoMemory>
    ensures { IfOk result (λ line. line ≡ pass_and (run_of width) words.entry) }
{
    let Some(word) = words.next_word() else {
        return Ok(None);
    };
    let Some(pass) = read_index(word) else {
        return Ok(None);
    };
    Ok(read_run(alloc, words, width)?.map(|act| ScheduleLine { pass, act }))
}

// A line without a last `!`.
fn read_stepping(
    alloc: Global,
    mut words: Words<'_>,
    width: u32,
) -> Result<Option<ScheduleLine>, NoMemory>
    ensures { IfOk result (λ line. line ≡ pass_and (step_of width) words.entry) }
{
    let Some(word) = words.next_word() else {
        return Ok(None);
    };
    let Some(pass) = read_index(word) else {
        return Ok(None);
    };
    Ok(read_step(alloc, words, width)?.map(|act| ScheduleLine { pass, act }))
}

// Reads the words of a line, with or without a last `!`.
fn read_words(alloc: Global, text: &str, width: u32) -> Result<Option<ScheduleLine>, NoMemory>
    ensures { IfOk result (λ line. line ≡ line_of width text.now) }
{
    match text.strip_suffix(" !") {
        Some(front) => read_running(alloc, Words::of(front), width),
        None => read_stepping(alloc, Words::of(text), width),
    }
}

/// Reads a line behind the first, where a record has so many fields; `None` where it is outside the grammar.
pub fn read_line(alloc: Global, text: &str, width: u32) -> Result<Option<ScheduleLine>, NoMemory>
    ensures reads { IfOk result (λ line. Reads width text.now line) }
    ensures value { IfOk result (λ line. line ≡ line_of width text.now) }
{
    read_words(alloc, text, width)
}

#[cfg(test)]
mod tests {
    use super::*;
    use std::test::Fail;

    #[test]
    fn lines_say_what_they_spell(rt: HostRuntime) -> Result<(), Fail> {
        let cases = [
            ("0 enter", "0, Start(Enter)"),
            ("0 enter !", "0, Run(Enter)"),
            ("31 leave !", "31, Run(Leave)"),
            ("0 .", "0, Step"),
            ("007 !", "7, RunOn"),
            (
                "0 add a 64 1 18446744073709551615 !",
                "0, Run(Add { name: Name { text: \"a\" }, from: 64, words: Record { words: [1, 18446744073709551615] } })",
            ),
            (
                "4294967295 look a_9",
                "4294967295, Start(Look { name: Name { text: \"a_9\" } })",
            ),
            (
                "0 read abcdefghijklmnop 1",
                "0, Start(Read { name: Name { text: \"abcdefghijklmnop\" }, field: 1 })",
            ),
            (
                "0 write a 1 99",
                "0, Start(Write { name: Name { text: \"a\" }, field: 1, value: 99 })",
            ),
            (
                "0 remove a",
                "0, Start(Remove { name: Name { text: \"a\" } })",
            ),
            ("0 scan", "0, Start(Scan)"),
            ("0 next !", "0, Run(Next)"),
            ("0 begin", "0, Start(Begin)"),
            ("0 finish", "0, Start(Finish)"),
            ("0 cancel", "0, Start(Cancel)"),
            ("0 advance", "0, Start(Advance)"),
        ];
        for (text, said) in cases {
            let alloc = rt.alloc();
            let Some(ScheduleLine { pass, act }) = read_line(alloc, text, 2)? else {
                assert!(rt; false, "no line at {text}");
                return Ok(());
            };
            let line = format!(in alloc; "{pass}, {act:?}")?;
            assert_eq!(rt; line.as_str(), said, "at {text}");
        }
        Ok(())
    }

    #[test]
    fn other_lines_are_outside_the_grammar(rt: HostRuntime) -> Result<(), Fail> {
        let cases = [
            "",
            " ",
            "0",
            "!",
            " !",
            "0 .!",
            "0 enter!",
            "0 enter .",
            "0 . !",
            "0 ! !",
            "0 enter  !",
            "0  enter",
            "0\tenter",
            "0 Enter",
            "enter",
            "-1 enter",
            "4294967296 enter",
            "0 enter x",
            "0 add a 0 1",
            "0 add a 0 1 2 3",
            "0 add a 4294967296 1 2",
            "0 add a 0 1 18446744073709551616",
            "0 add A 0 1 2",
            "0 look",
            "0 look abcdefghijklmnopq",
            "0 look 9a",
            "0 look a b",
            "0 read a",
            "0 read a 4294967296",
            "0 write a 0",
            "0 write a 0 1 2",
            "0 remove",
            "0 survey",
            "0 note",
            "0 enter !\r",
        ];
        for text in cases {
            assert!(rt; read_line(rt.alloc(), text, 2)?.is_none(), "at {text}");
        }
        Ok(())
    }
}
