ghost use Rattle.std.specs.Prelude.{◌≡◌, ◌≤◌, ◌-◌, ◌↔◌, true, false, None, IfSome, IfNone, IsSome, map, slice_get};
ghost use Rattle.smc_outside.specs.Causes.{Rose};
ghost use Rattle.smc_run.specs.Play.{PlaysAs};
ghost use Rattle.smc_run.specs.Inputs.{IsLawful, RunEnds};
ghost use Rattle.smc_run.specs.Tally.{ReadsToEnd, TallyEnds};
ghost use Rattle.smc_run.specs.Words.{plays, runs, table_named, tallied};
ghost use Rattle.smc_types.specs.Tables.{the_tables};
ghost use Rattle.smc_types.specs.declared.catalog.TheConstants.{TABLE_COUNT};

use crate::ended::Ended;
use crate::play::play;
use crate::script;
use crate::status::Status;
use crate::tally::tally;
use smc_folds::{Bench, Fold};
use smc_outside::{Shelf, Sink, Source};
use smc_types::{CUSTOMER, LINEITEM, NATION, ORDERS, PART, PARTSUPP, REGION, SUPPLIER};
use std::alloc::Global;

// The number of the table of that name.
fn table_number(name: &str) -> Option<u32>
    ensures first { IfSome result (λ table. 1 ≤ table) }
    ensures last { IfSome result (λ table. table ≤ TABLE_COUNT) }
    ensures some { IfSome result (λ table. table_named name.now ≡ slice_get the_tables.schemas (table - 1)) }
    ensures named { IfSome result (λ _. IsSome (table_named name.now)) }
    ensures none { IfNone result (table_named name.now ≡ None) }
{
    match name {
        "region" => Some(REGION),
        "nation" => Some(NATION),
        "supplier" => Some(SUPPLIER),
        "customer" => Some(CUSTOMER),
        "part" => Some(PART),
        "partsupp" => Some(PARTSUPP),
        "orders" => Some(ORDERS),
        "lineitem" => Some(LINEITEM),
        _ => None,
    }
}

// The number of the table of which the words ask for a tally.
fn table_asked(words: &[String]) -> Option<u32>
    ensures first { IfSome result (λ table. 1 ≤ table) }
    ensures last { IfSome result (λ table. table ≤ TABLE_COUNT) }
    ensures some { IfSome result (λ table. tallied words.now ≡ slice_get the_tables.schemas (table - 1)) }
    ensures asked { IfSome result (λ _. IsSome (tallied words.now)) }
    ensures none { IfNone result (tallied words.now ≡ None) }
{
    match words {
        [command, name] if command.as_str() == "tally" => table_number(name.as_str()),
        _ => None,
    }
}

// Whether the words ask that a schedule is played.
fn asks_play(words: &[String]) -> bool
    ensures { result ≡ plays words.now }
{
    match words {
        [command] => command.as_str() == "play",
        _ => false,
    }
}

// Whether the words ask that a script is run.
fn asks_run(words: &[String]) -> bool
    ensures { result ≡ runs words.now }
{
    match words {
        [command] => command.as_str() == "run",
        _ => false,
    }
}

/// All that the program does: what its words ask for, or `BadWords` before anything is read.
///
/// A script calls the boxes of the bench by their names. Where a script with rooms was run, its region is handed back, closed
/// with its pass, unless memory was refused.
pub fn top<I: Source, F: Shelf, O: Sink>(
    alloc: Global,
    words: &[String],
    bench: &mut Bench,
    input: &mut I,
    shelf: &mut F,
    out: &mut O,
) -> Ended
    ensures words { (result.status ≡ Status.BadWords) ↔ ((tallied words.now ≡ None) × (plays words.now ≡ false) × (runs words.now ≡ false)) }
    ensures untouched { result.status ≡ Status.BadWords → (input.new ≡ input.old) × (out.new ≡ out.old) }
    ensures ends { IfSome (tallied words.now) (λ schema. TallyEnds schema result.status (I.left input.old) (O.held out.old) (O.held out.new)) }
    ensures played { plays words.now ≡ true → PlaysAs result.status (I.left input.old) (O.held out.old) (O.held out.new) }
    ensures ran { runs words.now ≡ true → RunEnds result.status (I.left input.old) (F.files shelf.old) (map (λ b. (⟦<dyn Fold as Fold>⟧ b.fold.vtable).kind b.fold.value) bench.old.boxes.items) result.quiet (O.held out.old) (O.held out.new) }
    ensures lawful { IfSome result.quiet IsLawful }
    ensures quiet { runs words.now ≡ false → result.quiet ≡ None }
    ensures unread { runs words.now ≡ false → shelf.new ≡ shelf.old }
    ensures read { ReadsToEnd result.status (I.left input.old) (I.left input.new) }
    ensures input_cause { result.status ≡ Status.ReadFault → IfNone result.quiet (Rose (I.faults input.old) (I.faults input.new)) }
    ensures shelf_cause { result.status ≡ Status.ReadFault → IfSome result.quiet (λ _. Rose (F.faults shelf.old) (F.faults shelf.new)) }
    ensures out_cause { result.status ≡ Status.WriteFault → Rose (O.faults out.old) (O.faults out.new) }
{
    if asks_play(words) {
        return Ended::at(play(alloc, input, out));
    }
    if asks_run(words) {
        return script::run(alloc, bench, input, shelf, out);
    }
    match table_asked(words) {
        Some(table) => Ended::at(tally(alloc, table, input, out)),
        None => Ended::at(Status::BadWords),
    }
}

#[cfg(test)]
mod tests {
    use super::*;
    use smc_folds::{Boxed, Distinct, Median, Range};
    use smc_outside::{MemShelf, MemSink, MemSource};
    use std::test::Fail;

    // The files of the shelf.
    const FILES: [(&str, &str); 2] = [
        ("two.tbl", "0|AFRICA|a|\n2|ASIA|b|\n"),
        ("bad.tbl", "0|AFRICA|a|\nx|ASIA|b|\n"),
    ];

    // What `top` says at these words over this text, where these reads and writes fail and the output has so much room:
    // the line of its status, and what was written.
    fn run(
        alloc: Global,
        words: &[&str],
        text: &str,
        reads: &[u64],
        writes: &[u64],
        space: usize,
    ) -> Result<(String, Vec<u8>), Fail> {
        let mut list = Vec::new(alloc);
        for word in words {
            list.push(word.to_string(alloc)?)?;
        }
        let mut input = MemSource::new(text.as_bytes().to_vec(alloc)?, 9, reads.to_vec(alloc)?);
        let mut out = MemSink::new(alloc, space, 5, writes.to_vec(alloc)?)?;
        let mut files = Vec::new(alloc);
        for (name, bytes) in FILES {
            files.push((name.to_string(alloc)?, bytes.as_bytes().to_vec(alloc)?))?;
        }
        let mut shelf = MemShelf::new(files, Vec::new(alloc));
        let mut bench = Bench::new(alloc);
        bench.boxes.push(Boxed {
            fold: Box::new(alloc, Distinct::new())?,
        })?;
        bench.boxes.push(Boxed {
            fold: Box::new(alloc, Median::new())?,
        })?;
        bench.boxes.push(Boxed {
            fold: Box::new(alloc, Range::new())?,
        })?;
        let status = top(alloc, &list, &mut bench, &mut input, &mut shelf, &mut out).into_status();
        Ok((format!(in alloc; "{status}")?, out.bytes().to_vec(alloc)?))
    }

    #[test]
    fn tables_are_tallied_or_refused(rt: HostRuntime) -> Result<(), Fail> {
        let cases = [
            ("", "smc: 0 done", "objects 0, sum 0\n"),
            (
                "0|AFRICA|a|\n4|MIDDLE EAST|b|",
                "smc: 0 done",
                "objects 2, sum 4\n",
            ),
            (
                "0|AFRICA|a|\r\n4|MIDDLE EAST|b|\r\n",
                "smc: 0 done",
                "objects 2, sum 4\n",
            ),
            ("7|A|b|\r", "smc: 0 done", "objects 1, sum 7\n"),
            (
                "999999999999|A|b|\n1|A|b|\n",
                "smc: 0 done",
                "objects 2, sum 1000000000000\n",
            ),
            ("0|AFRICA|a", "smc: 3 bad table -, line 1", ""),
            ("0|AFRICA|a|\n\n", "smc: 3 bad table -, line 2", ""),
            ("0|A|a|\n1|A|a|\nx|A|a|\n", "smc: 3 bad table -, line 3", ""),
        ];
        for (case, (text, line, written)) in cases.iter().enumerate() {
            let (status, held) = run(rt.alloc(), &["tally", "region"], text, &[], &[], 64)?;
            assert_eq!(rt; status.as_str(), *line, "at {case}");
            assert_eq!(rt; held.as_slice(), written.as_bytes(), "at {case}");
        }
        Ok(())
    }

    #[test]
    fn each_table_has_its_own_columns(rt: HostRuntime) -> Result<(), Fail> {
        let item =
            "1|155190|7706|1|17|21168.23|0.04|0.02|N|O|1996-03-13|1996-02-12|1996-03-22|DELIVER IN PERSON|TRUCK|egular courts above the|\n";
        let nation = "23|UNITED KINGDOM|3|eans boost carefully|\n";
        let refused = "smc: 3 bad table -, line 1";
        let cases = [
            ("lineitem", item, "smc: 0 done", "objects 1, sum 1\n"),
            ("nation", nation, "smc: 0 done", "objects 1, sum 23\n"),
            ("region", nation, refused, ""),
            ("nation", item, refused, ""),
            ("lineitem", nation, refused, ""),
        ];
        for (case, (table, text, line, written)) in cases.iter().enumerate() {
            let (status, held) = run(rt.alloc(), &["tally", *table], text, &[], &[], 64)?;
            assert_eq!(rt; status.as_str(), *line, "at {case}");
            assert_eq!(rt; held.as_slice(), written.as_bytes(), "at {case}");
        }
        Ok(())
    }

    #[test]
    fn schedules_are_played(rt: HostRuntime) -> Result<(), Fail> {
        let cases = [
            (
                "shape 1 1 64\n0 enter !\n0 leave !\n",
                "smc: 0 done",
                "0 enter at 2\n0 leave out\n",
            ),
            (
                "shape 1 1 64\n0 enter !\n0 enter !\n",
                "smc: 2 bad script, line 3",
                "0 enter at 2\n",
            ),
            ("", "smc: 2 bad script, line 1", ""),
        ];
        for (case, (text, line, written)) in cases.iter().enumerate() {
            let (status, held) = run(rt.alloc(), &["play"], text, &[], &[], 64)?;
            assert_eq!(rt; status.as_str(), *line, "at {case}");
            assert_eq!(rt; held.as_slice(), written.as_bytes(), "at {case}");
        }
        Ok(())
    }

    #[test]
    fn scripts_are_run(rt: HostRuntime) -> Result<(), Fail> {
        let cases = [
            (
                "room region 64\nstat region\ncompact region\n",
                "smc: 0 done",
                "objects 0\npacked region objects 0 blocks 0\n",
            ),
            (
                "room region 64\nroom nation 64\ncompact nation\nquery from region show count()\n",
                "smc: 0 done",
                "packed nation objects 0 blocks 0\nrows 1\n0\n",
            ),
            (
                "room region 64\nroom nation 64\nload region two.tbl\nadd nation a 1|A|0|x|\nadd nation b 2|B|2|y|\nadd nation c 3|C|2|z|\nquery from nation where nationkey < 3 by region.name show sum(nationkey) as s sort s desc\n",
                "smc: 0 done",
                "loaded region 2\nadded a\nadded b\nadded c\nrows 2\nASIA|2\nAFRICA|1\n",
            ),
            (
                "room region 64\nload region two.tbl\nadd region a 999999999999|A||\ndelete region where name = 'ASIA'\nupdate region set regionkey = regionkey + 1\nget a\nstat region\n",
                "smc: 0 done",
                "loaded region 2\nadded a\ndeleted 1\nupdated 1 skipped 1\n999999999999|A||\nobjects 2\n",
            ),
            (
                "room region 64\nstat region\nquery from region show sum(name)\n",
                "smc: 2 bad script, line 3",
                "",
            ),
            (
                "room region 64\nstat region\ndelete region where name < 1\n",
                "smc: 2 bad script, line 3",
                "",
            ),
            (
                "room region 64\nstat region\nupdate region set regionkey = 1 where no = 1\n",
                "smc: 2 bad script, line 3",
                "",
            ),
            (
                "room region 64\nadd region a 5|A||\nadd region b 1|B||\nadd region c 5|C||\nquery from region show fold distinct(regionkey), fold median(regionkey), fold range(regionkey)\n",
                "smc: 0 done",
                "added a\nadded b\nadded c\nrows 1\n2|5|4\n",
            ),
            ("drop fold median\n", "smc: 0 done", "dropped median\n"),
            (
                "room region 64\ndrop fold median\nquery from region show fold range(regionkey), fold distinct(regionkey)\n",
                "smc: 0 done",
                "dropped median\nrows 1\nnone|0\n",
            ),
            (
                "room region 64\nquery from region show fold median(regionkey)\ndrop fold median\nquery from region show fold median(regionkey)\n",
                "smc: 2 bad script, line 4",
                "",
            ),
            (
                "room region 64\nquery from region show fold total(regionkey)\n",
                "smc: 2 bad script, line 2",
                "",
            ),
            (
                "room region 64\nadd region africa 0|AFRICA|a|\nget africa\nset africa regionkey 7\nget africa\nstat region\n",
                "smc: 0 done",
                "added africa\n0|AFRICA|a|\nset\n7|AFRICA|a|\nobjects 1\n",
            ),
            (
                "room region 64\nadd region asia 2|ASIA||\nremove asia\nget asia\nremove asia\ncompact region\n",
                "smc: 0 done",
                "added asia\nremoved\nnull\nnull\npacked region objects 0 blocks 0\n",
            ),
            (
                "room region 64\nload region two.tbl\nstat region\n",
                "smc: 0 done",
                "loaded region 2\nobjects 2\n",
            ),
            (
                "room region 64\nstat region\nload region no.tbl\nstat region\n",
                "smc: 4 no file no.tbl",
                "objects 0\n",
            ),
            (
                "room region 64\nload region bad.tbl\nstat region\n",
                "smc: 3 bad table bad.tbl, line 2",
                "",
            ),
            (
                "room region 64\ncompact nation\n",
                "smc: 2 bad script, line 2",
                "",
            ),
        ];
        for (case, (text, line, written)) in cases.iter().enumerate() {
            let (status, held) = run(rt.alloc(), &["run"], text, &[], &[], 128)?;
            assert_eq!(rt; status.as_str(), *line, "at {case}");
            assert_eq!(rt; held.as_slice(), written.as_bytes(), "at {case}");
        }
        Ok(())
    }

    #[test]
    fn faults_outside_are_told(rt: HostRuntime) -> Result<(), Fail> {
        let text = "0|AFRICA|a|\n4|MIDDLE EAST|b|\n";
        // The reads and the writes that fail, the room for output, the status, and what was written.
        let cases = [
            ([0].as_slice(), [].as_slice(), 64, "smc: 5 read fault", ""),
            ([3].as_slice(), [0].as_slice(), 64, "smc: 5 read fault", ""),
            ([].as_slice(), [0].as_slice(), 64, "smc: 6 write fault", ""),
            (
                [].as_slice(),
                [2].as_slice(),
                64,
                "smc: 6 write fault",
                "objects 2,",
            ),
            (
                [].as_slice(),
                [].as_slice(),
                7,
                "smc: 6 write fault",
                "objects",
            ),
        ];
        for (case, (reads, writes, space, line, written)) in cases.iter().enumerate() {
            let (status, held) = run(
                rt.alloc(),
                &["tally", "region"],
                text,
                reads,
                writes,
                *space,
            )?;
            assert_eq!(rt; status.as_str(), *line, "at {case}");
            assert_eq!(rt; held.as_slice(), written.as_bytes(), "at {case}");
        }
        Ok(())
    }

    #[test]
    fn other_words_are_bad(rt: HostRuntime) -> Result<(), Fail> {
        let cases = [
            [].as_slice(),
            &["tally"],
            &["tally", "planets"],
            &["tally", "Region"],
            &["tally", "region", "x"],
            &["--", "tally", "region"],
            &["play", "x"],
            &["Play"],
            &["help"],
        ];
        for (case, words) in cases.iter().enumerate() {
            let (status, held) = run(rt.alloc(), words, "", &[0], &[0], 0)?;
            assert_eq!(rt; status.as_str(), "smc: 1 bad words", "at {case}");
            assert!(rt; held.is_empty());
        }
        Ok(())
    }
}
