//! A command outside a group.
ghost use Rattle.std.specs.Prelude.{◌≡◌, ◌<◌, false, IfOk, length, map};
ghost use Rattle.smc_region.specs.Callers.{IsPassOf, IsSame};
ghost use Rattle.smc_does.specs.Does.{DoesSome, OwnsNone};
ghost use Rattle.smc_script.specs.Trees.{command_tree};
ghost use Rattle.smc_types.specs.Tables.{the_tables};
ghost use Rattle.smc_desk.specs.Scenes.{scene_of, seen};
ghost use Rattle.smc_load.specs.Files.{Told};
ghost use Rattle.smc_replies.specs.Commands.{CanRun, Counts, PacksTable, RunsCommand, is_load, objects_line};

use crate::books::Books;
use crate::edits::{delete, update};
use crate::objects::{add, get, remove, set};
use crate::queries::query;
use crate::reply::{Reply, dropped_line, objects_line, packed_reply};
use crate::tables::table_name;
use smc_compact::pack;
use smc_folds::{Bench, Fold};
use smc_objects::count_objects;
use smc_region::{Pass, Region};
use smc_replies::COMPACT_TURNS;
use smc_script::{Command, FoldNames, Place};
use smc_types::Catalog;
use smc_words::NoMemory;
use std::alloc::Global;

/// Counts the objects of a collection, by one scan in a section of its own.
fn stat(alloc: Global, coll: u8, pass: Pass, region: &Region) -> (Pass, Result<Reply, NoMemory>)
    requires here { IsPassOf region.now pass }
    requires coll { coll < length region.now.about.shape.colls }
    ensures done { IfOk result.1 (λ reply. DoesSome pass result.0 (λ calls. Counts objects_line coll calls reply)) }
    ensures home { IsSame pass result.0 × (OwnsNone pass → OwnsNone result.0) }
{
    let (pass, count) = count_objects(pass, region, coll);
    (pass, objects_line(alloc, count))
}

/// Packs a table by a drive, and counts its objects afterwards.
fn compact(
    alloc: Global,
    place: Place,
    catalog: &Catalog,
    pass: Pass,
    region: &Region,
) -> (Pass, Result<Reply, NoMemory>)
    requires here { IsPassOf region.now pass }
    requires tables { catalog.now ≡ the_tables }
    requires coll { place.coll < length region.now.about.shape.colls }
    requires free { OwnsNone pass }
    ensures done { IfOk result.1 (λ reply. DoesSome pass result.0 (λ calls. PacksTable place calls reply)) }
    ensures home { IsSame pass result.0 × OwnsNone result.0 }
{
    let (pass, packed) = pack(pass, region, place.coll, COMPACT_TURNS);
    (
        pass,
        packed_reply(alloc, table_name(catalog, place.table), packed),
    )
}

/// Runs one command outside a group, which reads no file. Answers its reply.
///
/// # Errors
/// Memory was refused. The command may have been run, and there is no reply.
pub fn one(
    alloc: Global,
    c: &Command,
    catalog: &Catalog,
    folds: &FoldNames,
    books: &mut Books,
    bench: &mut Bench,
    pass: Pass,
    region: &Region,
) -> (Pass, Result<Reply, NoMemory>)
    requires here { IsPassOf region.now pass }
    requires free { OwnsNone pass }
    requires tables { catalog.now ≡ the_tables }
    requires can { CanRun region.now.about.shape folds.now (command_tree c.now) }
    requires plain { is_load (command_tree c.now) ≡ false }
    ensures done { (files : Told) → IfOk result.1 (λ reply. DoesSome pass result.0 (λ calls.
        RunsCommand (scene_of files region.now.about.shape folds.now) (command_tree c.now)
        (seen books.old (map (λ b. (⟦<dyn Fold as Fold>⟧ b.fold.vtable).kind b.fold.value) bench.old.boxes.items))
        (seen books.new (map (λ b. (⟦<dyn Fold as Fold>⟧ b.fold.vtable).kind b.fold.value) bench.new.boxes.items)) calls reply)) }
    ensures home { IsSame pass result.0 × OwnsNone result.0 }
{
    match c {
        Command::Stat { place } => stat(alloc, place.coll, pass, region),
        Command::Query {
            place,
            query: asked,
        } => query(alloc, *place, asked, catalog, folds, bench, pass, region),
        Command::Compact { place } => compact(alloc, *place, catalog, pass, region),
        Command::Add { place, name, row } => {
            add(alloc, *place, name, row, catalog, books, pass, region)
        }
        Command::Get { place, name } => get(alloc, *place, name, catalog, books, pass, region),
        Command::Set {
            place,
            name,
            column,
            value,
        } => set(
            alloc, *place, name, column, value, catalog, books, pass, region,
        ),
        Command::Remove { place, name } => remove(alloc, *place, name, books, pass, region),
        Command::Delete { place, filter } => delete(alloc, *place, filter, catalog, pass, region),
        Command::Update {
            place,
            column,
            value,
            filter,
        } => update(
            alloc,
            *place,
            column,
            value,
            filter.as_ref(),
            catalog,
            pass,
            region,
        ),
        Command::DropFold { name } => {
            bench.drop_one(name.as_str());
            (pass, dropped_line(alloc, name.as_str()))
        }
        Command::Load { .. } => unreachable!(),
    }
}
