//! The rooms that a script asks for, in the order of the tables' numbers.
ghost use Rattle.std.specs.Prelude.{◌≡◌, ◌≤◌, map, length, None, Some, Ok, IfOk, nat_lt};
ghost use Rattle.std.specs.List.{prefix_len};
ghost use Rattle.smc_shape.specs.declared.shape.TheConstants.{MAX_COLLS};
ghost use Rattle.smc_script.specs.Faults as fault;
ghost use Rattle.smc_script.specs.Faults.{is_too_large};
ghost use Rattle.smc_script.specs.States as state;
ghost use Rattle.smc_script.specs.States.{colls_of, place_of, room_at, with_room};

use crate::script::{Place, Room};
use crate::state::Asked;
use crate::table::table_width;
use smc_shape::{CollShape, MAX_PASSES, Shape};
use smc_types::Catalog;
use smc_words::NoMemory;
use std::alloc::Global;

// Where the room of a table stands among the rooms.
fn room_at(rooms: &[Asked], table: u32) -> Option<usize>
    ensures { result ≡ room_at rooms.now table }
{
    rooms.iter().position(|room| room.table == table)
}

pub fn has_room(rooms: &[Asked], table: u32) -> bool
    ensures { result ≡ fault.has_room rooms.now table }
{
    room_at(rooms, table).is_some()
}

// The place of a table that has a room.
pub fn place_of(rooms: &[Asked], table: u32) -> Place
    requires { length rooms.now ≤ MAX_COLLS }
    ensures { result ≡ place_of rooms.now table }
{
    let coll = match room_at(rooms, table) {
        Some(coll) => coll as u8,
        None => 0,
    };
    Place { table, coll }
}

// The rooms with their places.
pub fn placed_rooms(alloc: Global, rooms: &[Asked]) -> Result<Vec<Room>, NoMemory>
    requires { length rooms.now ≤ MAX_COLLS }
    ensures { IfOk result (λ all. all.items ≡ map (state.placed rooms.now) rooms.now) }
{
    let mut all = Vec::with_capacity(alloc, rooms.len())?;
    for asked in rooms {
        all.push(Room {
            place: place_of(rooms, asked.table),
            slots: asked.slots,
        })?;
    }
    Ok(all)
}

// How many rooms are those of tables with a smaller number.
fn rooms_before(rooms: &[Asked], table: u32) -> usize
    ensures { result ≡ prefix_len (λ other. nat_lt other.table table) rooms.now }
{
    rooms.iter().take_while(|other| other.table < table).count()
}

// The rooms with one more.
pub fn with_room(alloc: Global, rooms: &[Asked], asked: Asked) -> Result<Vec<Asked>, NoMemory>
    ensures { IfOk result (λ more. more.items ≡ with_room asked rooms.now) }
{
    let mut more = Vec::from_slice(alloc, rooms)?;
    more.insert(rooms_before(rooms, asked.table), asked)?;
    Ok(more)
}

// The collections of a region with these rooms.
fn colls_of(alloc: Global, catalog: &Catalog, rooms: &[Asked]) -> Result<Vec<CollShape>, NoMemory>
    ensures { IfOk result (λ colls. colls.items ≡ colls_of catalog.now rooms.now) }
{
    let mut colls = Vec::with_capacity(alloc, rooms.len())?;
    for room in rooms {
        colls.push(CollShape {
            width: table_width(catalog, room.table),
            slots: room.slots,
        })?;
    }
    Ok(colls)
}

// Whether no region has these rooms, also with as many passes as a script can have.
//
// The words of a collection are whole multiples of 64, so fewer passes make room for no more.
pub fn is_too_large(alloc: Global, catalog: &Catalog, rooms: &[Asked]) -> Result<bool, NoMemory>
    ensures { IfOk result (λ large. large ≡ is_too_large catalog.now rooms.now) }
{
    let colls = colls_of(alloc, catalog, rooms)?;
    match Shape::new(MAX_PASSES, colls) {
        Ok(_) => Ok(false),
        Err(_) => Ok(true),
    }
}
