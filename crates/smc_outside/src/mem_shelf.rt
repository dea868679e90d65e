ghost use Rattle.std.specs.Prelude.{◌≡◌, ◌≤◌, length, is_err, None, Some, [], map, string_bytes, IfSome, IfNone};
ghost use Rattle.smc_outside.specs.Causes.{HasCause};
ghost use Rattle.smc_outside.specs.InMemory.{is_listed};
ghost use Rattle.smc_outside.specs.Shelves.{Fetches, FetchesAtMost, IsPiece, after_fetch, file_named};

use crate::calls::Calls;
use crate::copy::copy_front;
use crate::failed::Faults;
use crate::{Failed, Shelf};
use std::marker::Model;

/// Files in memory, whose calls fail exactly where its maker says.
///
/// Its calls are numbered from 0. The number and the count of faults stand still at their last value, 2^64 - 1: should
/// so many calls ever be made, the later ones all have this number.
#[derive(Drop)]
pub struct MemShelf {
    files: Vec<(String, Vec<u8>)>,
    calls: Calls,
    faults: Faults,
}

impl Model for MemShelf {
    ghost use Rattle.std.specs.Prelude.{map, string_bytes};
    ghost use Rattle.smc_outside.specs.Shelves.{ShelfInMemory};

    ghost Value = { ShelfInMemory };

    ghost view = { λ s. record {
      files = map (λ file. (string_bytes file.0, file.1.items)) s.files.items;
      fails = s.calls.fails.items;
      calls = s.calls.made;
      faults = s.faults;
    } };
}

impl MemShelf {
    /// A shelf of these files, where the calls with the numbers in `fails` fail. The first of equal names counts.
    pub fn new(files: Vec<(String, Vec<u8>)>, fails: Vec<u64>) -> Self
        ensures { result ≡ record {
          files = map (λ file. (string_bytes file.0, file.1.items)) files.items;
          fails = fails.items;
          calls = 0;
          faults = 0;
        } }
    {
        MemShelf {
            files,
            calls: Calls::none(fails),
            faults: Faults::none(),
        }
    }
}

// The bytes of the first file of that name.
fn find_file<'a>(files: &'a [(String, Vec<u8>)], name: &str) -> Option<&'a [u8]>
    ensures some { IfSome result (λ bytes. file_named (map (λ file. (string_bytes file.0, file.1.items)) files.now) name.now ≡ Some bytes.now) }
    ensures none { IfNone result (file_named (map (λ file. (string_bytes file.0, file.1.items)) files.now) name.now ≡ None) }
{
    for file in files {
        if name == file.0.as_str() {
            return Some(file.1.as_slice());
        }
    }
    None
}

// Copies the bytes of a file from that place on, as many as there is room for.
fn copy_from(bytes: &[u8], at: u64, buf: &mut [u8]) -> usize
    ensures piece { IsPiece bytes.now at result buf.new }
    ensures bound { result ≤ length buf.new }
{
    let start = if at < bytes.len() as u64 {
        at as usize
    } else {
        bytes.len()
    };
    let (_, rest) = bytes.split_at(start);
    copy_front(rest, usize::MAX, buf)
}

impl Shelf for MemShelf {
    ghost files = { λ s. Some s.files };

    ghost faults = { λ s. s.faults };

    fn fetch(&mut self, name: &str, at: u64, buf: &mut [u8]) -> Result<Option<usize>, Failed>
        ensures bound { FetchesAtMost result buf.new }
        ensures bytes { Fetches (Some self.old.files) name.now at result buf.new }
        ensures kept { Some self.new.files ≡ Some self.old.files }
        ensures cause { HasCause self.old.faults self.new.faults result }

        // It fails exactly where the list names the call.
        ensures fails { is_err result ≡ is_listed self.old.fails self.old.calls }
        ensures after { self.new ≡ after_fetch self.old result }
    {
        if self.calls.count() {
            return Err(self.faults.raise());
        }
        match find_file(&self.files, name) {
            Some(bytes) => Ok(Some(copy_from(bytes, at, buf))),
            None => Ok(None),
        }
    }
}

#[cfg(test)]
mod tests {
    use super::*;
    use std::test::Fail;

    #[test]
    fn files_are_found_by_name_from_any_place(rt: HostRuntime) -> Result<(), Fail> {
        let alloc = rt.alloc();
        let mut files = Vec::new(alloc);
        for (name, bytes) in [("a", "abcdef"), ("b", ""), ("a", "second")] {
            files.push((name.to_string(alloc)?, bytes.as_bytes().to_vec(alloc)?))?;
        }
        let mut shelf = MemShelf::new(files, [2].to_vec(alloc)?);
        // The name, the place, the room, and what comes, where "!" is a failure and "-" no file.
        let cases = [
            ("a", 0, 4, "abcd"),
            ("a", 4, 4, "ef"),
            ("a", 0, 4, "!"),
            ("a", 6, 4, ""),
            ("a", u64::MAX, 4, ""),
            ("a", 3, 0, ""),
            ("b", 0, 4, ""),
            ("c", 0, 4, "-"),
            ("", 0, 4, "-"),
        ];
        for (case, (name, at, room, want)) in cases.iter().enumerate() {
            let mut buf = [b'.'; 4];
            match shelf.fetch(name, *at, &mut buf[..*room]) {
                Ok(Some(count)) => assert_eq!(rt; buf[..count], *want.as_bytes(), "at {case}"),
                Ok(None) => assert_eq!(rt; *want, "-", "at {case}"),
                Err(Failed) => assert_eq!(rt; *want, "!", "at {case}"),
            }
        }
        Ok(())
    }
}
