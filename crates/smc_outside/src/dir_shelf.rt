// The files of the current folder, by name: the trusted edge, which tells no content of a file.
ghost use Rattle.std.specs.Prelude.{◌≡◌, ◌≤◌, ◌+◌, false, length, None, Some, Ok, IfOk, IfSome, string_bytes};
ghost use Rattle.std.specs.Option.{option_map};
ghost use Rattle.std.specs.Path.{IsWellFormedComponent, component_bytes};
ghost use Rattle.smc_outside.specs.Causes.{HasCause, faults_after};
ghost use Rattle.smc_outside.specs.Folder.{is_inside, leads_out};
ghost use Rattle.smc_outside.specs.Shelves.{Fetches, FetchesAtMost};

use crate::failed::Faults;
use crate::{Failed, Shelf};
use std::alloc::Global;
use std::io::{ErrorKind, Read, Seek, SeekFrom};
use std::path::{Component, Path};
use std::rt::Files;
use std::{fs, io};

// A file that is being read, and the place behind the bytes that came last.
#[derive(Drop)]
struct Opened<F: Drop> {
    // Nothing where there was no memory for it: the file is then opened again for its next piece.
    name: Option<String>,
    file: F,
    place: u64,
}

/// The files of the current folder and of those below it, with a count of its errors.
///
/// A name is taken relative to the current folder. One that leads out of it, an absolute name or one with a part `..`,
/// is the name of no file here. A name that is missing is the name of no file; a folder, or what else can't be opened,
/// sought or read, is a fault. A file whose pieces are fetched one behind the other is opened once, at its first piece.
/// Should it be replaced or removed meanwhile, the later pieces come from the file that was opened.
#[derive(Drop)]
pub struct DirShelf<R: Files + Drop> {
    files: R,
    alloc: Global,
    last: Option<Opened<R::File>>,
    faults: Faults,
}

impl<R: Files + Drop> DirShelf<R> {
    /// The shelf of the current folder, of which no call has failed. Files are opened by `files`.
    pub fn new(alloc: Global, files: R) -> Self
        ensures files { ⟦<DirShelf<R> as Shelf>⟧.files result ≡ None }
        ensures faults { ⟦<DirShelf<R> as Shelf>⟧.faults result ≡ 0 }
    {
        DirShelf {
            files,
            alloc,
            last: None,
            faults: Faults::none(),
        }
    }
}

// Whether the name stays within a folder.
fn is_inside(name: &str) -> bool
    ensures { result ≡ is_inside name.now }
{
    for part in Path::new(name).components() {
        if leads_out(part) {
            return false;
        }
    }
    true
}

// Whether a part of a name leads out of a folder.
fn leads_out(part: Component<'_>) -> bool
    requires { IsWellFormedComponent part }
    ensures { result ≡ leads_out (component_bytes part.entry) }
{
    matches!(part, Component::RootDir | Component::ParentDir)
}

// The file that was read last, where this name and place go on with it.
fn going_on<F: Drop>(last: Option<Opened<F>>, name: &str, at: u64) -> Option<Opened<F>>
    ensures last { IfSome result (λ opened. last ≡ Some opened) }
    ensures name { IfSome result (λ opened. option_map string_bytes opened.name ≡ Some name.now) }
    ensures place { IfSome result (λ opened. opened.place ≡ at) }
{
    let opened = last?;
    let same = match &opened.name {
        Some(other) => other.as_str() == name,
        None => false,
    };
    if same && opened.place == at {
        Some(opened)
    } else {
        None
    }
}

// Opens a file at a place. Nothing where no file has the name.
fn open_at<R: Files>(files: &R, name: &str, at: u64) -> io::Result<Option<R::File>> {
    let mut file = match fs::open(files, name) {
        Ok(file) => file,
        Err(error) if error.kind() == ErrorKind::NotFound => return Ok(None),
        Err(error) => return Err(error),
    };
    if at > 0 {
        file.seek(SeekFrom::Start(at))?;
    }
    Ok(Some(file))
}

// The file of this name at this place: the last one, or one that is opened here.
fn find_file<R: Files>(
    files: &R,
    alloc: Global,
    last: Option<Opened<R::File>>,
    name: &str,
    at: u64,
) -> io::Result<Option<Opened<R::File>>>
    ensures place { IfOk result (λ found. IfSome found (λ opened. opened.place ≡ at)) }
    ensures name { IfOk result (λ found. IfSome found (λ opened. IfSome opened.name (λ own. string_bytes own ≡ name.now))) }
{
    if let Some(opened) = going_on(last, name, at) {
        return Ok(Some(opened));
    }
    let Some(file) = open_at(files, name, at)? else {
        return Ok(None);
    };
    Ok(Some(Opened {
        name: name.to_string(alloc).ok(),
        file,
        place: at,
    }))
}

// The file behind a piece of so many bytes. At its end it is closed.
fn behind<F: Drop>(mut opened: Opened<F>, count: usize) -> Option<Opened<F>>
    ensures place { IfSome result (λ next. next.place ≡ opened.place + count) }
    ensures name { IfSome result (λ next. next.name ≡ opened.name) }
{
    if count == 0 {
        return None;
    }
    opened.place = opened.place.checked_add(count as u64)?;
    Some(opened)
}

// Reads the next piece of a file. After a fault it is closed.
fn read_on<F: Read + Drop>(
    mut opened: Opened<F>,
    buf: &mut [u8],
    last: &mut Option<Opened<F>>,
) -> io::Result<usize>
    ensures bound { IfOk result (λ count. count ≤ length buf.new) }
    ensures place { IfOk result (λ count. IfSome last.new (λ next. next.place ≡ opened.place + count)) }
    ensures name { IfOk result (λ count. IfSome last.new (λ next. next.name ≡ opened.name)) }
{
    let count = opened.file.read(buf)?;
    *last = behind(opened, count);
    Ok(count)
}

impl<R: Files + Drop> DirShelf<R> {
    // Reads a piece of the file of that name. Nothing where no file has the name.
    fn read_piece(&mut self, name: &str, at: u64, buf: &mut [u8]) -> io::Result<Option<usize>>
        ensures bound { IfOk result (λ answer. IfSome answer (λ count. count ≤ length buf.new)) }
        ensures faults { self.new.faults ≡ self.old.faults }
    {
        let last = self.last.take();
        let Some(opened) = find_file(&self.files, self.alloc, last, name, at)? else {
            return Ok(None);
        };
        let count = read_on(opened, buf, &mut self.last)?;
        Ok(Some(count))
    }
}

impl<R: Files + Drop> Shelf for DirShelf<R> {
    ghost files = { λ _. None };

    ghost faults = { λ s. s.faults };

    fn fetch(&mut self, name: &str, at: u64, buf: &mut [u8]) -> Result<Option<usize>, Failed>
        ensures bound { FetchesAtMost result buf.new }
        ensures bytes { let files = ⟦<DirShelf<R> as Shelf>⟧.files in
            Fetches (files self.old) name.now at result buf.new }
        ensures kept { let files = ⟦<DirShelf<R> as Shelf>⟧.files in files self.new ≡ files self.old }
        ensures cause { let faults = ⟦<DirShelf<R> as Shelf>⟧.faults in
            HasCause (faults self.old) (faults self.new) result }
        ensures counted { let faults = ⟦<DirShelf<R> as Shelf>⟧.faults in
            faults self.new ≡ faults_after (faults self.old) result }

        // A name that leads out of the folder is no file's, and nothing is opened or read.
        ensures outside { is_inside name.now ≡ false → (result ≡ Ok None) × (self.new ≡ self.old) × (buf.new ≡ buf.old) }
    {
        if !is_inside(name) {
            return Ok(None);
        }
        match self.read_piece(name, at, buf) {
            Ok(count) => Ok(count),
            Err(_) => Err(self.faults.raise()),
        }
    }
}

#[cfg(test)]
mod tests {
    use super::*;
    use std::test::Fail;

    // What a fetch gives, where "-" is no file and "!" a fault.
    fn piece<R: Files + Drop>(
        shelf: &mut DirShelf<R>,
        alloc: Global,
        name: &str,
        at: u64,
    ) -> Result<String, Fail> {
        let mut buf = [0; 4];
        let bytes = match shelf.fetch(name, at, &mut buf) {
            Ok(Some(count)) => &buf[..count],
            Ok(None) => b"-",
            Err(Failed) => b"!",
        };
        Ok(String::from_utf8_lossy(alloc, bytes)?)
    }

    #[test]
    fn files_of_the_folder_are_read(rt: HostRuntime) -> Result<(), Fail> {
        fs::write(&rt, "shelf.txt", "abcdefgh")?;
        let mut shelf = DirShelf::new(rt.alloc(), &rt);
        let cases = [
            ("shelf.txt", 0, "abcd"),
            ("./shelf.txt", 1, "bcde"),
            ("shelf.txt", 8, ""),
            ("shelf.txt", 9, ""),
            ("shelf.txt", u64::MAX, "!"),
            ("nowhere", 0, "-"),
            ("nowhere/shelf.txt", 0, "-"),
            ("", 0, "-"),
            (".", 0, "!"),
            ("shelf.txt/", 0, "!"),
            ("/dev/null", 0, "-"),
            ("..", 0, "-"),
            ("./../shelf.txt", 0, "-"),
            ("nowhere/../shelf.txt", 0, "-"),
            ("..shelf.txt", 0, "-"),
            ("shelf.txt", 0, "abcd"),
        ];
        for (name, at, want) in cases {
            let got = piece(&mut shelf, rt.alloc(), name, at)?;
            assert_eq!(rt; got.as_str(), want, "at {name} {at}");
        }
        // The file goes on to be read where it was left, and is opened no more.
        fs::remove_file(&rt, "shelf.txt")?;
        for (at, want) in [(4, "efgh"), (8, ""), (8, "-"), (0, "-")] {
            let got = piece(&mut shelf, rt.alloc(), "shelf.txt", at)?;
            assert_eq!(rt; got.as_str(), want, "at {at}");
        }
        Ok(())
    }
}
