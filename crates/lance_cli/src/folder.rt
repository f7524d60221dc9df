// A store in a folder of the file system, which tells nothing of its objects.
ghost use Rattle.std.specs.Prelude.{◌≡◌, ◌^◌, ◌+◌, ◌≤◌, ◌<◌, None, length, OnOk, OnErr, take, IfOk};
ghost use Rattle.lan_store.specs.Causes.{Rose};
ghost use Rattle.lan_store.specs.Objects.{nothing_told};

use lan_model::{Blob, Text};
use lan_store::{Dir, GetFault, ListFault, Name, Names, Put, PutFault, SizeFault, Store};
use std::alloc::{AllocError, Global};
use std::fs::OpenFile;
use std::io::{ErrorKind, Read, Seek, SeekFrom, Write};
use std::path::Path;
use std::rt::Files;
use std::{fs, io};

/// A dataset's folder, whose objects are the regular files in the folders of the three prefixes.
///
/// A put writes `NAME.tmp`, syncs it, tests that no file has the name, renames, and syncs the
/// folder, and each folder above it that got a new one. It tells nothing of its objects: what a file system holds is no matter of proof.
#[derive(Drop)]
pub struct FolderStore<R: Files + AllocGlobal + Clone + Drop> {
    rt: R,
    folder: Text,
    faults: u64,
    gets: u64,
    got: u64,
    clashes: u64,
}

const PIECE: usize = 65536;

fn is_memory(error: &io::Error) -> bool {
    error.kind() == ErrorKind::OutOfMemory
}

fn is_missing(error: &io::Error) -> bool {
    error.kind() == ErrorKind::NotFound
}

// The file's path, with this behind it.
fn path_of(
    alloc: Global,
    folder: &Text,
    dir: Dir,
    rest: &str,
    end: &str,
) -> Result<String, AllocError> {
    let folder = folder.as_str();
    let prefix = dir.prefix();
    format!(in alloc; "{folder}/{prefix}{rest}{end}")
}

// The part of a file, or nothing where it ends before.
fn part_of<R: Files + AllocGlobal>(
    rt: &R,
    path: &str,
    at: u64,
    len: u64,
) -> io::Result<Option<Vec<u8>>>
    requires { at + len ≤ 2 ^ 63 }
{
    let mut file = fs::open(rt, path)?;
    if file.metadata()?.len() < at + len {
        return Ok(None);
    }
    file.seek(SeekFrom::Start(at))?;
    let mut bytes = Vec::new(rt.alloc());
    let mut piece = [0u8; PIECE];
    let mut left = len as usize;
    for _ in 0..u64::MAX {
        if left == 0 {
            return Ok(Some(bytes));
        }
        let want = left.min(PIECE);
        let n = file.read(&mut piece[..want])?;
        if n == 0 {
            return Ok(None);
        }
        bytes.extend_from_slice(&piece[..n])?;
        left -= n;
    }
    Err(ErrorKind::Other.into())
}

// The names of the regular files in a folder; none where there is no such folder.
fn names_in<R: Files + AllocGlobal + Clone + Drop>(
    rt: &R,
    path: &str,
    dir: Dir,
) -> io::Result<Names> {
    let mut names = Vec::new(rt.alloc());
    let entries = match fs::read_dir(rt, path) {
        Ok(entries) => entries,
        Err(error) if is_missing(&error) => return Ok(Names::from_vec(names)),
        Err(error) => return Err(error),
    };
    for entry in entries {
        let entry = entry?;
        let rest = entry.file_name();
        if !rest.ends_with(".tmp") && entry.file_type()?.is_file() {
            names.push(Name::of(rt.alloc(), dir, rest)?)?;
        }
    }
    names.sort_by(|a, b| a.rest.as_str().cmp(b.rest.as_str()))?;
    Ok(Names::from_vec(names))
}

// Makes what was written to a folder's list of names outlast a power cut.
fn sync_folder<R: Files + AllocGlobal>(rt: &R, path: &str) -> io::Result<()> {
    fs::open(rt, path)?.sync_all()
}

// The folders above this absent one, up to the first that is there: each gets an entry when it is made.
fn folders_above<'a, R: Files + AllocGlobal>(rt: &R, path: &'a str) -> io::Result<Vec<&'a str>> {
    let mut above = Vec::new(rt.alloc());
    for folder in Path::new(path).ancestors().skip(1) {
        let folder = match folder.as_str() {
            "" => ".",
            named => named,
        };
        above.push(folder)?;
        if fs::exists(rt, folder)? {
            break;
        }
    }
    Ok(above)
}

// Makes the folder of the prefix where it is absent, with those above it.
fn make_folder<R: Files + AllocGlobal>(rt: &R, path: &str) -> io::Result<()> {
    if fs::exists(rt, path)? {
        return Ok(());
    }
    let above = folders_above(rt, path)?;
    fs::create_dir_all(rt, path)?;
    for folder in above {
        sync_folder(rt, folder)?;
    }
    Ok(())
}

fn write_file<R: Files + AllocGlobal>(rt: &R, path: &str, bytes: &[u8]) -> io::Result<()> {
    let mut file = fs::create(rt, path)?;
    file.write_all(bytes)?;
    file.sync_all()
}

// Writes the bytes beside the name, syncs them, and gives them the name where nothing has it.
fn put<R: Files + AllocGlobal>(
    rt: &R,
    folder: &Text,
    name: &Name,
    bytes: &[u8],
) -> io::Result<Put> {
    let alloc = rt.alloc();
    let rest = name.rest.as_str();
    let inside = path_of(alloc, folder, name.dir, "", "")?;
    let path = path_of(alloc, folder, name.dir, rest, "")?;
    let beside = path_of(alloc, folder, name.dir, rest, ".tmp")?;
    make_folder(rt, inside.as_str())?;
    write_file(rt, beside.as_str(), bytes)?;
    if fs::exists(rt, path.as_str())? {
        return Ok(Put::Exists);
    }
    fs::rename(rt, beside.as_str(), path.as_str())?;
    sync_folder(rt, inside.as_str())?;
    Ok(Put::Done)
}

impl<R: Files + AllocGlobal + Clone + Drop> FolderStore<R> {
    pub fn new(rt: R, folder: Text) -> FolderStore<R> {
        FolderStore {
            rt,
            folder,
            faults: 0,
            gets: 0,
            got: 0,
            clashes: 0,
        }
    }

    fn fail(&mut self)
        ensures { Rose self.old.faults self.new.faults × (self.old.faults ≤ self.new.faults) × (self.new.gets ≡ self.old.gets) × (self.new.got ≡ self.old.got) × (self.new.clashes ≡ self.old.clashes) }
    {
        self.faults = self.faults.saturating_add(1);
    }
}

impl<R: Files + AllocGlobal + Clone + Drop> Store for FolderStore<R> {
    ghost tells = { λ s. record { objects = None; failed = None; faults = s.faults; gets = s.gets; got = s.got; clashes = s.clashes } };

    ghost distinct = { λ _. nothing_told };

    fn size(&mut self, alloc: Global, name: &Name) -> Result<u64, SizeFault> {
        let Ok(path) = path_of(alloc, &self.folder, name.dir, name.rest.as_str(), "") else {
            return Err(SizeFault::Memory);
        };
        match fs::metadata(&self.rt, path.as_str()) {
            Ok(found) if found.is_file() => Ok(found.len()),
            Ok(_) => Err(SizeFault::Missing),
            Err(error) if is_missing(&error) => Err(SizeFault::Missing),
            Err(error) if is_memory(&error) => Err(SizeFault::Memory),
            Err(_) => {
                self.fail();
                Err(SizeFault::Failed)
            }
        }
    }

    fn get(
        &mut self,
        alloc: Global,
        name: &Name,
        at: u64,
        len: u64,
        into: &mut Blob,
    ) -> Result<(), GetFault> {
        self.gets = self.gets.saturating_add(1);
        self.got = self.got.saturating_add(len);
        let Ok(path) = path_of(alloc, &self.folder, name.dir, name.rest.as_str(), "") else {
            return Err(GetFault::Memory);
        };
        match part_of(&self.rt, path.as_str(), at, len) {
            Ok(Some(bytes)) => match into.extend(bytes.as_slice()) {
                Ok(()) => Ok(()),
                Err(_) => Err(GetFault::Memory),
            },
            Ok(None) => Err(GetFault::Short),
            Err(error) if is_missing(&error) => Err(GetFault::Missing),
            Err(error) if is_memory(&error) => Err(GetFault::Memory),
            Err(_) => {
                self.fail();
                Err(GetFault::Failed)
            }
        }
    }

    fn list(&mut self, alloc: Global, dir: Dir, into: &mut Names) -> Result<(), ListFault> {
        let Ok(path) = path_of(alloc, &self.folder, dir, "", "") else {
            return Err(ListFault::Memory);
        };
        match names_in(&self.rt, path.as_str(), dir) {
            Ok(names) => {
                *into = names;
                Ok(())
            }
            Err(error) if is_memory(&error) => Err(ListFault::Memory),
            Err(_) => {
                self.fail();
                Err(ListFault::Failed)
            }
        }
    }

    fn put_if_absent(
        &mut self,
        _alloc: Global,
        name: &Name,
        bytes: &[u8],
    ) -> Result<Put, PutFault> {
        match put(&self.rt, &self.folder, name, bytes) {
            Ok(Put::Done) => Ok(Put::Done),
            Ok(Put::Exists) => {
                self.clashes = self.clashes.saturating_add(1);
                Ok(Put::Exists)
            }
            Err(error) if is_memory(&error) => Err(PutFault::Memory),
            Err(_) => {
                self.fail();
                Err(PutFault::Failed)
            }
        }
    }
}
