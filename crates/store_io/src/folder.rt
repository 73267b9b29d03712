//! A folder of the system as a store: the edge where the real files are.

use crate::errors::StoreError;
use crate::order::names_among;
use crate::store::Store;
use std::alloc::{AllocError, Global};
use std::collections::BTreeSet;
use std::fs::{OpenFile, OpenOptions};
use std::io::Write;
use std::rt::Files;
use std::{fs, io};
use text_num::Name;

/// The file that a write fills before it takes the name's place. The blank keeps it from being a name itself.
const ASIDE: &str = "new file";

/// A folder of the system, which must be there. It tells nothing of its files, since no contract can say what a disk
/// keeps.
///
/// A write fills a file beside the others, brings it to the disk, renames it and brings the folder to the disk; so a
/// name's bytes are never seen torn, and after `Ok` they are on the disk. A removal brings the folder to the disk too.
/// `Memory` is answered only while the folder is as before the call.
#[derive(Drop)]
pub struct DirStore<'a, R> {
    rt: &'a R,
    path: String,
    faults: u64,
}

impl<'a, R: Files + AllocGlobal> DirStore<'a, R> {
    ghost use Rattle.std.specs.Prelude.{◌≡◌, None, IsErr};
    ghost use Rattle.store_io.specs.Folder.{folder_faults, folder_path};
    ghost use Rattle.store_io.specs.Outcomes.{HasStoreCause};

    /// A store over the folder at this path. No call is made.
    pub fn at(rt: &'a R, path: String) -> DirStore<'a, R>
        ensures path { folder_path result ≡ path }
        ensures faults { folder_faults result ≡ 0 }
    {
        DirStore {
            rt,
            path,
            faults: 0,
        }
    }

    /// Brings a change of the folder to the disk. Whatever stops this is a fault, want of memory too, since the folder is
    /// no longer as before the call.
    fn sync_change(&mut self) -> Result<(), StoreError>
        ensures cause { HasStoreCause (folder_faults self.old) (folder_faults self.new) result }
    {
        match sync_folder(self.rt, &self.path) {
            Ok(()) => Ok(()),
            Err(_) => {
                self.faults = self.faults.saturating_add(1);
                Err(StoreError::Failed)
            }
        }
    }

    /// What the system refused for want of memory, before it changed the folder, is no fault of the store; any other error
    /// counts as one.
    fn refuse<T>(&mut self, fault: io::Error) -> Result<T, StoreError>
        ensures refused { IsErr result }
        ensures cause { HasStoreCause (folder_faults self.old) (folder_faults self.new) result }
    {
        if fault.kind() == io::ErrorKind::OutOfMemory {
            return Err(StoreError::Memory);
        }
        self.faults = self.faults.saturating_add(1);
        Err(StoreError::Failed)
    }
}

impl<'a, R: Files + AllocGlobal + Clone + Drop> Store for DirStore<'a, R> {
    ghost use Rattle.std.specs.Prelude.{ℕ, None};
    ghost use Rattle.store_io.specs.Files.{Files};
    ghost use Rattle.store_io.specs.Folder.{folder_faults, untold};

    type Origin = ();

    ghost origin = { λ s. tt };

    ghost files = { λ s. None };

    ghost faults = { folder_faults };

    ghost moment = { λ s. 0 };

    ghost left_since = { λ s t c. ⊥ };

    ghost present = { λ s f told. untold f told };

    ghost lasting = { λ s t c earlier now. now };

    fn names(&mut self, alloc: Global) -> Result<Vec<Name>, StoreError> {
        match listing(alloc, self.rt, &self.path) {
            Ok(texts) => {
                let names = names_among(alloc, texts)?;
                Ok(names)
            }
            Err(fault) => self.refuse(fault),
        }
    }

    fn read(&mut self, alloc: Global, name: &Name) -> Result<Option<Vec<u8>>, StoreError> {
        let path = path_of(alloc, &self.path, name)?;
        match read_file(self.rt, &path) {
            Ok(found) => Ok(found),
            Err(fault) => self.refuse(fault),
        }
    }

    fn write(&mut self, alloc: Global, name: &Name, bytes: &[u8]) -> Result<(), StoreError> {
        let path = path_of(alloc, &self.path, name)?;
        let folder = &self.path;
        let aside = format!(in alloc; "{folder}/{ASIDE}")?;
        match replace(self.rt, &aside, &path, bytes) {
            Ok(()) => self.sync_change(),
            Err(fault) => self.refuse(fault),
        }
    }

    fn remove(&mut self, alloc: Global, name: &Name) -> Result<(), StoreError> {
        let path = path_of(alloc, &self.path, name)?;
        match remove_file(self.rt, &path) {
            Ok(true) => self.sync_change(),
            Ok(false) => Ok(()),
            Err(fault) => self.refuse(fault),
        }
    }
}

/// The path of a name in a folder.
fn path_of(alloc: Global, folder: &str, name: &Name) -> Result<String, AllocError> {
    let mut path = format!(in alloc; "{folder}/")?;
    for byte in name.bytes() {
        path.push(char::from(*byte))?;
    }
    Ok(path)
}

/// The names of a folder's entries; an entry whose name is no text is an error.
fn listing<R: Files + AllocGlobal + Clone + Drop>(
    alloc: Global,
    rt: &R,
    folder: &str,
) -> io::Result<BTreeSet<Vec<u8>>> {
    let mut texts = BTreeSet::new(alloc);
    for entry in fs::read_dir(rt, folder)? {
        let entry = entry?;
        texts.insert(Vec::from_slice(alloc, entry.file_name().as_bytes())?)?;
    }
    Ok(texts)
}

/// The bytes of a regular file, or of one that a link leads to. Nothing else is opened: the opening of a pipe would wait
/// until somebody writes to it.
fn read_file<R: Files + AllocGlobal>(rt: &R, path: &str) -> io::Result<Option<Vec<u8>>> {
    match fs::metadata(rt, path) {
        Ok(entry) if entry.is_file() => Ok(Some(fs::read(rt, path)?)),
        Ok(_) => Err(io::Error::from(io::ErrorKind::InvalidInput)),
        Err(fault) if fault.kind() == io::ErrorKind::NotFound => Ok(None),
        Err(fault) => Err(fault),
    }
}

/// Fills the file aside, brings it to the disk, and puts it in the place of what stood at the path. What stood aside before
/// is taken away, so that no link is written through and no pipe is opened.
fn replace<R: Files>(rt: &R, aside: &str, path: &str, bytes: &[u8]) -> io::Result<()> {
    remove_file(rt, aside)?;
    let mut file = open_new(rt, aside)?;
    file.write_all(bytes)?;
    file.sync_all()?;
    fs::rename(rt, aside, path)
}

/// Opens a file for writing where nothing stands yet.
fn open_new<R: Files>(rt: &R, path: &str) -> io::Result<R::File> {
    let mut options = OpenOptions::new();
    options.write(true).create_new(true);
    options.open(rt, path)
}

/// Takes a file away, and says whether it was there.
fn remove_file<R: Files>(rt: &R, path: &str) -> io::Result<bool> {
    match fs::remove_file(rt, path) {
        Ok(()) => Ok(true),
        Err(fault) if fault.kind() == io::ErrorKind::NotFound => Ok(false),
        Err(fault) => Err(fault),
    }
}

/// Brings the folder's entries to the disk.
fn sync_folder<R: Files>(rt: &R, folder: &str) -> io::Result<()> {
    fs::open(rt, folder)?.sync_all()
}
