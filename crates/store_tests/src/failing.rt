//! A runtime of which one kind of call on files fails.

use std::alloc::{Allocator, Global};
use std::fs::{Metadata, OpenFile, OpenOptions};
use std::io;
use std::io::{Read, Seek, SeekFrom, Write};
use std::rt::Files;

/// The name of the file that a write fills.
const ASIDE: &str = "new file";

/// The call that fails.
#[derive(Clone, Copy, PartialEq, Eq)]
pub enum FileCall {
    /// The opening of the folder, which comes before it is brought to the disk.
    OpenFolder,
    /// The bringing of the folder to the disk.
    SyncFolder,
    /// The opening of the file that a write fills.
    OpenAside,
    /// The bringing of that file to the disk.
    SyncAside,
    /// The renaming.
    Rename,
    /// The removal of the file that a write fills, which comes first.
    RemoveAside,
    /// The removal of a file of the folder.
    Remove,
}

/// The host's files, but for this call, which fails with an error of this kind.
#[derive(Clone, Copy)]
pub struct FailingFiles<'a> {
    pub rt: &'a HostRuntime,
    pub call: FileCall,
    pub kind: io::ErrorKind,
}

/// A file of the host, which is not brought to the disk where it has an error for this.
#[derive(Drop)]
pub struct FailingFile {
    file: <HostRuntime as Files>::File,
    sync: Option<io::ErrorKind>,
}

impl Read for FailingFile {
    fn read(&mut self, buf: &mut [u8]) -> io::Result<usize> {
        self.file.read(buf)
    }
}

impl Write for FailingFile {
    fn write(&mut self, buf: &[u8]) -> io::Result<usize> {
        self.file.write(buf)
    }

    fn flush(&mut self) -> io::Result<()> {
        self.file.flush()
    }
}

impl Seek for FailingFile {
    fn seek(&mut self, to: SeekFrom) -> io::Result<u64> {
        self.file.seek(to)
    }
}

impl OpenFile for FailingFile {
    fn metadata(&self) -> io::Result<Metadata> {
        OpenFile::metadata(&self.file)
    }

    fn set_len(&self, size: u64) -> io::Result<()> {
        OpenFile::set_len(&self.file, size)
    }

    fn sync_all(&self) -> io::Result<()> {
        match self.sync {
            Some(kind) => Err(io::Error::from(kind)),
            None => OpenFile::sync_all(&self.file),
        }
    }

    fn sync_data(&self) -> io::Result<()> {
        OpenFile::sync_all(self)
    }
}

impl<'a> FailingFiles<'a> {
    fn refuse(&self, call: FileCall) -> io::Result<()> {
        if self.call == call {
            return Err(io::Error::from(self.kind));
        }
        Ok(())
    }
}

impl<'a> Alloc for FailingFiles<'a> {
    type A = Global;

    fn alloc(&self) -> Global {
        self.rt.alloc()
    }
}

impl<'a> Files for FailingFiles<'a> {
    type File = FailingFile;

    type Dir = <HostRuntime as Files>::Dir;

    fn open_file(&self, how: &OpenOptions, path: &str) -> io::Result<FailingFile> {
        let (open, sync) = if path.ends_with(ASIDE) {
            (FileCall::OpenAside, FileCall::SyncAside)
        } else {
            (FileCall::OpenFolder, FileCall::SyncFolder)
        };
        self.refuse(open)?;
        let file = self.rt.open_file(how, path)?;
        let sync = if self.call == sync {
            Some(self.kind)
        } else {
            None
        };
        Ok(FailingFile { file, sync })
    }

    fn open_dir(&self, path: &str) -> io::Result<<HostRuntime as Files>::Dir> {
        self.rt.open_dir(path)
    }

    fn metadata(&self, path: &str) -> io::Result<Metadata> {
        self.rt.metadata(path)
    }

    fn symlink_metadata(&self, path: &str) -> io::Result<Metadata> {
        self.rt.symlink_metadata(path)
    }

    fn copy(&self, from: &str, to: &str) -> io::Result<u64> {
        self.rt.copy(from, to)
    }

    fn rename(&self, from: &str, to: &str) -> io::Result<()> {
        self.refuse(FileCall::Rename)?;
        self.rt.rename(from, to)
    }

    fn remove_file(&self, path: &str) -> io::Result<()> {
        self.refuse(if path.ends_with(ASIDE) {
            FileCall::RemoveAside
        } else {
            FileCall::Remove
        })?;
        self.rt.remove_file(path)
    }

    fn create_dir(&self, path: &str) -> io::Result<()> {
        self.rt.create_dir(path)
    }

    fn remove_dir(&self, path: &str) -> io::Result<()> {
        self.rt.remove_dir(path)
    }

    fn remove_dir_all<B: Allocator>(&self, alloc: B, path: &str) -> io::Result<()> {
        self.rt.remove_dir_all(alloc, path)
    }
}
