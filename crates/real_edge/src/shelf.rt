// The files of a file system as a shelf.
ghost use Rattle.std.specs.Prelude.{◌≡◌, refl};
ghost use Rattle.real_edge.specs.Untold.{untold_shelf};

use crate::disk::FileDisk;
use disk_trait::{Disk, Shelf};
use refusal::Failed;
use std::alloc::Alloc;
use std::fs::{File, OpenOptions};
use std::io;
use std::io::ErrorKind;
use std::os::fd::AsRawFd;
use std::path::Path;
use std::rt::Files;

// The number by which the system knows standard error, after input and output.
const LAST_STREAM: i32 = 2;

/// The files of a file system, each under its path. It tells no disk and no fetch.
///
/// A fetch opens a regular file for reading and writing, and fails where it can't, as where the file is out already. Anything else
/// under the name, as a folder, a pipe or a device, is refused before a byte of it is read or written. A missing file is made where
/// `fresh`, and then the folder that names it is synced. A file that a fetch made is removed again where the fetch fails behind
/// that, and where it comes back with a fault; one that was there before never is.
#[derive(Drop)]
pub struct FileShelf<R: Files<File = File>> {
    pub(crate) files: R,
    pub(crate) faults: u64,
}

impl<R: Files<File = File>> FileShelf<R> {
    /// A shelf of the files of this file system, with no fault yet.
    pub fn new(files: R) -> FileShelf<R>
        ensures files { result.files ≡ files }
        ensures faults { result.faults ≡ 0 }
    {
        FileShelf { files, faults: 0 }
    }
}

// A regular file alone: what is written to a device, or into a pipe, is nobody's store.
fn open<R: Files<File = File>>(files: &R, name: &str) -> io::Result<File> {
    let file = OpenOptions::new().read(true).write(true).open(files, name)?;
    if file.metadata()?.is_file() {
        Ok(file)
    } else {
        Err(ErrorKind::InvalidInput.into())
    }
}

// Follows no link, so that the folder in the name is the one that names the file.
fn make<R: Files<File = File>>(files: &R, name: &str) -> io::Result<File> {
    OpenOptions::new()
        .read(true)
        .write(true)
        .create_new(true)
        .open(files, name)
}

// Syncs the folder that this path stands in.
fn sync_folder<R: Files<File = File>>(files: &R, path: Path<'_>) -> io::Result<()> {
    let folder = match path.parent() {
        Some(folder) if !folder.as_str().is_empty() => folder.as_str(),
        _ => ".",
    };
    File::open(files, folder)?.sync_all()
}

// Syncs the folder that names the file: of a link, the one that its target stands in.
fn sync_name<R: Files<File = File> + Alloc>(files: &R, name: &str) -> io::Result<()> {
    if files.symlink_metadata(name)?.is_symlink() {
        let target = files.canonicalize(files.alloc(), name)?;
        return sync_folder(files, target.as_path());
    }
    sync_folder(files, Path::new(name))
}

// The file, and whether it was made.
fn open_or_make<R: Files<File = File>>(files: &R, name: &str) -> io::Result<(File, bool)> {
    match make(files, name) {
        Err(error) if error.kind() == ErrorKind::AlreadyExists => Ok((open(files, name)?, false)),
        made => Ok((made?, true)),
    }
}

// Takes a file back that was made in vain. Where that fails too, it stays: nobody is left to tell.
fn unmake<R: Files<File = File>>(files: &R, name: &str) {
    if files.remove_file(name).is_ok() {
        let _ = sync_folder(files, Path::new(name));
    }
}

// Locks the file against a second fetch, also of another program. In the place of a standard stream that was closed it would get
// what is meant for the stream, so it is moved.
fn take(file: File) -> io::Result<File> {
    file.try_lock()?;
    if file.as_raw_fd() > LAST_STREAM {
        return Ok(file);
    }
    file.try_clone()
}

// The folder is synced for a file that was there too: who made it may have been cut off before.
fn take_named<R: Files<File = File> + Alloc>(
    files: &R,
    name: &str,
    file: File,
) -> io::Result<File> {
    sync_name(files, name)?;
    take(file)
}

fn find_or_make<R: Files<File = File> + Alloc>(files: &R, name: &str) -> io::Result<(File, bool)> {
    let (file, made) = open_or_make(files, name)?;
    let taken = take_named(files, name, file);
    if made && taken.is_err() {
        unmake(files, name);
    }
    Ok((taken?, made))
}

fn find<R: Files<File = File> + Alloc>(
    files: &R,
    name: &str,
    fresh: bool,
) -> io::Result<(File, bool)> {
    if fresh {
        find_or_make(files, name)
    } else {
        Ok((take(open(files, name)?)?, false))
    }
}

impl<R: Files<File = File> + Alloc> Shelf for FileShelf<R> {
    type D = FileDisk<File>;

    ghost state = { λ s. untold_shelf s.faults };

    ghost out_is_gone = { λ s name tells out. refl };

    fn fetch(&mut self, name: &str, fresh: bool) -> Result<FileDisk<File>, Failed> {
        match find(&self.files, name, fresh) {
            Ok((file, made)) => {
                let mut disk = FileDisk::new(file);
                disk.made = made;
                Ok(disk)
            }
            Err(_) => {
                self.faults = self.faults.saturating_add(1);
                Err(Failed)
            }
        }
    }

    // A part of a store is no store, and the next making would refuse it as not empty. It is removed while it is locked.
    fn give_back(&mut self, name: &str, disk: FileDisk<File>) {
        if disk.made && disk.faults() > 0 {
            unmake(&self.files, name);
        }
        self.faults = self.faults.saturating_add(disk.faults());
    }
}
