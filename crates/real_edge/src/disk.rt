// A file as a disk.
ghost use Rattle.std.specs.Prelude.{◌≡◌, Ok, false, IsTrue, IsErr, OnOk, OnErr, MatchResult, is_err};
ghost use Rattle.refusal.specs.Count.{next_count};
ghost use Rattle.disk_trait.specs.Disk.{Passes};
ghost use Rattle.disk_trait.specs.Untold.{untold_state, untold_timed, untold_as_read};

use disk_trait::Disk;
use refusal::Failed;
use std::fs::OpenFile;
use std::io;
use std::io::ErrorKind;
use std::os::unix::fs::FileExt;

/// A file as a disk. All numbers are bytes.
///
/// A read that ends past the end of the file is a fault, and so is a write that begins past it. It tells no bytes and no images:
/// what a file is taken for stands at the head of this crate.
#[derive(Drop)]
pub struct FileDisk<F: FileExt + OpenFile> {
    pub(crate) file: F,
    // The file is at least so long. Nobody shortens it.
    pub(crate) known: u64,
    pub(crate) calls: u64,
    pub(crate) faults: u64,
    pub(crate) sync_failed: bool,
    // Its fetch made the file: no other was there.
    pub(crate) made: bool,
}

impl<F: FileExt + OpenFile> FileDisk<F> {
    /// A disk of this file, with no call and no fault yet.
    pub fn new(file: F) -> FileDisk<F>
        ensures file { result.file ≡ file }
        ensures calls { result.calls ≡ 0 }
        ensures faults { result.faults ≡ 0 }
        ensures sync_failed { result.sync_failed ≡ false }
        ensures made { result.made ≡ false }
    {
        FileDisk {
            file,
            known: 0,
            calls: 0,
            faults: 0,
            sync_failed: false,
            made: false,
        }
    }

    // Counts a call, and a fault where the system refused it.
    fn count<T: Drop>(&mut self, outcome: io::Result<T>) -> Result<T, Failed>
        ensures answer { MatchResult outcome (λ value. result ≡ Ok value) (λ _. IsErr result) }
        ensures passes { Passes (untold_state self.old.calls self.old.faults) (untold_state self.new.calls self.new.faults) }
        ensures stands { OnOk result (self.new.faults ≡ self.old.faults) }
        ensures failed { OnErr result (self.new.faults ≡ next_count self.old.faults) }
        ensures sync_failed { self.new.sync_failed ≡ self.old.sync_failed }
    {
        self.calls = self.calls.saturating_add(1);
        match outcome {
            Ok(value) => Ok(value),
            Err(_) => {
                self.faults = self.faults.saturating_add(1);
                Err(Failed)
            }
        }
    }

    // Syncs the file where no sync of it has failed: the system may drop what a failed one was to bring to the device, and tell
    // of that only once.
    fn settle(&mut self) -> io::Result<()>
        ensures never_again { IsTrue self.old.sync_failed → IsErr result }
        ensures remembered { self.new.sync_failed ≡ is_err result }
        ensures calls { self.new.calls ≡ self.old.calls }
        ensures faults { self.new.faults ≡ self.old.faults }
    {
        if self.sync_failed {
            return Err(ErrorKind::Other.into());
        }
        let outcome = self.file.sync_data();
        self.sync_failed = outcome.is_err();
        outcome
    }
}

// How long the file is.
fn measure<F: OpenFile>(file: &F) -> io::Result<u64> {
    Ok(file.metadata()?.len())
}

// Fails where the offset lies past the end of the file. It is measured where it isn't known to be that long.
fn reach<F: OpenFile>(file: &F, known: &mut u64, at: u64) -> io::Result<()> {
    if *known < at {
        *known = measure(file)?;
    }
    if *known < at {
        return Err(ErrorKind::UnexpectedEof.into());
    }
    Ok(())
}

fn read_part<F: FileExt + OpenFile>(
    file: &F,
    known: &mut u64,
    at: u64,
    into: &mut [u8],
) -> io::Result<()> {
    if into.is_empty() {
        return reach(file, known, at);
    }
    file.read_exact_at(into, at)
}

fn write_part<F: FileExt + OpenFile>(
    file: &F,
    known: &mut u64,
    at: u64,
    from: &[u8],
) -> io::Result<()> {
    reach(file, known, at)?;
    file.write_all_at(from, at)?;
    *known = (*known).max(at.saturating_add(from.len() as u64));
    Ok(())
}

impl<F: FileExt + OpenFile> Disk for FileDisk<F> {
    ghost state = { λ d. untold_state d.calls d.faults };

    ghost timed = { λ d. untold_timed d.calls d.faults };

    ghost as_read = { λ d. untold_as_read d.calls d.faults };

    ghost honest_tells = { λ d honest. honest };

    ghost images_tell = { λ d tells. tells };

    fn len(&mut self) -> Result<u64, Failed> {
        let outcome = measure(&self.file);
        self.count(outcome)
    }

    fn read(&mut self, at: u64, into: &mut [u8]) -> Result<(), Failed> {
        let outcome = read_part(&self.file, &mut self.known, at, into);
        self.count(outcome)
    }

    fn write(&mut self, at: u64, from: &[u8]) -> Result<(), Failed> {
        let outcome = write_part(&self.file, &mut self.known, at, from);
        self.count(outcome)
    }

    fn sync(&mut self) -> Result<(), Failed> {
        let outcome = self.settle();
        self.count(outcome)
    }

    fn faults(&self) -> u64 {
        self.faults
    }
}
