//! A disk in memory whose copies are cheap: chunks without a byte but zeros take no memory. It promises what a file does, that is nothing of
//! what it holds.
ghost use Rattle.std.specs.Prelude.{◌≡◌, Ok, false, IsTrue, IsErr, OnOk, OnErr, MatchResult, refl};
ghost use Rattle.refusal.specs.Count.{next_count};
ghost use Rattle.disk_trait.specs.Disk.{Passes};
ghost use Rattle.disk_trait.specs.Untold.{untold_state, untold_timed, untold_as_read};
ghost use Rattle.hostile_cases.specs.Untold.{untold_shelf};

use crate::content::Content;
use disk_trait::{Disk, Shelf};
use refusal::Failed;
use std::alloc::{AllocError, Global};

/// A disk in memory, of which a call may be made to fail, and whose images can be taken.
#[derive(Drop)]
pub struct PageDisk {
    content: Content,
    calls: u64,
    faults: u64,
}

impl PageDisk {
    /// A disk of this content, with no call and no fault yet.
    fn of(content: Content) -> PageDisk
        ensures { result.faults ≡ 0 }
    {
        PageDisk {
            content,
            calls: 0,
            faults: 0,
        }
    }

    pub fn new(alloc: Global) -> PageDisk {
        PageDisk::of(Content::new(alloc))
    }

    /// How many calls there were.
    pub fn calls(&self) -> u64 {
        self.calls
    }

    /// This call, counted from 1, fails.
    pub fn fail(&mut self, call: u64) {
        self.content.fail(call);
    }

    /// This call, counted from 1, and all behind it fail.
    pub fn stop(&mut self, call: u64) {
        self.content.stop(call);
    }

    /// These bytes stand at a place from the call of this number on, counted from 1.
    pub fn change(&mut self, call: u64, at: u64, bytes: Vec<u8>) -> Result<(), AllocError> {
        self.content.change(call, at, bytes)
    }

    /// Leaves out the last byte.
    pub fn cut(&mut self) {
        self.content.cut();
    }

    /// How many images a crash may leave now.
    pub fn images(&self) -> usize {
        self.content.images()
    }

    /// One of them, by its number.
    pub fn image(&self, number: usize) -> Result<PageDisk, AllocError> {
        Ok(PageDisk::of(self.content.image(number)?))
    }

    /// A disk with what this one has as it reads.
    pub fn copied(&self) -> Result<PageDisk, AllocError> {
        Ok(PageDisk::of(self.content.copied()?))
    }

    // Counts a call, and a fault where it failed.
    fn count<T: Drop>(&mut self, outcome: Result<T, Failed>) -> Result<T, Failed>
        ensures answer { MatchResult outcome (λ value. result ≡ Ok value) (λ _. IsErr result) }
        ensures passes { Passes (untold_state self.old.calls self.old.faults) (untold_state self.new.calls self.new.faults) }
        ensures stands { OnOk result (self.new.faults ≡ self.old.faults) }
        ensures failed { OnErr result (self.new.faults ≡ next_count self.old.faults) }
    {
        self.calls = self.calls.saturating_add(1);
        match outcome {
            Ok(value) => Ok(value),
            Err(_) => {
                self.faults = self.faults.saturating_add(1);
                Err(Failed)
            }
        }
    }
}

impl Disk for PageDisk {
    ghost state = { λ d. untold_state d.calls d.faults };

    ghost timed = { λ d. untold_timed d.calls d.faults };

    ghost as_read = { λ d. untold_as_read d.calls d.faults };

    ghost honest_tells = { λ d honest. honest };

    ghost images_tell = { λ d tells. tells };

    fn len(&mut self) -> Result<u64, Failed> {
        let outcome = self.content.len(self.calls);
        self.count(outcome)
    }

    fn read(&mut self, at: u64, into: &mut [u8]) -> Result<(), Failed> {
        let outcome = self.content.read(self.calls, at, into);
        self.count(outcome)
    }

    fn write(&mut self, at: u64, from: &[u8]) -> Result<(), Failed> {
        let outcome = self.content.write(self.calls, at, from);
        self.count(outcome)
    }

    fn sync(&mut self) -> Result<(), Failed> {
        let outcome = self.content.sync(self.calls);
        self.count(outcome)
    }

    fn faults(&self) -> u64 {
        self.faults
    }
}

// The name of the disk on its shelf.
const NAME: &str = "store";

/// A shelf of one disk.
#[derive(Drop)]
pub struct OneShelf {
    disk: Option<PageDisk>,
    faults: u64,
}

impl OneShelf {
    pub fn new(disk: PageDisk) -> OneShelf {
        OneShelf {
            disk: Some(disk),
            faults: 0,
        }
    }

    /// The disk, unless it is out.
    pub fn into_disk(self) -> Option<PageDisk> {
        self.disk
    }
}

// The disk with no fault counted yet.
fn without_faults(disk: PageDisk) -> PageDisk
    ensures { result.faults ≡ 0 }
{
    let mut disk = disk;
    disk.faults = 0;
    disk
}

impl Shelf for OneShelf {
    type D = PageDisk;

    ghost state = { λ s. untold_shelf s.faults };

    ghost out_is_gone = { λ s name tells out. refl };

    fn fetch(&mut self, name: &str, _fresh: bool) -> Result<PageDisk, Failed> {
        let found = if name == NAME { self.disk.take() } else { None };
        match found {
            Some(disk) => Ok(without_faults(disk)),
            None => {
                self.faults = self.faults.saturating_add(1);
                Err(Failed)
            }
        }
    }

    fn give_back(&mut self, _name: &str, disk: PageDisk) {
        self.faults = self.faults.saturating_add(disk.faults());
        self.disk = Some(disk);
    }
}
