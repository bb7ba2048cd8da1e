// The parts of a shelf in memory: names, their disks, and the fetches that are noted.
ghost use Rattle.std.specs.Prelude.{◌≡◌, ◌⊎◌, ◌≢◌, ◌<◌, ◌≤◌, ◌+◌, ◌-◌, ◌^◌, min, ℕ, Some, None, List, IfSome, IfNone, IfOk, OnOk, OnErr, IsTrue, IsErr, false, [], ◌∷◌, ◌++◌, map, length, vec_len, vec_capacity, slice_index_or, slice_set, IsSome, is_some, string_bytes};
ghost use Rattle.refusal.specs.Count.{next_count, HasRisen};
ghost use Rattle.disk_trait.specs.Calls.{Fetches, GivesBack};
ghost use Rattle.disk_trait.specs.Shelf.{PutsBack, KeepsDisks};
ghost use Rattle.disk_mem.specs.Recorded.{Recorded, told};
ghost use Rattle.disk_mem.specs.Places.{IsPlace, HasNoPlace, AllPlaced, all_placed_prop, disk_under};

use crate::disk::MemDisk;
use disk_trait::Disk;
use refusal::{Failed, NoMemory};
use std::alloc::Global;

#[derive(Drop)]
pub(crate) struct Stock {
    // The names, and under each its disk, unless that one is out.
    names: Vec<String>,
    disks: Vec<Option<MemDisk>>,
    // The fetches, each with the place of its name; how many of them there is room for, and how many came past it.
    fetched: Vec<Option<(usize, bool)>>,
    room: u32,
    past: u64,
    faults: u64,
    ghost paired: { length names.items ≡ length disks.items },
    ghost reserved: { room ≤ vec_capacity fetched },
    ghost full_before: { 0 < past → room ≤ length fetched.items },
    ghost placed: { AllPlaced (length names.items) fetched.items } by { all_placed_prop (length names.items) fetched.items },
}

// Adds a name with its disk. An `Err` changes nothing.
fn add(
    names: &mut Vec<String>,
    disks: &mut Vec<Option<MemDisk>>,
    name: String,
    disk: MemDisk,
) -> Result<(), NoMemory>
    ensures names { OnOk result (map string_bytes names.new.items ≡ map string_bytes names.old.items ++ string_bytes name ∷ []) }
    ensures disks { OnOk result (disks.new.items ≡ disks.old.items ++ Some disk ∷ []) }
    ensures grown { length names.old.items ≤ length names.new.items }
    ensures paired { length names.old.items ≡ length disks.old.items → length names.new.items ≡ length disks.new.items }
    ensures names_err { OnErr result (names.new.items ≡ names.old.items) }
    ensures disks_err { OnErr result (disks.new.items ≡ disks.old.items) }
{
    names.push(name)?;
    if let Err(refused) = disks.push(Some(disk)) {
        let _ = names.pop();
        return Err(refused.into());
    }
    Ok(())
}

// Where the name stands first.
fn place_of(names: &[String], name: &str) -> Option<usize>
    ensures place { IfSome result (IsPlace name.now (map string_bytes names.now)) }
    ensures none { IfNone result (HasNoPlace name.now (map string_bytes names.now)) }
    ensures bound { IfSome result (λ i. i < length names.now) }
{
    match names {
        [] => None,
        [first, rest @ ..] => {
            if first.as_str() == name {
                return Some(0);
            }
            match place_of(rest, name) {
                Some(i) => Some(i + 1),
                None => None,
            }
        }
    }
}

// Takes out the disk at a place where one stands.
fn take_at(disks: &mut Vec<Option<MemDisk>>, i: usize) -> MemDisk
    requires place { i < vec_len disks.old }
    requires stands { IsSome (slice_index_or disks.old.items i None) }
    ensures disk { slice_index_or disks.old.items i None ≡ Some result }
    ensures gone { disks.new.items ≡ slice_set disks.old.items i None }
{
    disks[i].take().unwrap()
}

impl Stock {
    ghost use Rattle.disk_mem.specs.Stock.{shelved};
    ghost use Rattle.disk_mem.specs.Shelved.{shelf_state, new_shelf, FailsToFetch};

    pub(crate) fn new(alloc: Global, fetches: u32) -> Result<Stock, NoMemory>
        ensures { IfOk result (λ s. shelved s ≡ new_shelf fetches) }
    {
        Ok(Stock {
            names: Vec::new(alloc),
            disks: Vec::new(alloc),
            fetched: Vec::with_capacity(alloc, fetches as usize)?,
            room: fetches,
            past: 0,
            faults: 0,
        })
    }

    pub(crate) fn put(&mut self, alloc: Global, name: &str, disk: MemDisk) -> Result<(), NoMemory>
        ensures ok { OnOk result (PutsBack name.now (shelf_state (shelved self.old)) (shelf_state (shelved self.new)) disk) }
        ensures fetches { (shelf_state (shelved self.new)).fetches ≡ (shelf_state (shelved self.old)).fetches }
        ensures room { self.new.room ≡ self.old.room }
        ensures faults { self.new.faults ≡ self.old.faults }
        ensures err { OnErr result (shelved self.new ≡ shelved self.old) }
    {
        if let Some(i) = self.place(name) {
            self.disks[i] = Some(disk);
            return Ok(());
        }
        let owned = String::from_str(alloc, name)?;
        add(&mut self.names, &mut self.disks, owned, disk)?;
        Ok(())
    }

    // Where the name and its disk stand.
    fn place(&self, name: &str) -> Option<usize>
        ensures place { IfSome result (λ i. IsPlace name.now (shelved self.now).names i × (i < length self.now.disks.items)) }
        ensures none { IfNone result (HasNoPlace name.now (shelved self.now).names) }
    {
        place_of(&self.names, name)
    }

    // Whether there is room to note one fetch more.
    fn has_room(&self) -> bool
        ensures yes { IsTrue result → (self.now.past ≡ 0) × (length self.now.fetched.items < self.now.room) }
        ensures no { result ≡ false → self.now.room ≤ length self.now.fetched.items + self.now.past }
    {
        self.past == 0 && self.fetched.len() < self.room as usize
    }

    // Notes a fetch without its name, in the room or past it.
    fn note_unnamed(&mut self)
        ensures disks { KeepsDisks (shelf_state (shelved self.old)) (shelf_state (shelved self.new)) }
        ensures noted { length (shelf_state (shelved self.old)).fetches < 2 ^ 64 - 1
            → (shelf_state (shelved self.new)).fetches ≡ (shelf_state (shelved self.old)).fetches ++ None ∷ [] }
        ensures faults { self.new.faults ≡ self.old.faults }
        ensures room { self.new.room ≡ self.old.room }
    {
        if self.has_room() {
            let _ = self.fetched.push(None);
            return;
        }
        self.past = self.past.saturating_add(1);
    }

    // Notes a fetch that fails, and counts a fault.
    fn refuse(&mut self) -> Failed
        ensures disks { KeepsDisks (shelf_state (shelved self.old)) (shelf_state (shelved self.new)) }
        ensures noted { length (shelf_state (shelved self.old)).fetches < 2 ^ 64 - 1
            → (shelf_state (shelved self.new)).fetches ≡ (shelf_state (shelved self.old)).fetches ++ None ∷ [] }
        ensures faults { self.new.faults ≡ next_count self.old.faults }
        ensures no_fall { self.old.faults ≤ self.new.faults }
        ensures one_fault { self.new.faults ≤ self.old.faults + 1 }
        ensures room { self.new.room ≡ self.old.room }
    {
        self.note_unnamed();
        self.faults = self.faults.saturating_add(1);
        Failed
    }

    pub(crate) fn fetch(&mut self, name: &str, fresh: bool) -> Result<MemDisk, Failed>
        ensures call { Fetches told name.now fresh result (shelf_state (shelved self.old)) (shelf_state (shelved self.new)) }
        ensures given { IfOk result (λ disk. (before : Recorded) × (disk_under (shelved self.old).names (shelved self.old).disks name.now ≡ Some before)
            × (disk ≡ record before { faults = 0 })) }
        ensures unnamed { OnErr result (length (shelf_state (shelved self.old)).fetches < 2 ^ 64 - 1
            → (shelf_state (shelved self.new)).fetches ≡ (shelf_state (shelved self.old)).fetches ++ None ∷ []) }
        ensures failed { OnErr result (self.new.faults ≡ next_count self.old.faults) }
        ensures room { self.new.room ≡ self.old.room }
        ensures cause { OnErr result (FailsToFetch name.now (shelved self.old)) }
        ensures fails { FailsToFetch name.now (shelved self.old) → IsErr result }
    {
        let Some(i) = self.place(name) else {
            return Err(self.refuse());
        };
        if self.disks[i].is_none() {
            return Err(self.refuse());
        }
        if !self.has_room() {
            return Err(self.refuse());
        }
        let _ = self.fetched.push(Some((i, fresh)));
        let disk = take_at(&mut self.disks, i);
        Ok(disk.without_faults())
    }

    pub(crate) fn give_back(&mut self, name: &str, disk: MemDisk)
        ensures call { GivesBack told name.now disk (shelf_state (shelved self.old)) (shelf_state (shelved self.new)) }
        ensures room { self.new.room ≡ self.old.room }
    {
        self.faults = self.faults.saturating_add(disk.faults());
        let Some(place) = self.place(name) else {
            return;
        };
        if self.disks[place].is_some() {
            return;
        }
        self.disks[place] = Some(disk);
    }
}
