// A shelf of disks in memory.
ghost use Rattle.std.specs.Prelude.{◌≡◌, ◌<◌, ◌+◌, ◌-◌, ◌^◌, Some, None, [], ◌∷◌, ◌++◌, length, IsErr, IfOk, OnOk, OnErr};
ghost use Rattle.refusal.specs.Count.{next_count};
ghost use Rattle.disk_trait.specs.Calls.{Fetches, GivesBack};
ghost use Rattle.disk_trait.specs.Shelf.{PutsBack};
ghost use Rattle.disk_mem.specs.Recorded.{Recorded, told};
ghost use Rattle.disk_mem.specs.Places.{disk_under, out_is_gone};
ghost use Rattle.disk_mem.specs.Shelved.{shelf_state, new_shelf, FailsToFetch};

use crate::disk::MemDisk;
use crate::stock::Stock;
use disk_trait::Shelf;
use refusal::{Failed, NoMemory};
use std::alloc::Global;
use std::marker::Model;

/// A shelf of disks in memory, each given to it beforehand under its name.
///
/// It notes its fetches, up to a number that is chosen when it is made. A fetch fails where no disk stands under the name, and
/// past the room for fetches; else it ends well.
#[derive(Drop)]
pub struct MemShelf {
    stock: Stock,
}

impl Model for MemShelf {
    ghost use Rattle.disk_mem.specs.Shelved.{Shelved};
    ghost use Rattle.disk_mem.specs.Stock.{shelved};

    ghost Value = { Shelved };

    ghost view = { λ s. shelved s.stock };
}

impl MemShelf {
    /// An empty shelf that has room to note so many fetches.
    pub fn new(alloc: Global, fetches: u32) -> Result<MemShelf, NoMemory>
        ensures { IfOk result (λ s. s ≡ new_shelf fetches) }
    {
        Ok(MemShelf {
            stock: Stock::new(alloc, fetches)?,
        })
    }

    /// Gives the shelf a named disk beforehand, in place of one that stands under that name or is out. An `Err` changes nothing.
    pub fn put(&mut self, alloc: Global, name: &str, disk: MemDisk) -> Result<(), NoMemory>
        ensures ok { OnOk result (PutsBack name.now (shelf_state self.old) (shelf_state self.new) disk) }
        ensures fetches { (shelf_state self.new).fetches ≡ (shelf_state self.old).fetches }
        ensures room { self.new.room ≡ self.old.room }
        ensures faults { self.new.faults ≡ self.old.faults }
        ensures err { OnErr result (self.new ≡ self.old) }
    {
        self.stock.put(alloc, name, disk)
    }
}

impl Shelf for MemShelf {
    type D = MemDisk;

    ghost state = { shelf_state };

    ghost out_is_gone = { λ s name tells out. out_is_gone s.names s.disks name out };

    fn fetch(&mut self, name: &str, fresh: bool) -> Result<MemDisk, Failed>
        ensures call { Fetches told name.now fresh result (shelf_state self.old) (shelf_state self.new) }
        // It fails exactly where no disk stands under the name, and past the room for fetches. Such a fetch is noted without its name.
        ensures cause { OnErr result (FailsToFetch name.now self.old) }
        ensures fails { FailsToFetch name.now self.old → IsErr result }
        ensures unnamed { OnErr result (length (shelf_state self.old).fetches < 2 ^ 64 - 1
            → (shelf_state self.new).fetches ≡ (shelf_state self.old).fetches ++ None ∷ []) }
        ensures counted { OnErr result (self.new.faults ≡ next_count self.old.faults) }
        // The disk is the one that stood there, with its count at 0.
        ensures given { IfOk result (λ disk. (before : Recorded) × (disk_under self.old.names self.old.disks name.now ≡ Some before)
            × (disk ≡ record before { faults = 0 })) }
        ensures room { self.new.room ≡ self.old.room }
    {
        self.stock.fetch(name, fresh)
    }

    fn give_back(&mut self, name: &str, disk: MemDisk)
        ensures call { GivesBack told name.now disk (shelf_state self.old) (shelf_state self.new) }
        ensures room { self.new.room ≡ self.old.room }
    {
        self.stock.give_back(name, disk);
    }
}
