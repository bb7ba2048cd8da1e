// A shelf of disks, each under a name.
ghost use Rattle.std.specs.Prelude.{◌≡◌, List, ℕ, None, IsTrue};
ghost use Rattle.disk_trait.specs.Shelf.{ShelfState};
ghost use Rattle.disk_trait.specs.Calls.{Fetches, GivesBack};

use crate::Disk;
use refusal::Failed;

/// A finite map from names to disks. Several disks may be out at once.
pub trait Shelf {
    type D: Disk + Send + Drop;

    /// What the shelf tells: its disks, its fetches, its count.
    ghost state: { Self → ShelfState Self.D };

    /// Takes out the disk of a name, with its count of faults at 0. A fetch that fails changes no disk, and raises the shelf's
    /// count by one.
    ///
    /// Where `fresh`, a shelf of files may make a missing one. A shelf that tells its disks makes none: it gives the one that
    /// stood under the name, all but its count as it stood.
    fn fetch(&mut self, name: &str, fresh: bool) -> Result<Self::D, Failed>
        ensures { Fetches Self.D.state name.now fresh result (state self.old) (state self.new) };

    /// Puts a disk back under its name. The shelf's count of faults rises by the disk's, up to 2^64 - 1. Where no disk of that
    /// name is out, the one that is given is dropped, and what the shelf holds stays.
    fn give_back(&mut self, name: &str, disk: Self::D)
        ensures { GivesBack Self.D.state name.now disk (state self.old) (state self.new) };

    /// No disk stands under a name whose disk is out.
    ghost out_is_gone: { (s : Self) (name : List ℕ) → IsTrue (state s).tells_disks → IsTrue ((state s).is_out name)
        → (state s).disk_at name ≡ None };
}
