// A disk: bytes that are read, written and synced, and what a crash may leave of them.
ghost use Rattle.std.specs.Prelude.{◌≡◌, IsTrue};
ghost use Rattle.disk_trait.specs.Disk.{DiskState};
ghost use Rattle.disk_trait.specs.Calls.{TellsLength, ReadsPart, WritesPart, Settles};
ghost use Rattle.disk_trait.specs.Moments.{IsTimed};

use refusal::Failed;

/// A disk of bytes at offsets from 0 on. All numbers are bytes.
///
/// Each call that fails raises the count of faults by one, but for the range rule: a disk that tells its bytes refuses a read
/// that ends past their end and a write that begins past it, and its count stands.
pub trait Disk {
    /// What the disk tells: its bytes, its images, its clock, its count.
    ghost state: { Self → DiskState };

    /// How many bytes there are.
    fn len(&mut self) -> Result<u64, Failed>
        ensures { TellsLength result (state self.old) (state self.new) };

    /// Fills the slice with the bytes from an offset on. After an `Err` the slice may hold anything.
    fn read(&mut self, at: u64, into: &mut [u8]) -> Result<(), Failed>
        ensures { ReadsPart result at into.old into.new (state self.old) (state self.new) };

    /// Writes over what is there, and past the end. Until a sync that ends well, a crash may leave any bytes in the range and
    /// past the old end, whether the write ended well or failed.
    fn write(&mut self, at: u64, from: &[u8]) -> Result<(), Failed>
        ensures { WritesPart result at from.now (state self.old) (state self.new) };

    /// After it, a crash leaves what a read gives. One that fails settles nothing.
    fn sync(&mut self) -> Result<(), Failed>
        ensures { Settles result (state self.old) (state self.new) };

    /// How many calls have failed, but for those of the range rule. The count stops at 2^64 - 1.
    fn faults(&self) -> u64
        ensures { result ≡ (state self.now).faults };

    /// Its moments are in order.
    ghost timed: { (d : Self) → IsTimed (state d) };

    /// A crash may leave the disk as it reads.
    ghost as_read: { (d : Self) → IsTrue (state d).is_honest → IsTrue (state d).tells_images → (state d).images (state d).bytes };

    /// A disk is called honest only where it tells its bytes.
    ghost honest_tells: { (d : Self) → IsTrue (state d).is_honest → IsTrue (state d).tells_bytes };

    /// It tells its images only where it tells its bytes.
    ghost images_tell: { (d : Self) → IsTrue (state d).tells_images → IsTrue (state d).tells_bytes };
}
