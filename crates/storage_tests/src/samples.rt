// The smallest store, and disks in memory of its length.
ghost use Rattle.std.specs.Prelude.{◌≡◌, length};
ghost use Rattle.blsm_model.specs.Geometry.{file_length};
ghost use Rattle.disk_mem.specs.Recorded.{told};

use crate::asserts::{assert_same, assert_that};
use blsm_model::Geometry;
use disk_mem::MemDisk;
use disk_trait::Disk;
use std::alloc::Global;
use std::process::Abort;

/// The length of the smallest store's file, in bytes.
pub const SMALLEST_LENGTH: u64 = 3_481_600;

pub fn smallest(rt: &impl Abort) -> Geometry {
    Geometry::new(17_408, 2, 16_384, 4_096).expect(rt, "a geometry")
}

/// A disk of a store's length, with these bytes, durable, by two calls, and with room for so many bytes of record more.
pub fn disk_of(rt: &impl Abort, alloc: Global, geo: &Geometry, bytes: &[u8], record: u32) -> MemDisk
    requires { length bytes.now ≡ file_length geo.now }
    ensures { length (told result).bytes ≡ file_length geo.now }
{
    let length = geo.length();
    let kept = length.saturating_add(u64::from(record));
    let mut disk = MemDisk::new(alloc, length, kept).expect(rt, "memory");
    assert_that(rt, disk.write(0, bytes).is_ok());
    assert_that(rt, disk.sync().is_ok());
    disk
}

/// The same, of zeros.
pub fn blank(rt: &impl Abort, alloc: Global, geo: &Geometry, record: u32) -> MemDisk
    ensures { length (told result).bytes ≡ file_length geo.now }
{
    let zeros = vec![in alloc; 0; geo.length() as usize].expect(rt, "memory");
    disk_of(rt, alloc, geo, zeros.as_slice(), record)
}

/// Whether the bytes of a disk from an offset on are these.
pub fn has_bytes<const N: usize>(rt: &impl Abort, disk: &mut MemDisk, at: u64, bytes: [u8; N]) {
    let mut found = [0xee; N];
    assert_that(rt, disk.read(at, &mut found).is_ok());
    assert_same(rt, found, bytes);
}

/// Puts bytes over others from a place on, as far as there are any.
pub fn put(bytes: &mut [u8], place: usize, from: &[u8]) {
    for (i, byte) in from.iter().enumerate() {
        if let Some(slot) = bytes.get_mut(place.saturating_add(i)) {
            *slot = *byte;
        }
    }
}
