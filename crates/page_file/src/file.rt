//! Reading and writing a page of a store's file.
ghost use Rattle.std.specs.Prelude.{◌≡◌, ◌≢◌, ◌+◌, ◌≤◌, ◌<◌, ◌^◌, length, Err, IsTrue, OnOk};
ghost use Rattle.blsm_model.specs.Format.{page_length};
ghost use Rattle.blsm_model.specs.Geometry.{page_count, file_length};
ghost use Rattle.page_file.specs.File.{page_start, page_at, page_region, TellsPage, Reads, Writes};

use crate::page::{PAGE_LEN, is_page};
use blsm_model::Geometry;
use disk_trait::Disk;
use refusal::Failed;
use thiserror::Error;

/// Why a page was not read.
#[derive(Clone, Copy, PartialEq, Eq, Debug, Drop, Error)]
pub enum Broken {
    /// The disk failed to read.
    #[error("a read of a page failed")]
    Fault,
    /// The bytes of the page of this number aren't a valid page.
    #[error("page {0} is damaged")]
    Damaged(u32),
}

impl From<Failed> for Broken {
    ghost use Rattle.std.specs.Prelude.{◌≡◌};
    ghost use Rattle.page_file.specs.declared.file.Broken.TheVariants.{Fault};

    ghost from_gives = { λ _ broken. broken ≡ Fault };

    fn from(_failed: Failed) -> Broken {
        Broken::Fault
    }
}

// How many bytes stand before the lanes of the log, and how many halves of the spring the lanes have.
const FILE_HEAD_LEN: u64 = 4_096;

const LANE_HALVES: u64 = 12;

// Where a page begins in the file, in bytes.
fn place_of(geo: &Geometry, n: u32) -> u64
    requires { n < page_count geo.now }
    ensures place { result ≡ page_start geo.now n }
    ensures inside { page_start geo.now n + page_length ≤ file_length geo.now }
    ensures small { file_length geo.now < 2 ^ 63 }
{
    FILE_HEAD_LEN + LANE_HALVES * geo.half() + PAGE_LEN as u64 * u64::from(n)
}

/// Reads page n into a buffer and tells whether it is valid. The disk is read once at most, and no memory is taken.
///
/// After `Ok` the buffer has the page as it reads. `Damaged(n)` comes exactly where the bytes aren't a valid page; the buffer has
/// them then too. After `Fault`, which comes only where the disk's count of faults rose, it may have any bytes. No answer
/// changes what the disk holds.
pub fn read_page<D: Disk>(
    disk: &mut D,
    geo: &Geometry,
    n: u32,
    into: &mut [u8; PAGE_LEN],
) -> Result<(), Broken>
    requires page { n < page_count geo.now }
    requires length { IsTrue (D.state disk.old).tells_bytes → length (D.state disk.old).bytes ≡ file_length geo.now }

    // Whatever the disk is, the answer is what the bytes in the buffer say; and they are those that the disk reads as.
    ensures answer { TellsPage (page_count geo.now) n into.new result }
    ensures bytes { result ≢ Err Broken.Fault → IsTrue (D.state disk.old).tells_bytes → into.new ≡ page_at geo.now n (D.state disk.new).bytes }
    // One call of the disk at most, which reads.
    ensures reads { Reads (file_length geo.now) 1 result (D.state disk.old) (D.state disk.new) }
{
    disk.read(place_of(geo, n), into)?;
    if is_page(into, geo.pages()) {
        Ok(())
    } else {
        Err(Broken::Damaged(n))
    }
}

/// Writes page n. The disk is written once at most, and no memory is taken.
///
/// After `Ok` the page reads so. Whatever is answered, no other byte changes, and a crash leaves a file that is, outside the page,
/// one from before; of the page itself it may leave any bytes until a sync. A failure comes only where the disk's count of
/// faults rose.
pub fn write_page<D: Disk>(
    disk: &mut D,
    geo: &Geometry,
    n: u32,
    bytes: &[u8; PAGE_LEN],
) -> Result<(), Failed>
    requires page { n < page_count geo.now }
    requires length { IsTrue (D.state disk.old).tells_bytes → length (D.state disk.old).bytes ≡ file_length geo.now }

    ensures reads { OnOk result (IsTrue (D.state disk.old).is_honest → page_at geo.now n (D.state disk.new).bytes ≡ bytes.now) }
    // One call of the disk at most. No byte outside the page changes, in no image of any moment.
    ensures writes { Writes (page_region geo.now n) (file_length geo.now) result (D.state disk.old) (D.state disk.new) }
{
    disk.write(place_of(geo, n), bytes)
}
