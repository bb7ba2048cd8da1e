//! A disk without bytes becomes a store without keys.
ghost use Rattle.std.specs.Prelude.{◌≡◌, ◌≢◌, ◌+◌, ◌<◌, [], ℕ, length, Ok, Err, IsTrue, OnOk};
ghost use Rattle.disk_trait.specs.Disk.{TellsFaultsBy};
ghost use Rattle.disk_trait.specs.Effects.{Affects};
ghost use Rattle.disk_trait.specs.Moments.{IsUnwritten};
ghost use Rattle.disk_trait.specs.Reads.{OnlyReads};
ghost use Rattle.disk_trait.specs.Region.{span};
ghost use Rattle.blsm_model.specs.Geometry.{file_length};
ghost use Rattle.store_file.specs.Making.{LeavesOldOr, making_calls};
ghost use Rattle.recover_open.specs.Making.{IsEmptyOrNone, IsMadeEmpty, WasNotEmpty};

use blsm_model::Geometry;
use disk_trait::Disk;
use refusal::Failed;
use thiserror::Error;

/// Why no store was made.
#[derive(Clone, Copy, PartialEq, Eq, Debug, Drop, Error)]
pub enum NotMade {
    /// The disk has this many bytes already.
    #[error("the disk isn't empty: it has {0} bytes")]
    NotEmpty(u64),
    /// A call of the disk failed.
    #[error("the disk failed")]
    Fault,
}

impl From<Failed> for NotMade {
    ghost use Rattle.recover_open.specs.declared.making.NotMade.{NotMade};

    ghost from_gives = { λ _ why. why ≡ NotMade.Fault };

    fn from(_failed: Failed) -> NotMade {
        NotMade::Fault
    }
}

/// Makes a store of this geometry, which has no keys, of a disk that has no bytes. The file gets its whole length, in bytes.
///
/// `NotEmpty` tells the length in bytes and comes exactly where that is above 0; then the disk is only looked at, also where that fails. `Fault` comes just where the
/// disk's count of faults rose. A crash leaves no store, or the store that was to be made, whatever is answered. A clause for each answer, and for
/// what the disk has then: as it reads, in its images, and in those before the first sync.
pub fn make_store<D: Disk>(disk: &mut D, geometry: &Geometry) -> Result<(), NotMade>
    ensures not_empty { (n : ℕ) → result ≡ Err (NotMade.NotEmpty n) → WasNotEmpty n (D.state disk.old) (D.state disk.new) }
    ensures empty { IsTrue (D.state disk.old).tells_bytes → 0 < length (D.state disk.old).bytes → result ≢ Err NotMade.Fault
        → result ≡ Err (NotMade.NotEmpty (length (D.state disk.old).bytes)) }
    ensures looked { IsTrue (D.state disk.old).tells_bytes → 0 < length (D.state disk.old).bytes → OnlyReads 0 1 (D.state disk.old) (D.state disk.new) }
    ensures made { OnOk result (IsTrue (D.state disk.old).is_honest → IsMadeEmpty geometry.now (D.state disk.new)) }
    ensures long { OnOk result (IsTrue (D.state disk.old).tells_bytes → length (D.state disk.new).bytes ≡ file_length geometry.now) }

    // Where there were no bytes, each image of each moment is one from before, or no store or the empty one; since the first sync it is of the
    // second kind, and so is what the disk reads as.
    ensures leaves { IsTrue (D.state disk.old).is_honest → (D.state disk.old).bytes ≡ [] → LeavesOldOr (D.state disk.old) (D.state disk.new) (IsEmptyOrNone geometry.now) }
    ensures unsynced { IsTrue (D.state disk.old).is_honest → IsTrue (D.state disk.old).tells_images → IsUnwritten (D.state disk.old) (D.state disk.new) }
    ensures effect { Affects (span 0 (file_length geometry.now)) (file_length geometry.now) (making_calls geometry.now + 1) (D.state disk.old) (D.state disk.new) }
    ensures faults { TellsFaultsBy (Err NotMade.Fault) result (D.state disk.old) (D.state disk.new) }
{
    let length = disk.len()?;
    if length > 0 {
        return Err(NotMade::NotEmpty(length));
    }
    store_file::make_store(disk, geometry)?;
    Ok(())
}
