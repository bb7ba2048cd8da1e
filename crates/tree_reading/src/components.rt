//! The pages of the three components, and those that are named of a deep merge.
ghost use Rattle.std.specs.Prelude.{◌≡◌, ◌<◌, ◌≤◌, ◌+◌, ◌*◌, length, Err, IsTrue, IfOk, IfErr, OnOk};
ghost use Rattle.disk_trait.specs.Disk.{TellsFaultsBy};
ghost use Rattle.disk_trait.specs.Reads.{OnlyReads};
ghost use Rattle.blsm_model.specs.Geometry.{file_length, page_count};
ghost use Rattle.page_file.specs.File.{Reads};
ghost use Rattle.page_space.specs.Space.{IsSpace, unused};
ghost use Rattle.tree_runs.specs.Ahead.{IsAhead, IsAheadOn};
ghost use Rattle.tree_runs.specs.Noting.{AreRooms, HasSameRoom, KeepsRooms};
ghost use Rattle.tree_runs.specs.Runs.{AreRead, IsReserved, first_tags, guide_at};
ghost use Rattle.tree_reading.specs.Damage.{HasCatalogue};
ghost use Rattle.tree_reading.specs.Reading.{
  AreWalked,
  GuidesTree,
  IsHead,
  IsReadAs,
  IsWhy,
  TellsComponents,
  TellsTree,
  calls_of_output,
  calls_of_pages,
  unnamed,
};

use crate::found::{Place, Unreadable};
use crate::head::Head;
use crate::pages::walk;
use disk_trait::Disk;
use output_reading::walk_output;
use page_file::Broken;
use page_space::{Role, Space};
use tree_runs::{Cursors, GuideRoom, Resumable};

// Walks C1, C1' and C2, whose pages get the tags 0, 1 and 2.
fn walk_all<D: Disk>(
    disk: &mut D,
    head: &Head,
    space: &mut Space,
    guides: &mut GuideRoom,
) -> Result<(), Broken>
    requires right { IsHead head.now.geometry head.now.catalogue }
    requires unused { space.old ≡ unused (page_count head.now.geometry) }
    requires shape { IsSpace space.old }
    requires rooms { AreRooms head.now.catalogue guides.old }
    requires length { IsTrue (D.state disk.old).tells_bytes → length (D.state disk.old).bytes ≡ file_length head.now.geometry }
    ensures tags { OnOk result (AreRead head.now.geometry (unnamed head.now.catalogue) space.new) }
    ensures tells { IsTrue (D.state disk.old).is_honest
        → TellsComponents head.now.geometry head.now.catalogue space.new (D.state disk.old).bytes result }
    ensures reserved { OnOk result (HasSameRoom guides.old guides.new) }
    ensures guided { IsTrue (D.state disk.old).is_honest
        → OnOk result (GuidesTree head.now.geometry head.now.catalogue guides.new (D.state disk.old).bytes) }
    ensures once { OnOk result ((D.state disk.new).clock
        ≤ (D.state disk.old).clock + (head.now.catalogue.c1.pages + head.now.catalogue.c1x.pages + head.now.catalogue.c2.pages)) }
    ensures reads { Reads (file_length head.now.geometry)
        (2 * head.now.catalogue.c1.pages + 2 * head.now.catalogue.c1x.pages + 2 * head.now.catalogue.c2.pages) result (D.state disk.old) (D.state disk.new) }
{
    let catalogue = &head.catalogue;
    walk(
        disk,
        &head.geometry,
        &catalogue.c1,
        false,
        Role::new(0),
        space,
        guides,
    )?;
    walk(
        disk,
        &head.geometry,
        &catalogue.c1x,
        false,
        Role::new(1),
        space,
        guides,
    )?;
    walk(
        disk,
        &head.geometry,
        &catalogue.c2,
        true,
        Role::new(2),
        space,
        guides,
    )?;
    Ok(())
}

// Walks the finished pages of the deep merge that the catalogue names, if it names some, and gives them and the next one the tag 4.
fn walk_named<D: Disk>(
    disk: &mut D,
    head: &Head,
    space: &mut Space,
    guides: &mut GuideRoom,
    room: Box<Cursors>,
) -> Result<Option<Resumable>, Broken>
    requires right { IsHead head.now.geometry head.now.catalogue }
    requires read { AreRead head.now.geometry (unnamed head.now.catalogue) space.old }
    requires rooms { first_tags.deep < length guides.old
        → IsReserved (head.now.catalogue.c1x.weight + head.now.catalogue.c2.weight) (guide_at guides.old first_tags.deep) }
    requires length { IsTrue (D.state disk.old).tells_bytes → length (D.state disk.old).bytes ≡ file_length head.now.geometry }
    ensures tags { OnOk result (AreRead head.now.geometry head.now.catalogue space.new) }
    ensures ahead { IfOk result (IsAhead first_tags.deep head.now.catalogue.progress (head.now.catalogue.c1x.weight + head.now.catalogue.c2.weight)) }
    ensures stands { first_tags.deep < length guides.old → IfOk result (IsAheadOn head.now.geometry (D.state disk.old).is_honest
        (D.state disk.old).bytes space.new first_tags.deep (guide_at guides.new first_tags.deep)) }
    ensures tells { IsTrue (D.state disk.old).is_honest → AreWalked head.now.geometry head.now.catalogue space.old (D.state disk.old).bytes
        → TellsTree head.now.geometry head.now.catalogue space.new guides.new (D.state disk.old).bytes result }
    ensures rooms { KeepsRooms first_tags.deep guides.old guides.new }
    ensures once { OnOk result ((D.state disk.new).clock
        ≤ (D.state disk.old).clock + calls_of_output head.now.catalogue head.now.catalogue.progress) }
    ensures reads { Reads (file_length head.now.geometry) (3 * page_count head.now.geometry) result (D.state disk.old) (D.state disk.new) }
{
    let catalogue = &head.catalogue;
    let Some(progress) = &catalogue.progress else {
        return Ok(None);
    };
    let ahead = walk_output(
        disk,
        &head.geometry,
        &catalogue.c1x,
        &catalogue.c2,
        progress,
        Role::new(4),
        space,
        guides,
        room,
    )?;
    Ok(Some(ahead))
}

// Walks the components, and then what is named of a deep merge.
fn walk_pages<D: Disk>(
    disk: &mut D,
    head: &Head,
    space: &mut Space,
    guides: &mut GuideRoom,
    room: Box<Cursors>,
) -> Result<Option<Resumable>, Broken>
    requires right { IsHead head.now.geometry head.now.catalogue }
    requires unused { space.old ≡ unused (page_count head.now.geometry) }
    requires shape { IsSpace space.old }
    requires rooms { AreRooms head.now.catalogue guides.old }
    requires length { IsTrue (D.state disk.old).tells_bytes → length (D.state disk.old).bytes ≡ file_length head.now.geometry }
    ensures tags { OnOk result (AreRead head.now.geometry head.now.catalogue space.new) }
    ensures ahead { IfOk result (IsAhead first_tags.deep head.now.catalogue.progress (head.now.catalogue.c1x.weight + head.now.catalogue.c2.weight)) }
    ensures stands { first_tags.deep < length guides.old → IfOk result (IsAheadOn head.now.geometry (D.state disk.old).is_honest
        (D.state disk.old).bytes space.new first_tags.deep (guide_at guides.new first_tags.deep)) }
    ensures tells { IsTrue (D.state disk.old).is_honest
        → TellsTree head.now.geometry head.now.catalogue space.new guides.new (D.state disk.old).bytes result }
    ensures reserved { OnOk result (HasSameRoom guides.old guides.new) }
    ensures guided { IsTrue (D.state disk.old).is_honest
        → OnOk result (GuidesTree head.now.geometry head.now.catalogue guides.new (D.state disk.old).bytes) }
    ensures once { OnOk result ((D.state disk.new).clock ≤ (D.state disk.old).clock + calls_of_pages head.now.catalogue) }
    ensures reads { Reads (file_length head.now.geometry) (9 * page_count head.now.geometry) result (D.state disk.old) (D.state disk.new) }
{
    walk_all(disk, head, space, guides)?;
    walk_named(disk, head, space, guides, room)
}

/// Reads the pages of the components, with one call of the disk for each, or two for those of one that doesn't read, and gives those of C1, C1'
/// and C2 the tags 0, 1 and 2; then the finished pages of the deep merge that the catalogue names, if it names some, beside those of C1' and C2,
/// with one call for each page of the three, and gives them and the next one the tag 4. The filters and the fences of these tags, if there are any,
/// are then theirs. It hands on in the room with what that merge goes on.
pub(crate) fn read_components<D: Disk>(
    disk: &mut D,
    head: &Head,
    space: &mut Space,
    guides: &mut GuideRoom,
    room: Box<Cursors>,
) -> Result<Option<Resumable>, Unreadable>
    requires right { IsHead head.now.geometry head.now.catalogue }
    requires unused { space.old ≡ unused (page_count head.now.geometry) }
    requires shape { IsSpace space.old }
    requires rooms { AreRooms head.now.catalogue guides.old }
    requires length { IsTrue (D.state disk.old).tells_bytes → length (D.state disk.old).bytes ≡ file_length head.now.geometry }
    ensures tags { OnOk result (AreRead head.now.geometry head.now.catalogue space.new) }
    ensures ahead { IfOk result (IsAhead first_tags.deep head.now.catalogue.progress (head.now.catalogue.c1x.weight + head.now.catalogue.c2.weight)) }
    ensures stands { first_tags.deep < length guides.old → IfOk result (IsAheadOn head.now.geometry (D.state disk.old).is_honest
        (D.state disk.old).bytes space.new first_tags.deep (guide_at guides.new first_tags.deep)) }
    ensures found { IsTrue (D.state disk.old).is_honest
        → IfOk result (λ ahead. IsReadAs head.now.geometry head.now.catalogue space.new guides.new ahead (D.state disk.old).bytes) }
    ensures reserved { OnOk result (HasSameRoom guides.old guides.new) }
    ensures guided { IsTrue (D.state disk.old).is_honest
        → OnOk result (GuidesTree head.now.geometry head.now.catalogue guides.new (D.state disk.old).bytes) }
    ensures once { OnOk result ((D.state disk.new).clock ≤ (D.state disk.old).clock + calls_of_pages head.now.catalogue) }
    ensures refused { IsTrue (D.state disk.old).is_honest → HasCatalogue head.now.geometry head.now.catalogue (D.state disk.old).bytes
        → IfErr result (λ why. IsWhy why (D.state disk.old).bytes) }
    ensures faults { TellsFaultsBy (Err Unreadable.Fault) result (D.state disk.old) (D.state disk.new) }
    ensures effect { OnlyReads (file_length head.now.geometry) (9 * page_count head.now.geometry) (D.state disk.old) (D.state disk.new) }
{
    match walk_pages(disk, head, space, guides, room) {
        Ok(ahead) => Ok(ahead),
        Err(Broken::Damaged(page)) => Err(Unreadable::Damaged(Place::Page(page))),
        Err(Broken::Fault) => Err(Unreadable::Fault),
    }
}
