//! A deep merge's finished pages, walked beside C1' and C2.
ghost use Rattle.std.specs.Prelude.{◌≡◌, ◌≢◌, ◌+◌, ◌^◌, ◌<◌, ◌≤◌, [], ◌∷◌, ◌++◌, ℕ, List, Some, None, Err, length, nat_eq, IsTrue, IfErr, IfOk, OnOk};
ghost use Rattle.std.specs.List.{IsDistinct};
ghost use Rattle.merge_ends.specs.Merge.{HasFinished};
ghost use Rattle.bloom_bits.specs.Filter.{rounded};
ghost use Rattle.tree_runs.specs.Holding.{AreElsewhere};
ghost use Rattle.tree_runs.specs.Noting.{KeepsRooms};
ghost use Rattle.tree_runs.specs.Runs.{IsReserved, guide_at};
ghost use Rattle.tree_runs.specs.Ahead.{MayResume, ResumesOver};
ghost use Rattle.output_reading.specs.Noted.{HasNoted, MayNote};
ghost use Rattle.blsm_model.specs.Components.{empty_component};
ghost use Rattle.blsm_model.specs.declared.component.Component.{Component};
ghost use Rattle.blsm_model.specs.Geometry.{file_length, page_count};
ghost use Rattle.page_file.specs.Component.{HasList, RunPage, numbers_of};
ghost use Rattle.page_file.specs.File.{Reads};
ghost use Rattle.page_space.specs.Space.{IsSpace, SpaceState};
ghost use Rattle.record_delta.specs.Entries.{Entries};
ghost use Rattle.run_cursor.specs.Cursor.{AreFull};
ghost use Rattle.tree_file.specs.Output.{IsOutputOf, settled_up_to, weight_up_to};
ghost use Rattle.output_reading.specs.Output.{IsLight};
ghost use Rattle.output_reading.specs.Walk.{
  AreBehind,
  AreInputs,
  HasClaimed,
  HasMet,
  HasPassed,
  TakesUp,
  TellsOutput,
  TellsStop,
  left_of,
  pages_ahead,
};

use crate::inputs::Inputs;
use crate::output::Output;
use blsm_model::{Component, Geometry, Key};
use catalog_swap::Progress;
use disk_trait::Disk;
use page_file::Broken;
use page_space::{Role, Space};
use tree_runs::{Cursors, GuideRoom, Resumable};

// Takes all of both up to a key, which the output must be, entry by entry, and gives how much that weighs, in bytes.
fn follow<D: Disk>(
    disk: &mut D,
    geo: &Geometry,
    key: &Key,
    inputs: &mut Inputs,
    output: &mut Output,
    role: Role,
    space: &mut Space,
    guides: &mut GuideRoom,
) -> Result<u64, Broken>
    requires none { inputs.old.at ≡ None }
    requires behind { AreBehind inputs.old }
    requires light { left_of inputs.old < 2 ^ 64 }
    requires left { 0 < output.old.cursor.pages }
    requires pages { space.old.pages ≡ page_count geo.now }
    requires length { IsTrue (D.state disk.old).tells_bytes → length (D.state disk.old).bytes ≡ file_length geo.now }
    ensures behind { OnOk result (AreBehind inputs.new) }
    ensures z { IfOk result (λ z. z + left_of inputs.new ≡ left_of inputs.old) }
    ensures passed { IfOk result (λ z. HasPassed output.old.cursor output.new.cursor z) }
    ensures met { (run : Component) (earlier : List ℕ) (first : SpaceState) (newer_pages older_pages : List ℕ) (newer older : Entries)
        → IsTrue (D.state disk.old).is_honest
        → AreInputs geo.now inputs.old newer_pages older_pages newer older (D.state disk.old).bytes
        → HasMet geo.now run earlier role first output.old space.old [] (D.state disk.old).bytes
        → IfOk result (λ z. AreInputs geo.now inputs.new newer_pages older_pages newer older (D.state disk.old).bytes
        × HasMet geo.now run earlier role first output.new space.new (settled_up_to (Some key.now) newer older) (D.state disk.old).bytes
        × (settled_up_to inputs.new.at newer older ≡ settled_up_to (Some key.now) newer older) × (z ≡ weight_up_to (Some key.now) newer older)) }
    ensures stops { (run : Component) (earlier : List ℕ) (first : SpaceState) (newer_pages older_pages : List ℕ) (newer older : Entries)
        → IsTrue (D.state disk.old).is_honest → 0 < run.pages → run.pages < 2 ^ 32
        → AreInputs geo.now inputs.old newer_pages older_pages newer older (D.state disk.old).bytes
        → HasMet geo.now run earlier role first output.old space.old [] (D.state disk.old).bytes
        → IfErr result (λ broken. TellsStop geo.now run (settled_up_to (Some key.now) newer older) earlier (D.state disk.old).bytes broken) }
    ensures none { IfOk result (λ z. inputs.new.at ≡ None → z ≡ 0) }
    ensures noted { (run : Component) → MayNote run role output.old guides.old (left_of inputs.old)
        → HasNoted geo.now (D.state disk.old).is_honest (D.state disk.old).bytes run role output.old space.old (guide_at guides.old role) None
        → OnOk result (HasNoted geo.now (D.state disk.old).is_honest (D.state disk.old).bytes run role output.new space.new
        (guide_at guides.new role) inputs.new.at) }
    ensures rooms { KeepsRooms role guides.old guides.new }
    ensures size { role < length guides.old
        → OnOk result (length (guide_at guides.new role).filter.bits ≡ length (guide_at guides.old role).filter.bits) }
    ensures claims { (all : ℕ) (first : SpaceState) → HasClaimed role all output.old.cursor.pages first space.old
        → OnOk result (HasClaimed role all output.new.cursor.pages first space.new) }
    ensures same_pages { space.new.pages ≡ space.old.pages }
    ensures left { OnOk result (0 < output.new.cursor.pages) }
    ensures full { (run : Component) → AreFull run output.old.cursor → OnOk result (AreFull run output.new.cursor) }
    ensures once { OnOk result ((D.state disk.new).clock + pages_ahead inputs.new + output.new.cursor.pages ≤ (D.state disk.old).clock + pages_ahead
        inputs.old + output.old.cursor.pages) }
    ensures reads { Reads (file_length geo.now) (pages_ahead inputs.old + output.old.cursor.pages) result (D.state disk.old) (D.state disk.new) }
{
    let mut z = 0;
    loop {
        let Some((next, rec, weight)) = inputs.next_group(disk, geo)? else {
            return Ok(z);
        };
        if *key < next {
            return Ok(z);
        }
        output.meet(disk, geo, &next, rec, role, space, guides)?;
        inputs.take(next);
        z += weight;
    }
}

/// Walks a deep merge's finished pages beside C1' and C2, and gives them and the next one the tag of the merge's run, with one call of the disk for
/// each page of the three, and one more where a call fails; it takes no memory. The filter and the fences of that tag, if there are any, are then
/// those of the finished pages; how many bits the filter has, as many as C1' and C2 weigh bytes, no clause says. It hands on in the room with what
/// the merge goes on: its key may lie above the progress' one, where all between them settles to nothing.
///
/// `Damaged` names the first page that isn't free, isn't a valid page, has no next page, or hasn't the next entries of what C1' and C2 have up to
/// the progress' key, folded and settled. Where no page is such a one, it names the last page, if the pages aren't all of that, their entries,
/// weight or what was taken of C1' and C2 aren't the progress', the last one names another page than the next one, that one isn't free, or nothing
/// of C1' and C2 above the key settles to an entry. On a disk that changed since they were walked it may name a page of C1' or C2. `Fault` comes
/// only where the disk's count of faults rose.
///
/// It stays a call, so that the pages that it reads beside one another aren't in the frame of who reads the rest of a tree.
#[inline(never)]
pub fn walk_output<D: Disk>(
    disk: &mut D,
    geo: &Geometry,
    c1x: &Component,
    c2: &Component,
    progress: &Progress,
    role: Role,
    space: &mut Space,
    guides: &mut GuideRoom,
    room: Box<Cursors>,
) -> Result<Resumable, Broken>
    requires newer { c1x.now.pages ≡ 0 → c1x.now ≡ empty_component }
    requires older { c2.now.pages ≡ 0 → c2.now ≡ empty_component }
    requires light { c1x.now.weight + c2.now.weight < 2 ^ 64 }
    requires rooms { role < length guides.old → IsReserved (c1x.now.weight + c2.now.weight) (guide_at guides.old role) }
    requires some { 0 < progress.now.output.pages }
    requires few { progress.now.output.pages ≤ page_count geo.now }
    requires pages { space.old.pages ≡ page_count geo.now }
    requires shape { IsSpace space.old }
    requires length { IsTrue (D.state disk.old).tells_bytes → length (D.state disk.old).bytes ≡ file_length geo.now }
    // Where the earlier pages alone are in use, and C1' and C2 read as lists, it is told what the output is, or where it departs from them.
    ensures tells { (earlier : List ℕ) (newer older : Entries) → IsTrue (D.state disk.old).is_honest → TakesUp earlier space.old
        → HasList geo.now c1x.now newer (D.state disk.old).bytes → HasList geo.now c2.now older (D.state disk.old).bytes
        → TellsOutput geo.now progress.now newer older earlier role space.old space.new (D.state disk.old).bytes result }
    // No page is damaged where some are the output, and they and the next one are apart, also from the earlier ones.
    ensures right { (earlier : List ℕ) (newer older : Entries) (pages : List RunPage) → IsTrue (D.state disk.old).is_honest → TakesUp earlier space.old
        → HasList geo.now c1x.now newer (D.state disk.old).bytes → HasList geo.now c2.now older (D.state disk.old).bytes
        → IsOutputOf geo.now progress.now newer older pages (D.state disk.old).bytes
        → IsDistinct nat_eq (earlier ++ numbers_of pages ++ progress.now.next ∷ []) → (n : ℕ) → result ≢ Err (Broken.Damaged n) }
    // On any disk the pages and the next one have the tag, and their numbers are such that the run may go on.
    ensures taken { OnOk result (HasClaimed role (progress.now.output.pages + 1) 0 space.old space.new) }
    ensures numbers { OnOk result (IsLight progress.now (c1x.now.weight + c2.now.weight)) }
    ensures resumes { IfOk result (MayResume role progress.now (c1x.now.weight + c2.now.weight)) }
    ensures finished { role < length guides.old → IfOk result (λ ahead. (pages : List RunPage)
        × HasFinished geo.now (D.state disk.old).is_honest (D.state disk.old).bytes space.new role (guide_at guides.new role).filter
        (guide_at guides.new role).fences ahead.done pages) }
    // And where the lists' pages are in use, and have other tags, the merge goes on over the lists.
    ensures over { (earlier : List ℕ) (newer older : Entries) → IsTrue (D.state disk.old).is_honest → role < length guides.old
        → TakesUp earlier space.old
        → (list : HasList geo.now c1x.now newer (D.state disk.old).bytes) → AreElsewhere space.old role list.pages
        → (below : HasList geo.now c2.now older (D.state disk.old).bytes) → AreElsewhere space.old role below.pages
        → IfOk result (ResumesOver geo.now (D.state disk.old).bytes space.new role (guide_at guides.new role) (numbers_of list.pages)
        (numbers_of below.pages) newer older) }
    ensures rooms { KeepsRooms role guides.old guides.new }
    ensures size { role < length guides.old
        → OnOk result (length (guide_at guides.new role).filter.bits ≡ rounded (c1x.now.weight + c2.now.weight)) }
    ensures once { OnOk result ((D.state disk.new).clock ≤ (D.state disk.old).clock + (c1x.now.pages + c2.now.pages + progress.now.output.pages)) }
    ensures reads { Reads (file_length geo.now) (c1x.now.pages + c2.now.pages + progress.now.output.pages + 1) result (D.state disk.old)
        (D.state disk.new) }
{
    // A store has fewer pages than there are numbers, so a run may have one more.
    let _pages = geo.pages();
    guides.begin(role, c1x.weight + c2.weight);
    let mut inputs = Inputs::start(c1x, c2);
    let mut output = Output::start(&progress.output);
    let z = follow(
        disk,
        geo,
        &progress.key,
        &mut inputs,
        &mut output,
        role,
        space,
        guides,
    )?;
    output.end(progress, z, space)?;
    if !inputs.goes_on(disk, geo)? {
        return Err(Broken::Damaged(output.page));
    }
    let Some(ahead) = inputs.resume(room, progress.output, progress.next) else {
        return Err(Broken::Damaged(output.page));
    };
    space.claim(role, progress.next);
    Ok(ahead)
}
