//! Chains of calls. The functions do nothing: each stands for the law that its clause names.
ghost use Rattle.std.specs.Prelude.{◌≡◌, ◌∷◌, ◌++◌, ℕ, List, [], None, Some, IsTrue};
ghost use Rattle.blsm_model.specs.declared.history.Entry.{Entry};
ghost use Rattle.blsm_model.specs.declared.history.Why.TheVariants.{BadPage};
ghost use Rattle.blsm_model.specs.declared.key.Key.{Key};
ghost use Rattle.blsm_model.specs.declared.row.Value.{Value};
ghost use Rattle.tree_machine.specs.Machine.{Machine};
ghost use Rattle.tree_machine.specs.declared.step.Step.{Step};
ghost use Rattle.tree_core.specs.Calls.{AreCalls};
ghost use Rattle.tree_core.specs.Core.{CoreState, IsCore};
ghost use Rattle.tree_core.specs.Holds.{StandsWhole};
ghost use Rattle.core_chain.specs.Alike.{ReleaseShowsNothing};
ghost use Rattle.core_chain.specs.Damage.{StopsAtPage};
ghost use Rattle.core_chain.specs.Holds.{ChainTellsHolds, HoldsNone};
ghost use Rattle.core_chain.specs.Quanta.{ChainHelps, ChainTakesFew};
ghost use Rattle.core_chain.specs.Replies.{IsNoted};
ghost use Rattle.core_chain.specs.Scans.{ReadsWell, ReadOnce};
ghost use Rattle.core_chain.specs.Start.{IsUnasked};
ghost use Rattle.core_chain.specs.Steps.{ChainIsSteps};
ghost use Rattle.core_chain.specs.Tells.{ChainTells};
ghost use mathlib.Core.List.{IsPrefix};
ghost use Rattle.blsm_model.specs.Facts.{entries_of};
ghost use Rattle.blsm_model.specs.Histories.{object_after};

use disk_trait::Disk;
use tree_core::Core;

/// On every disk the calls that led to this core note each command once, in order, tell faults only as the disk counted them, and name the
/// stop; and they call the disk no more often than their steps may.
pub fn calls_tell<D: Disk + Drop>(core: &Core<D>)
    ensures { (calls : List (Step × CoreState D)) (start : CoreState D) → IsUnasked D.state start → AreCalls D.state calls start core.now
        → ChainTells D.state calls start core.now }
{}

/// Each entry took no more quanta than it may, and the callers' quanta are those of the entries and of the works that are open.
pub fn calls_take_few<D: Disk + Drop>(core: &Core<D>)
    ensures { (calls : List (Step × CoreState D)) (start : CoreState D) → IsUnasked D.state start → AreCalls D.state calls start core.now
        → ChainTakesFew D.state calls start core.now }
{}

/// The workers' quanta and turns are counted by their own turns alone.
pub fn calls_help<D: Disk + Drop>(core: &Core<D>)
    ensures { (calls : List (Step × CoreState D)) (start : CoreState D) → IsUnasked D.state start → AreCalls D.state calls start core.now
        → ChainHelps D.state calls start core.now }
{}

/// Where a damaged page stopped the store one of the calls did: the merge whose quantum it took came to that page, and the page's bytes show the damage
/// where the disk tells them.
pub fn calls_meet_damage<D: Disk + Drop>(core: &Core<D>)
    ensures { (calls : List (Step × CoreState D)) (start : CoreState D) (page : ℕ) → start.held.book.stopped ≡ None → AreCalls D.state calls start core.now
        → core.now.held.book.stopped ≡ Some (BadPage page) → StopsAtPage D.state calls start core.now page }
{}

/// From a core of which nothing was asked, and where nobody holds rows: no reply denies a hold or makes one up, and the rows of a next are of the range
/// that its seat holds, and rise on from those that were given before.
pub fn calls_tell_holds<D: Disk + Drop>(core: &Core<D>)
    ensures { (calls : List (Step × CoreState D)) (start : CoreState D) → start.held.book.book.entries ≡ [] → HoldsNone start → AreCalls D.state calls start core.now
        → ChainTellsHolds core.now }
{}

/// The nexts of a seat's hold read each page once that it had ahead, and three more each at most: where the seat makes no hold meanwhile and drops
/// none, and each next gives rows.
pub fn nexts_read_once<D: Disk + Drop>(core: &Core<D>)
    ensures { (seat : ℕ) (calls : List (Step × CoreState D)) (start : CoreState D) → AreCalls D.state calls start core.now → ReadsWell seat calls
        → ReadOnce D.state seat calls start core.now }
{}

/// Each entry was noted by one of the calls, which says why it has its reply.
pub fn calls_note<D: Disk + Drop>(core: &Core<D>)
    ensures { (calls : List (Step × CoreState D)) (start : CoreState D) (front behind : List Entry) (e : Entry) → start.held.book.book.entries ≡ [] → AreCalls D.state calls start core.now
        → core.now.held.book.book.entries ≡ front ++ e ∷ behind → IsNoted D.state calls start core.now front e }
{}

/// On an honest disk they are steps of the machine, one for each call, timed by the disk's clock.
pub fn calls_are_steps<D: Disk + Drop>(core: &Core<D>)
    ensures { (opening : List (Key × Value)) (calls : List (Step × CoreState D)) (start : CoreState D) (m : Machine) → IsCore start.held (D.state start.disk)
        → AreCalls D.state calls start core.now → IsTrue (D.state start.disk).is_honest → StandsWhole D.state opening start m
        → ChainIsSteps D.state opening calls start core.now m }
{}

/// The rows that a seat has still to read are those after what it saw, where it saw all its own entries.
pub fn rows_stay()
    ensures { (opening : List (Key × Value)) (seen history : List Entry) (seat : ℕ) → IsPrefix seen history → entries_of seat seen ≡ entries_of seat history
        → (object_after opening seen).held seat ≡ (object_after opening history).held seat }
{}

/// Where two cores stand for one state of the machine, over whatever honest disks and with whatever dropped of either's memory table, the same
/// steps, if nothing fails on either, lead both to one state again: they have one book, with each reply and each quantum, and the same rows to come,
/// and each image of either disk reads as the map of that history.
pub fn release_shows_nothing<D: Disk + Drop, E: Disk + Drop>(one: &Core<D>, other: &Core<E>)
    ensures { ReleaseShowsNothing D.state E.state one.now other.now }
{}
