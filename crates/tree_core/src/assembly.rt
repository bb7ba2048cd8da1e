//! The core of a store that was opened.
ghost use Rattle.std.specs.Prelude.{◌≡◌, ◌+◌, ◌≤◌, ℕ, None, IsTrue, length, replicate, sum};
ghost use Rattle.blsm_model.specs.Components.{empty_component};
ghost use Rattle.blsm_model.specs.Format.{callers, most_entries};
ghost use Rattle.blsm_model.specs.Geometry.{file_length, high_mark};
ghost use Rattle.disk_trait.specs.Disk.{DiskState};
ghost use Rattle.page_file.specs.Component.{entries_of};
ghost use Rattle.pacing.specs.Laws.{IsOpening};
ghost use Rattle.tree_machine.specs.Machine.{opened};
ghost use Rattle.gated_log.specs.Lane.{no_lane};
ghost use Rattle.tree_file.specs.Tree.{Tree, map_of_tree};
ghost use Rattle.tree_log.specs.Log.{IsLogOf};
ghost use Rattle.tree_runs.specs.Holding.{StandOver};
ghost use Rattle.core_lists.specs.Standing.{catalogue_of};
ghost use Rattle.core_pace.specs.Opening.{IsOpened};
ghost use Rattle.tree_core.specs.Holds.{StandsWhole};
ghost use Rattle.tree_core.specs.Parts.{AreSettled};
ghost use Rattle.tree_core.specs.Steps.{StandsSince};

use crate::Core;
use blsm_model::Annals;
use core_moves::{Held, Settled};
use disk_trait::Disk;
use gear_sched::Gears;
use scan_view::{Holds, RowRoom};
use seat_book::SeatBook;
use tree_log::LoggedTables;
use tree_runs::Runs;

/// What a core is made of, when its store is opened and settled: no merge runs, C1' and both tables are empty, and so are both lanes.
#[derive(Drop)]
pub struct Parts<D: Disk + Drop> {
    /// The disk.
    pub disk: D,
    /// The components.
    pub runs: Runs,
    /// The memory table and its log.
    pub log: LoggedTables,
    /// The history, which is empty, and the room of each seat.
    pub annals: Annals,
    /// The room for the callers' holds, of which there is none.
    pub holds: Holds,
    /// The room for the rows of one reply.
    pub rows: RowRoom,
    /// What settling the store took.
    pub settled: Settled,
}

impl<D: Disk + Drop> Core<D> {
    /// The core of these parts. Its history is empty, its charge is what C1 and C2 weigh, and its peak and its counts are 0.
    /// A clause for each part that it is made of.
    pub fn assemble(parts: Parts<D>) -> Core<D>
        requires none { parts.holds ≡ replicate callers None }
        requires settled { AreSettled parts.runs parts.log parts.annals (D.state parts.disk) }
        ensures disk { result.disk ≡ parts.disk }
        ensures runs { result.held.runs ≡ parts.runs }
        ensures log { result.held.log ≡ parts.log }
        ensures holds { result.holds ≡ parts.holds }
        ensures settled { result.held.settled ≡ parts.settled }
        ensures begins { StandsSince D.state result result }
        ensures opened { IsOpened parts.annals (D.state parts.disk).faults result.held }

        // On an honest disk that stands on a tree with empty lanes it stands at the machine's first state, whose history begins with the tree's map.
        ensures stands { (tree : Tree) → IsTrue (D.state parts.disk).is_honest → StandOver parts.runs tree (D.state parts.disk)
            → tree.lane_a ≡ no_lane → tree.lane_b ≡ no_lane
            → StandsWhole D.state (map_of_tree tree) result
            (opened parts.runs.sizes (entries_of tree.c1) (entries_of tree.c2) (catalogue_of parts.runs.catalogue) (D.state parts.disk).faults parts.annals.room) }
    {
        let now = parts.runs.catalogue();
        let charge = now.c1.weight + now.c2.weight;
        let gears = Gears::new(&parts.runs.geometry());
        let book = SeatBook::open(parts.annals, charge, parts.disk.faults());
        Core {
            disk: parts.disk,
            held: Held {
                runs: parts.runs,
                log: parts.log,
                gears,
                spring: 0,
                book,
                settled: parts.settled,
            },
            holds: parts.holds,
            rows: parts.rows,
        }
    }
}
