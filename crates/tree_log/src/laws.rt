//! What holds of the memory table of a tree. The functions do nothing: each stands for the laws that its clauses name.
ghost use Rattle.std.specs.Prelude.{◌≡◌, Option};
ghost use Rattle.blsm_model.specs.declared.key.Key.{Key};
ghost use Rattle.record_delta.specs.Entries.{Entries, entries_weight};
ghost use Rattle.tree_machine.specs.Lists.{Lists};
ghost use Rattle.tree_machine.specs.Machine.{Machine};
ghost use Rattle.tree_machine.specs.Merges.{Merge};
ghost use Rattle.tree_machine.specs.Moves.{goes_to_a, with_writes, end_pass};
ghost use Rattle.tree_file.specs.Tree.{Tree, lists_of};
ghost use Rattle.tree_log.specs.Log.{LogState, AreTables, AreAboveFloor, IsLogOf, appended, listed_in_a};
ghost use Rattle.tree_log.specs.Log.{dropped_log, turned_log, weight_of_tables, with_entries};

/// An append is the machine's move: of the tables, and of the tree whose log it is. What goes to table A, as no pass runs or as it joins the one that
/// does, is above what was dropped of table A.
pub fn entries_join()
    ensures tables { (pass : Option Merge) (more : Entries) (lists : Lists) (log : LogState) → AreTables lists log
        → AreAboveFloor (goes_to_a pass lists.b more) more log
        → AreTables (with_writes pass more lists) (with_entries (goes_to_a pass lists.b more) more log) }
    ensures tree { (pass : Option Merge) (more : Entries) (tree : Tree)
        → lists_of (appended (goes_to_a pass (lists_of tree).b more) more tree) ≡ with_writes pass more (lists_of tree) }
    ensures is_of { (tree : Tree) (log : LogState) → IsLogOf tree log → AreTables (lists_of tree) log }
{}

/// What is dropped of table A is in its list still: the log is that of the same tree, the machine's tables are these, and they weigh the same.
pub fn a_drop_shows_nothing()
    ensures is_of { (key : Key) (tree : Tree) (log : LogState) → IsLogOf tree log → IsLogOf tree (dropped_log key log) }
    ensures tables { (key : Key) (lists : Lists) (log : LogState) → AreTables lists log → AreTables lists (dropped_log key log) }
    ensures weight { (key : Key) (log : LogState) → weight_of_tables (dropped_log key log) ≡ weight_of_tables log }
    ensures listed { (lists : Lists) (log : LogState) → AreTables lists log → listed_in_a log ≡ entries_weight lists.a }
{}

/// A turn makes of the tables what the machine makes of them where the pass ends.
pub fn tables_turn()
    ensures tables { (m : Machine) (log : LogState) → AreTables m.lists log → AreTables (end_pass m).lists (turned_log log) }
{}
