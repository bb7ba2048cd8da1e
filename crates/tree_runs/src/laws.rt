//! What the components and the runs keep while others write, and what of their map is known once they are read. The functions do nothing:
//! they stand for the laws that their clauses name.
ghost use Rattle.tree_runs.specs.Laws.{HeadIsBeside, HeadIsUnpinned, RunsStay, ListsStay, EntriesJoin, EntriesWait, LeftGrows, ClaimsAdd, TakenAreRead};

/// What others write, the log and the catalogue, is beside the pages of the components and the runs, and beside those of holds. So the merges go on over the same
/// lists, and over table A with each entry that joins it ahead of the pass.
pub fn others_may_write()
    ensures head { HeadIsBeside }
    ensures pins { HeadIsUnpinned }
    ensures running { RunsStay }
    ensures lists { ListsStay }
    ensures joins { EntriesJoin }
    ensures waits { EntriesWait }
    ensures left { LeftGrows }
{}

/// Where the pages of C1, C1' and C2 are claimed in a map that has none in use, each of them while it is free, no page has two tags, and
/// each component has as many as it claimed.
pub fn each_claims_its_own()
    ensures adds { ClaimsAdd }
    ensures read { TakenAreRead }
{}
