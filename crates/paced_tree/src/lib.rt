//! The tree over its lists is paced: the two machines, over lists and over numbers, are one.
//!
//! `tree_machine` has the lists and what they stand for, `pacing` the numbers and what is done in time. Here each step of the first
//! is a step of the second, so each helps the other: the numbers that keep pace let no deep merge be cut off, and the lists
//! show that the numbers are real. The functions do nothing: each stands for laws that are ends in themselves. What others build on
//! are lemmas in `proofs/`.
#![tactic(auto)]

ghost use Rattle.paced_tree.specs.Laws.{work_in, AreSmall};
ghost use Rattle.paced_tree.specs.Lanes.{IsLane};
ghost use Rattle.std.specs.Prelude.{List, ℕ, [], ◌+◌, ◌*◌, ◌≤◌, sum, IsTrue, length, ◌^◌, ◌≡◌};
ghost use Rattle.blsm_model.specs.declared.key.Key.{Key};
ghost use Rattle.blsm_model.specs.declared.row.Value.{Value};
ghost use Rattle.pacing.specs.Pace.{Pace};
ghost use Rattle.tree_machine.specs.Machine.{Machine, Catalogue, opened};
ghost use Rattle.tree_machine.specs.Steps.{Outcome};
ghost use Rattle.tree_machine.specs.Plays.{played, may_step, stepped};
ghost use Rattle.tree_machine.specs.declared.step.Step.{Step};
ghost use Rattle.paced_tree.specs.Kept.{IsPacedTree, AllFit, AreComponents};
ghost use Rattle.paced_tree.specs.Bounds.{IsBounded};
ghost use Rattle.blsm_model.specs.Sizes.{Sizes};
ghost use Rattle.blsm_model.specs.declared.room.Room.{Room};
ghost use Rattle.record_delta.specs.Entries.{Entries, entries_weight};
ghost use Rattle.tree_machine.specs.Lists.{map_in};
ghost use Rattle.tree_machine.specs.Stands.{Stands};
ghost use Rattle.tree_machine.specs.Effects.{work_between};
ghost use Rattle.pacing.specs.Kept.{most_taken, IsPaced};
ghost use Rattle.blsm_model.specs.Histories.{counted_writes};
ghost use Rattle.blsm_model.specs.Format.{most_entries};
ghost use Rattle.record_delta.specs.Replays.{ReplaysWithin};
ghost use Rattle.pacing.specs.Fronts.{Fronts, AreFronts};

/// Each list of steps keeps a tree paced, by whatever seats and with whatever outcomes.
pub fn steps_are_paced()
    ensures { (opening : List (Key × Value)) (m : Machine) (steps : List (Step × Outcome)) → IsPacedTree opening m → AllFit steps → IsPacedTree opening (played m steps) }
{}

/// A paced tree keeps its bounds, and so does every run from an opening, which stands for its history.
pub fn a_paced_tree_is_bounded()
    ensures bounded { (opening : List (Key × Value)) (m : Machine) → IsPacedTree opening m → IsBounded m }
    ensures run { (sizes : Sizes) (c1 c2 : Entries) (catalogue : Catalogue) (faults : ℕ) (room : Room) (steps : List (Step × Outcome)) → AreComponents sizes c1 c2 → AllFit steps
        → Stands (map_in (record { b = []; a = []; c1 = c1; c1x = []; c2 = c2 })) (played (opened sizes c1 c2 catalogue faults room) steps)
        × IsBounded (played (opened sizes c1 c2 catalogue faults room) steps) }
{}

/// The quanta are real: all that the merges' cursors pass is at most what so many quanta can take. Commits are few.
pub fn work_is_counted()
    ensures step { (opening : List (Key × Value)) (m : Machine) (step : Step) (outcome : Outcome) → IsPacedTree opening m → IsTrue (may_step m step)
        → work_between m (stepped m step outcome).state + most_taken m.gears.sizes * sum m.seats.quanta ≤ most_taken m.gears.sizes * sum (stepped m step outcome).state.seats.quanta }
    ensures run { (sizes : Sizes) (c1 c2 : Entries) (catalogue : Catalogue) (faults : ℕ) (room : Room) (steps : List (Step × Outcome)) → AreComponents sizes c1 c2 → AllFit steps
        → work_in (opened sizes c1 c2 catalogue faults room) steps ≤ most_taken sizes * sum (played (opened sizes c1 c2 catalogue faults room) steps).seats.quanta }
    ensures commits { (sizes : Sizes) (c1 c2 : Entries) (catalogue : Catalogue) (faults : ℕ) (room : Room) (steps : List (Step × Outcome)) → AreComponents sizes c1 c2 → AllFit steps
        → (played (opened sizes c1 c2 catalogue faults room) steps).catalogue.version ≤ catalogue.version + 3 * length (counted_writes (played (opened sizes c1 c2 catalogue faults room) steps).book.entries) + 5 }
    ensures small { (sizes : Sizes) (c1 c2 : Entries) (catalogue : Catalogue) (faults : ℕ) (room : Room) (steps : List (Step × Outcome)) → AreComponents sizes c1 c2 → AllFit steps
        → sum room.entries ≤ most_entries → catalogue.version ≤ 2 ^ 62 + 5 → AreSmall (played (opened sizes c1 c2 catalogue faults room) steps) }
{}

/// At each of the lanes' records a replay is within the opening's bounds.
pub fn lanes_replay()
    ensures { (pace : Pace) (fronts : Fronts) (lane_a lane_b a b : Entries) → IsPaced pace → AreFronts pace fronts → IsLane lane_a a fronts.lane_a → IsLane lane_b b fronts.lane_b
        → pace.a ≡ entries_weight a → ReplaysWithin pace.gears.sizes (pace.c1 + pace.c1x + pace.c2) lane_a lane_b }
{}
