//! What the machine keeps. The functions do nothing: each stands for laws that are ends in themselves. What others build on are lemmas in
//! `proofs/`.
ghost use Rattle.tree_machine.specs.Outcomes.{AreTold, faults_told, last_count, Rose};
ghost use Rattle.std.specs.Prelude.{ℕ, ◌≡◌, true, Some, false, List, [], ◌∷◌, length, ◌≢◌, IsTrue, is_some, ◌⊎◌, ◌+◌, ◌≤◌, None};
ghost use Rattle.record_delta.specs.Entries.{AreSorted, Entries, settled_entries, above, up_to, over_any, record_of_key, is_above};
ghost use Rattle.tree_machine.specs.Merges.{Merge, quantum_of, moved_on};
ghost use Rattle.tree_machine.specs.Layers.{IsBehind, IsMergeOf, WaitsBehind, as_it_is, as_base};
ghost use Rattle.blsm_model.specs.declared.key.Key.{Key};
ghost use Rattle.record_delta.specs.declared.record.Rec.{Rec};
ghost use Rattle.tree_machine.specs.Lists.{Lists};
ghost use Rattle.tree_machine.specs.Moves.{goes_to_a, with_writes};
ghost use Rattle.blsm_model.specs.declared.row.Value.{Value};
ghost use Rattle.tree_machine.specs.declared.step.Step.{Step};
ghost use Rattle.tree_machine.specs.Machine.{Machine, held_by};
ghost use Rattle.tree_machine.specs.Steps.{Outcome};
ghost use Rattle.tree_machine.specs.Stands.{Stands};
ghost use Rattle.tree_machine.specs.Plays.{AllWriteOnce, played, GoesWell, may_step, stepped};
ghost use Rattle.tree_machine.specs.Effects.{LeaveAll};
ghost use Rattle.blsm_model.specs.declared.history.Why.TheVariants as why;

/// What a merge wrote is the fold of its inputs up to its cursor, after each quantum.
pub fn merges_fold()
    ensures pass { (quantum : ℕ) (merge : Merge) (newer older : Entries) → AreSorted newer → AreSorted older → IsMergeOf as_it_is newer older merge
        → IsMergeOf as_it_is newer older (moved_on merge (quantum_of quantum merge newer older).groups (quantum_of quantum merge newer older).groups) }
    ensures deep { (quantum : ℕ) (merge : Merge) (newer older : Entries) → AreSorted newer → AreSorted older → IsMergeOf as_base newer older merge
        → IsMergeOf as_base newer older (moved_on merge (quantum_of quantum merge newer older).groups (settled_entries (quantum_of quantum merge newer older).groups)) }
    ensures rest { (merge : Merge) (newer older : Entries) → IsMergeOf as_it_is newer older merge → (key : Key)
        → over_any (record_of_key key merge.output) (over_any (record_of_key key (above merge.cursor newer)) (record_of_key key (above merge.cursor older)))
        ≡ over_any (record_of_key key newer) (record_of_key key older) }
{}

/// A write ahead of the pass joins it, and any other waits for the next one; so does one whose key waits already, and so do more than one together.
/// What the pass has taken stays. Where each command writes once at most, none of the keys that wait is ahead of the pass, so each write goes where
/// the pass's cursor sends it.
pub fn snowshovelling()
    ensures ahead { (pass : Merge) (e : Key × Rec) (lists : Lists) → is_above pass.cursor e.0 ≡ true → record_of_key e.0 lists.b ≡ None
        → (with_writes (Some pass) (e ∷ []) lists).b ≡ lists.b }
    ensures behind { (pass : Merge) (e : Key × Rec) (lists : Lists)
        → (is_above pass.cursor e.0 ≡ false) ⊎ IsTrue (is_some (record_of_key e.0 lists.b)) → (with_writes (Some pass) (e ∷ []) lists).a ≡ lists.a }
    ensures together { (pass : Merge) (more : Entries) (lists : Lists) → 2 ≤ length more → (with_writes (Some pass) more lists).a ≡ lists.a }
    ensures stays { (pass : Merge) (more : Entries) (lists : Lists) → AreSorted lists.a
        → up_to pass.cursor (with_writes (Some pass) more lists).a ≡ up_to pass.cursor lists.a }
    ensures waits { (opening : List (Key × Value)) (m : Machine) (steps : List (Step × Outcome)) → Stands opening m → GoesWell m steps → AllWriteOnce steps
        → WaitsBehind m.lists m.merges.pass → WaitsBehind (played m steps).lists (played m steps).merges.pass }
    ensures cursor { (pass : Merge) (b : Entries) (e : Key × Rec) → IsBehind pass.cursor b → goes_to_a (Some pass) b (e ∷ []) ≡ is_above pass.cursor e.0 }
{}

/// After each list of steps the machine stands for its history: its map is the map after it, its holds are the sequential map's, and
/// each answer is legal.
pub fn steps_stand()
    ensures { (opening : List (Key × Value)) (m : Machine) (steps : List (Step × Outcome)) → Stands opening m → GoesWell m steps → Stands opening (played m steps) }
{}

/// A step of one seat leaves the holds of the others.
pub fn seats_apart()
    ensures { (m : Machine) (step : Step) (outcome : Outcome) → IsTrue (may_step m step) → (other : ℕ) → other ≢ step.seat → held_by other (stepped m step outcome).state ≡ held_by other m }
{}

/// Refusals, writes that are kept and lookups change nothing but the history, a lookup that failed too, also one that comes before a write.
pub fn steps_change_little()
    ensures { (m : Machine) (seat : ℕ) (outcome : Outcome) → LeaveAll m seat outcome }
{}

/// What a run tells of the disk: failed lookups and a stop are no more than the faults that the disk counted meanwhile, and a
/// stop names a later count.
pub fn outcomes_are_told()
    ensures faults { (m : Machine) (old new : ℕ) (steps : List (Step × Outcome)) → new ≤ last_count → AreTold m old steps new
        → (faults_told (played m steps) + old ≤ faults_told m + new) ⊎ (new ≡ last_count) }
    ensures stop { (m : Machine) (old new faults : ℕ) (steps : List (Step × Outcome)) → AreTold m old steps new → m.stopped ≡ None → (played m steps).stopped ≡ Some (why.Faulted faults) → Rose old faults }
{}
