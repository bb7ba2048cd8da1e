//! The pacing of the merges as a machine over numbers: which merge work is owed by whom, and that it is done in time whatever
//! the seats do.
//!
//! The definitions in `specs/` have the weights of the tables, components and merges, the debts, and a function for each step.
//! They know no key and no page: what a merge writes is known by its weight alone. The functions do nothing: each stands for
//! laws that are ends in themselves. What others build on, step by step, are lemmas in `proofs/`.
#![tactic(auto)]

ghost use Rattle.pacing.specs.Counts.{IsCounted};
ghost use Rattle.pacing.specs.Fronts.{AreFronts, Fronts, FitAtEach};
ghost use Rattle.pacing.specs.Laws.{IsOpening, quanta_paid, taken_in, NoneAdmitted, RaisesDebts, IsShort};
ghost use Rattle.std.specs.Prelude.{ℕ, List, ◌≡◌, ◌+◌, ◌<◌, ◌≤◌, Bool, true, slice_index, ◌∷◌, ◌*◌};
ghost use Rattle.blsm_model.specs.Sizes.{Sizes};
ghost use Rattle.pacing.specs.Pace.{opened, Pace, Written, charge, pass_done, deep_done, rotations};
ghost use Rattle.pacing.specs.Kept.{IsPaced, most_taken};
ghost use Rattle.pacing.specs.Steps.{Event, MayAll, after_all, MayAdmit, ready_for, Admit, after, May};
ghost use Rattle.blsm_model.specs.Format.{callers, least_weight, most_weight};
ghost use Rattle.blsm_model.specs.Geometry.{c1_mark, charge_limit, work_bound};
ghost use Rattle.gear_sched.specs.Gears.{first_debt, second_debt};

/// Each run from an opening keeps what is kept.
pub fn each_run_keeps_pace()
    ensures { (sizes : Sizes) (c1 c2 : ℕ) (events : List Event) → IsOpening sizes c1 c2 → MayAll (opened sizes c1 c2) events → IsPaced (after_all (opened sizes c1 c2) events) }
{}

/// Each merge is done before it has to be, and no write is refused for the pacing.
pub fn merges_are_in_time()
    ensures pass { (pace : Pace) (w : ℕ) → IsPaced pace → pace.gears.pass ≡ true → w ≤ most_weight → pace.gears.sizes.half < pace.gears.pass_admitted + w → pass_done pace ≡ true }
    ensures deep { (pace : Pace) → IsPaced pace → pace.gears.pass ≡ true → pass_done pace ≡ true → c1_mark pace.gears.sizes ≤ pace.made1 → pace.gears.deep ≡ true → deep_done pace ≡ true }
    ensures free { (pace : Pace) (seat w n : ℕ) (is_del : Bool) → IsPaced pace → seat < callers → first_debt pace.gears seat + second_debt pace.gears seat ≡ 0
        → 1 ≤ n → least_weight ≤ w → w ≤ most_weight → charge pace + w ≤ charge_limit pace.gears.sizes is_del
        → MayAdmit pace seat (record {
          weight = w;
          writes = n;
          is_del = is_del;
          ahead = true;
          after = (ready_for pace w).a + w;
          most = (ready_for pace w).a + w;
        }) }
{}

/// A write's quanta are within its work bound, whatever other seats do, and a seat's debts rise at its own admission alone, which
/// takes no quantum.
pub fn work_is_bounded()
    ensures last { (pace : Pace) (seat : ℕ) → IsPaced pace → slice_index pace.quanta seat ≤ work_bound pace.gears.sizes (slice_index pace.weights seat) }
    ensures quanta { (pace : Pace) (seat : ℕ) (written : Written) (events : List Event) → IsPaced pace → MayAll pace (Admit seat written ∷ events)
        → NoneAdmitted seat events → quanta_paid seat (after pace (Admit seat written)) events ≤ work_bound pace.gears.sizes written.weight }
    ensures debts { (pace : Pace) (event : Event) (seat : ℕ) → IsPaced pace → May pace event → (RaisesDebts seat event → ⊥)
        → (first_debt (after pace event).gears seat ≤ first_debt pace.gears seat) × (second_debt (after pace event).gears seat ≤ second_debt pace.gears seat) }
    ensures taken { (pace : Pace) (events : List Event) → MayAll pace events → taken_in pace events + most_taken pace.gears.sizes * pace.work ≤ most_taken pace.gears.sizes * (after_all pace events).work }
    ensures short { (pace : Pace) (seat : ℕ) (written : Written) → IsShort pace (after pace (Admit seat written)) }
{}

/// Passes are begun no more often than writes are admitted, rotations come once for each pass and one more, and so the commits
/// are few.
pub fn merges_are_few()
    ensures run { (sizes : Sizes) (c1 c2 : ℕ) (events : List Event) → IsOpening sizes c1 c2 → MayAll (opened sizes c1 c2) events → IsCounted (after_all (opened sizes c1 c2) events) }
    ensures commits { (pace : Pace) → IsCounted pace → pace.passes + pace.deeps + rotations pace ≤ 3 * pace.writes + 2 }
{}

/// The log's lanes are within the opening's bounds at each of their records, also where a front of a lane weighs more than the
/// whole, so each image of a crash opens.
pub fn lanes_fit_at_each_record()
    ensures { (pace : Pace) (fronts : Fronts) → IsPaced pace → AreFronts pace fronts → FitAtEach pace fronts }
{}
