//! What is printed of one caller without a worker. The functions do nothing: each stands for the law that its clause names.
ghost use Rattle.alone_run.specs.Alone.{NoneHelps, ops_in, IsAsAlone, EndsAlone, alone};
ghost use Rattle.std.specs.Prelude.{◌≡◌, ℕ, ◌<◌, List, false, None};
ghost use Rattle.blsm_model.specs.Format.{callers};
ghost use Rattle.blsm_model.specs.Sizes.{Sizes};
ghost use Rattle.blsm_model.specs.declared.room.Room.{Room};
ghost use Rattle.record_delta.specs.Entries.{Entries};
ghost use Rattle.tree_machine.specs.declared.step.Step.{Step};
ghost use Rattle.tree_machine.specs.Machine.{Catalogue, opened, owes};
ghost use Rattle.tree_machine.specs.Plays.{played};
ghost use Rattle.tree_machine.specs.Steps.{Outcome};
ghost use Rattle.blsm_model.specs.declared.op.Op.{Op};

/// Two runs from one opening that only this seat asked, without a worker and with the same commands, print the same.
pub fn runs_alone()
    ensures { (sizes : Sizes) (c1 c2 : Entries) (catalogue : Catalogue) (faults : ℕ) (room : Room) (seat : ℕ) (made others : List (Step × Outcome)) → seat < callers → NoneHelps made → NoneHelps others
        → EndsAlone seat (played (opened sizes c1 c2 catalogue faults room) made) → EndsAlone seat (played (opened sizes c1 c2 catalogue faults room) others)
        → ops_in (played (opened sizes c1 c2 catalogue faults room) made).book.entries ≡ ops_in (played (opened sizes c1 c2 catalogue faults room) others).book.entries
        → IsAsAlone (played (opened sizes c1 c2 catalogue faults room) made) (played (opened sizes c1 c2 catalogue faults room) others) }
{}

/// Commands done alone are paid for in full, one after another.
pub fn alone_pays()
    ensures pays { (sizes : Sizes) (c1 c2 : Entries) (catalogue : Catalogue) (faults : ℕ) (room : Room) (seat : ℕ) (ops : List Op) → seat < callers
        → ((alone seat (opened sizes c1 c2 catalogue faults room) ops).stopped ≡ None) × (owes seat (alone seat (opened sizes c1 c2 catalogue faults room) ops) ≡ false) }
{}
