//! When a run may begin. The function does nothing: it stands for the law that its clause names.
ghost use Rattle.std.specs.Prelude.{ℕ, List};
ghost use Rattle.blsm_model.specs.Book.{Book};
ghost use Rattle.blsm_model.specs.declared.history.Line.{Line};
ghost use Rattle.core_pace.specs.Opening.{IsOpened};
ghost use Rattle.tree_core.specs.Core.{CoreState};
ghost use Rattle.tree_session.specs.Lines.{HasRoomFor};
ghost use Rattle.tree_shared.specs.Runs.{IsFresh};

use disk_trait::Disk;

/// A run may begin with a core that was just opened, whose annals have room for the lines.
pub fn an_opened_core_is_fresh<D: Disk + Drop>()
    ensures { (annals : Book) (faults : ℕ) (lines : List Line) (core : CoreState D) → IsOpened annals faults core.held → HasRoomFor annals.room lines → IsFresh lines core }
{}
