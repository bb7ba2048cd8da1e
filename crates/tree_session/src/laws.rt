//! When a session may begin. The function does nothing: it stands for the law that its clause names.
ghost use Rattle.std.specs.Prelude.{ℕ};
ghost use Rattle.blsm_model.specs.Book.{Book};
ghost use Rattle.core_moves.specs.declared.held.Held.{Held};
ghost use Rattle.core_pace.specs.Opening.{IsOpened};
ghost use Rattle.tree_session.specs.Lines.{Rests};

/// In a core that was just opened no work is open, and nobody owes.
pub fn an_opened_core_rests()
    ensures { (annals : Book) (faults : ℕ) (held : Held) → IsOpened annals faults held → Rests held }
{}
