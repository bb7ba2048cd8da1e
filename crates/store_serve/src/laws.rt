//! What a session's text is without ships. The function does nothing: it stands for the law that its clause names.
ghost use Rattle.std.specs.Prelude.{◌≡◌, ◌++◌, ℕ, List};
ghost use Rattle.blsm_model.specs.Printed.{history_text};
ghost use Rattle.blsm_model.specs.declared.history.Entry.{Entry};
ghost use Rattle.blsm_model.specs.declared.history.Totals.{Totals};
ghost use Rattle.store_serve.specs.Told.{closing_text, served_text};
ghost use Rattle.store_serve.specs.declared.closing.Closing.{Closing};

/// Where no ships are asked for, the text is the history's, and behind it why the session ended.
pub fn plain_session()
    ensures { (charge : ℕ) (entries : List Entry) (quanta : List ℕ) (totals : Totals) (closing : Closing)
        → served_text 0 charge entries quanta totals closing ≡ history_text charge entries quanta totals ++ closing_text closing }
{}
