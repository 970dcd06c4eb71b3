ghost use Rattle.std.specs.Prelude.{◌≡◌, ℕ};
ghost use Rattle.std.specs.FinMap as map;
ghost use Rattle.rg_base.specs.declared.session.Session.{Session};
ghost use Rattle.rg_lock.specs.Taken.{take_key};
ghost use Rattle.rg_model.specs.Plain.{lock_key};
ghost use Rattle.rg_model.specs.State.{State};

/// Locking a key with the row that it has in the table is what a write does in the model.
pub fn taking_is_locking()
    ensures { (st : State) (session : Session) (key : ℕ) →
        take_key st.locks session key (map.get st.table key) ≡ lock_key st session key }
{}
