ghost use Rattle.std.specs.Prelude.{◌≡◌, ◌≤◌, ℕ, List, [], ◌∷◌, Option, None, length};
ghost use Rattle.std.specs.List.{Contains};
ghost use Rattle.rg_stmt.specs.declared.event.Actor.{Actor};
ghost use Rattle.rg_stmt.specs.declared.event.Entry.{Entry};
ghost use Rattle.rg_stmt.specs.declared.event.Event.{Event};
ghost use Rattle.rg_base.specs.declared.control.Answer.{Answer};
ghost use Rattle.rg_model.specs.Possible.{possible, states_after, states_before};
ghost use Rattle.rg_model.specs.Run.{Run};
ghost use Rattle.rg_model.specs.State.{State, Table, at_rest};

/// Each run from a table at rest ends in a state that its entries allow.
pub fn run_is_possible()
    ensures { (start : Table) (copy : ℕ) (entry : Entry) (entries : List Entry) (end : State) →
        states_before start entry.event ≡ at_rest start copy ∷ [] →
        Run [] (at_rest start copy) (entry ∷ entries) end →
        Contains (possible start (entry ∷ entries)) end }
{}

/// From a state without doubt an event leads to one state at most.
pub fn plain_is_one()
    ensures { (st : State) → st.doubt ≡ None →
        (past : List Entry) (answer : Option Answer) (actor : Actor) (event : Event) →
        length (states_after past answer actor event st) ≤ 1 }
{}
