//! Laws of stores over tables: what contracts may conclude of them.

ghost use Rattle.std.specs.Prelude.{◌≡◌, ◌↔◌, ℕ, List, Bool, false, Option};
ghost use Rattle.sqlite.specs.Held.{Held, state};
ghost use Rattle.sqlite.specs.State.{HasCleanDisk};
ghost use Rattle.table_schema.specs.sqlite_trees.specs.Tree.{Trees};
ghost use Rattle.tenant_core.specs.States.{Found, Shows};
ghost use Rattle.tenant_tables.specs.Rows.{StandsFor};
ghost use Rattle.tenant_core.specs.tenant_state.specs.State.{TenantState};
ghost use Rattle.table_schema.specs.Ready.{IsReady};

use crate::store::Store;
use sqlite::Alter;
use tenant_core::TenantStore;
use tenant_tables::laws::names_stand_for_one_state;

/// States that a store over tables says what its rows stand for. It is honest where the disk has
/// returned what was written, and the connection is open with this service's tables, unless a call
/// has failed for good. Each name has the state that its rows stand for. A stop leaves the states
/// for which the rows stand that the disk may leave.
pub fn tables_pin_their_states<S: Alter>()
    ensures honest { (store : Held S × Bool) → ⟦<Store<S> as TenantStore>⟧.is_honest store ↔ (HasCleanDisk (state S.Store store.0) × (store.1 ≡ false → IsReady (state S.Store store.0))) }
    ensures states { (store : Held S × Bool) (t : List ℕ) (s : Option TenantState) → ⟦<Store<S> as TenantStore>⟧.has_state store t s ↔ StandsFor (state S.Store store.0).now.trees t s }
    ensures latched { (store : Held S × Bool) → ⟦<Store<S> as TenantStore>⟧.latched store ≡ store.1 }
    ensures stops { (store : Held S × Bool) (t : List ℕ) (found : Found) → ⟦<Store<S> as TenantStore>⟧.may_leave store t found
        ↔ ((db : Trees) × (state S.Store store.0).may_leave db × Shows (StandsFor db) t found) }
    ensures keeps { (old new : Held S × Bool) → ⟦<Store<S> as TenantStore>⟧.keeps old new ↔ ((state S.Store new.0).now ≡ (state S.Store old.0).now) }
{
    names_stand_for_one_state();
}
