//! A store of tenants' states in the tables of a database.

ghost use Rattle.std.specs.Prelude.{◌≡◌, ◌⊎◌, false, IfOk, IfErr, IsTrue};
ghost use Rattle.sqlite.specs.Held.{state};
ghost use Rattle.sqlite.specs.State.{HasCleanDisk};
ghost use Rattle.table_schema.specs.sqlite_trees.specs.Tree.{Trees};
ghost use Rattle.table_schema.specs.sqlite_trees.specs.View.{IsClean};
ghost use Rattle.table_schema.specs.Layout.{no_schema, first_schema, IsStoreSchema};
ghost use Rattle.tenant_core.specs.States.{Same};
ghost use Rattle.tenant_tables.specs.Opened.{HasVersion, IsKnown, IsStrange};
ghost use Rattle.tenant_tables.specs.Rows.{StandsFor, StatesIn};
ghost use Rattle.tenant_store.specs.Replaced.{Replaces};
ghost use Rattle.tenant_store.specs.Shown.{IsHonest};

use crate::judged::{JudgedVersions, forget};
use crate::reading::{find_receipt, load};
use crate::writing::{commit, remove};
use sqlite::{Alter, Connection};
use std::alloc::Global;
use std::collections::BTreeMap;
use std::marker::Model;
use std::rc::Rc;
use tenant_core::{Change, Inventory, Receipt, StoreFault, TenantStore};
use tenant_tables::laws::names_stand_for_one_state;
use tenant_tables::tables::TenantTables;

/// Tenants in the tables of a database. Contracts see the connection, and whether a call has failed
/// for good.
///
/// A tenant's receipts are judged when it is loaded for the first time after the opening, since all
/// of them have to be read for that. What is remembered of it takes some 100 bytes a tenant. A name
/// for which there is no memory is judged again.
#[derive(Drop)]
pub struct Store<S: Alter> {
    alloc: Global,
    tables: TenantTables<S>,
    judged: JudgedVersions,
}

impl<S: Alter> Model for Store<S> {
    ghost use Rattle.std.specs.Prelude.{◌≡◌, false, Bool};
    ghost use Rattle.std.specs.BTreeMap.{get_by_text};
    ghost use Rattle.std.specs.Coded.{coded×, coded_bool};
    ghost use Rattle.sqlite.specs.Held.{Held, held_code, state};
    ghost use Rattle.sqlite.specs.State.{HasCleanDisk};
    ghost use Rattle.tenant_store.specs.Judged.{AreJudged};

    ghost Value = { Held S × Bool };

    ghost coded = { coded× (held_code S.code) coded_bool };

    ghost view = { λ a. a.tables };

    ghost invariant = { λ a. a.tables.1 ≡ false → HasCleanDisk (state S.Store a.tables.0) → AreJudged (state S.Store a.tables.0).now.trees (get_by_text a.judged) };
}

impl<S: Alter + Drop> Store<S> {
    /// Opens the store in the tables of a connection. The tables are made where the database has
    /// none, those of schema 1 are replaced by those of schema 2, and else they are tested: they
    /// have to be this service's, and of its version. The rows before and after stand for the same
    /// states.
    ///
    /// `Err((StoreFault::Damaged, store))`: the tables are another's, or of another version.
    /// Nothing is changed. `Err((StoreFault::NoMemory, store))`, `Err((StoreFault::Full, store))`,
    /// `Err((StoreFault::Failed, store))`: the tables may have been made, or those of schema 1
    /// replaced, whole, for the same states.
    pub fn open(alloc: Global, conn: Connection<S>) -> Result<Store<S>, (StoreFault, S)>
        requires autocommit { conn.in_transaction ≡ false }
        requires open { HasCleanDisk (state S.Store conn) → IsTrue (state S.Store conn).is_open }
        requires settled { HasCleanDisk (state S.Store conn) → (state S.Store conn).now ≡ (state S.Store conn).committed }
        ensures live { IfOk result (λ store. store.1 ≡ false) }
        ensures clean { IfOk result (λ store. HasCleanDisk (state S.Store store.0) → HasCleanDisk (state S.Store conn)) }
        ensures honest { IfOk result (λ store. HasCleanDisk (state S.Store store.0) → IsHonest S.Store store) }
        ensures same { IfOk result (λ store. HasCleanDisk (state S.Store store.0) → Same (StatesIn (state S.Store conn).now) (StandsFor (state S.Store store.0).now.trees)) }
        ensures known { IfOk result (λ store. ((state S.Store conn).now.schema ≡ no_schema) ⊎ IsKnown (state S.Store conn).now.schema) }
        ensures adopted { IfOk result (λ store. HasCleanDisk (state S.Store store.0) → IsStoreSchema (state S.Store conn).now.schema
            → ((state S.Store store.0).now.trees ≡ (state S.Store conn).now.trees) × HasVersion 2 (state S.Store conn).now.trees) }
        ensures migrated { IfOk result (λ store. HasCleanDisk (state S.Store store.0) → (state S.Store conn).now.schema ≡ first_schema
            → HasVersion 1 (state S.Store conn).now.trees × HasVersion 2 (state S.Store store.0).now.trees) }
        ensures was_clean { IfErr result (λ e. IsClean (S.Store.view e.1) → HasCleanDisk (state S.Store conn)) }
        ensures damaged { IfErr result (λ e. IsClean (S.Store.view e.1) → e.0 ≡ StoreFault.Damaged → IsStrange (state S.Store conn).now) }
        ensures crash { IfErr result (λ e. IsClean (S.Store.view e.1) → (trees : Trees) → S.Store.recovers e.1 trees
            → (state S.Store conn).may_leave trees ⊎ Replaces (state S.Store conn).now trees) }
    {
        names_stand_for_one_state();
        match TenantTables::open(alloc, conn) {
            Ok(tables) => Ok(Store {
                alloc,
                tables,
                judged: BTreeMap::new(alloc),
            }),
            Err(refused) => Err(refused),
        }
    }
}

impl<S: Alter> Store<S> {
    /// Gives the connection back unchanged.
    pub fn close(self) -> Connection<S>
        ensures same { result ≡ self.0 }
        ensures honest { HasCleanDisk (state S.Store result) → IsHonest S.Store self }
    {
        names_stand_for_one_state();
        let Store { tables, .. } = self;
        // for the prover, which learns from a call what holds of its value
        let _live = tables.is_latched();
        tables.close()
    }
}

impl<S: Alter> TenantStore for Store<S> {
    ghost use Rattle.std.specs.Prelude.{◌≡◌, ℕ, List, false};
    ghost use Rattle.std.proofs.Common.{refl, ◌∙◌};
    ghost use Rattle.tenant_store.specs.Shown.{IsHonest, HasState, MayLeave, Keeps};
    ghost use Rattle.tenant_store.specs.Laws.{keeps_states, settled};

    ghost is_honest = { λ store. IsHonest S.Store store };

    ghost has_state = { λ store t s. HasState S.Store store t s };

    ghost latched = { λ store. store.1 };

    ghost may_leave = { λ store t found. MayLeave S.Store store t found };

    ghost keeps = { λ old new. Keeps S.Store old new };

    fn is_latched(&self) -> bool {
        self.tables.is_latched()
    }

    fn load(&mut self, name: &str) -> Result<Option<Rc<Inventory>>, StoreFault> {
        load(self.alloc, &mut self.tables, &mut self.judged, name)
    }

    fn find_receipt(
        &mut self,
        name: &str,
        number: &str,
    ) -> Result<Option<Rc<Receipt>>, StoreFault> {
        names_stand_for_one_state();
        find_receipt(self.alloc, &mut self.tables, name, number)
    }

    fn create(&mut self, name: &str) -> Result<(), StoreFault> {
        names_stand_for_one_state();
        forget(&mut self.judged, name);
        self.tables.create(name)
    }

    fn commit(&mut self, name: &str, change: &Change) -> Result<(), StoreFault> {
        names_stand_for_one_state();
        commit(self.alloc, &mut self.tables, &mut self.judged, name, change)
    }

    fn remove(&mut self, name: &str) -> Result<(), StoreFault> {
        names_stand_for_one_state();
        forget(&mut self.judged, name);
        remove(&mut self.tables, name)
    }

    ghost one_state = { λ store t s u honest works is also. honest.one_state (S.Store.view store.0.store).trees t s u is also };

    ghost are_states = { λ store t s honest works has. has.0 };

    ghost keeps_itself = { λ store. refl };

    ghost keeps_both = { λ old mid new first second. second ∙ first };

    ghost keeps_states = { λ old new honest worked works same. keeps_states _ _ same };

    ghost settled = { λ store t found honest works there. settled _ _ there.0 t found (honest.ready works).settled (S.Store.settled store.0.store there.0 (honest.ready works).is_open there.1) there.2 };
}
