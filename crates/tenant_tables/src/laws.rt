//! Laws of the definitions: each contract holds of the definitions alone.

ghost use Rattle.std.specs.Prelude.{◌≡◌, ◌↔◌, ℕ, List, Option};
ghost use Rattle.sqlite.specs.Effect.{Database};
ghost use Rattle.sqlite_trees.specs.Tree.{Trees};
ghost use Rattle.tenant_state.specs.State.{TenantState};
ghost use Rattle.table_schema.specs.Layout.{IsStoreSchema};
ghost use Rattle.tenant_tables.specs.Opened.{SetsUp};
ghost use Rattle.tenant_tables.specs.Rows.{FirstStandsFor, StandsFor, StatesIn};

use crush_text::written_maps_are_read_back;

/// States that the rows of a name stand for one state at most, or for no tenant.
pub fn names_stand_for_one_state()
    ensures { (db : Trees) (name : List ℕ) (s t : Option TenantState) → StandsFor db name s → StandsFor db name t → s ≡ t }
{
    written_maps_are_read_back();
}

/// States that the rows of a name in schema 1 stand for one state at most, or for no tenant.
pub fn names_of_schema_1_stand_for_one_state()
    ensures { (db : Trees) (name : List ℕ) (s t : Option TenantState) → FirstStandsFor db name s → FirstStandsFor db name t → s ≡ t }
{
    written_maps_are_read_back();
}

/// States that rows which an opening has made, or put in the place of those of schema 1, stand for
/// the states that the database had, and so do those of a database that has this service's tables
/// already.
#[tactic(auto, using(crate::proofs::Migrated::set_up_states, crate::proofs::Migrated::found_states))]
pub fn openings_keep_states()
    ensures set_up { (old : Database) (trees : Trees) → SetsUp old trees → (t : List ℕ) (s : Option TenantState) → StatesIn old t s ↔ StandsFor trees t s }
    ensures found { (db : Database) → IsStoreSchema db.schema → (t : List ℕ) (s : Option TenantState) → StatesIn db t s ↔ StandsFor db.trees t s }
{}
