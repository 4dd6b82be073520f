//! Laws of the definitions: the contract is about the definitions alone.

ghost use Rattle.std.specs.Prelude.{◌≡◌, true};
ghost use Rattle.tenant_state.specs.State.{CanMake, Change, Inventory, TenantState, after, fresh, inventory_after, suits};
ghost use Rattle.tenant_state.specs.Valid.{IsChange, IsInventory, IsMade, IsState};

/// A tenant that was just created has a state (`IsState`), and so has each tenant after a change
/// that its state can make. What a tenant has stays in its ranges after each change that suits it.
pub fn changes_leave_states()
    ensures fresh { IsState fresh }
    ensures stays { (c : Change) (s : TenantState) → IsChange c → CanMake c s → IsState s → IsState (after c s) }
    ensures inventory { (c : Change) (i : Inventory) → IsMade c.made → suits c.made i ≡ true → IsInventory i → IsInventory (inventory_after c i) }
{}
