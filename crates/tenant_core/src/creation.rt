//! The state of a tenant that is created.

ghost use Rattle.std.specs.Prelude.{◌≡◌, IfOk};
ghost use Rattle.tenant_state.specs.State.{fresh};

use std::alloc::{AllocError, Global};
use tenant_state::TenantState;

/// Makes the state of a tenant that was just created, which doesn't say the tenant's name.
/// `Err(AllocError)`: an allocation failed; nothing is changed.
pub fn create(alloc: Global) -> Result<TenantState, AllocError>
    ensures { IfOk result (λ s. s ≡ fresh) }
{
    TenantState::fresh(alloc)
}
