//! Laws of the forms of bodies: each contract is about the definitions alone.

ghost use Rattle.std.specs.Prelude.{◌≡◌, List, nat_lt, true, ℕ};
ghost use Rattle.std.specs.List.{list_all};
ghost use Rattle.crush_pool.specs.Exceptions.{are_pairs};
ghost use Rattle.crush_pool.specs.declared.exceptions.Pair.{Pair};
ghost use Rattle.crush_pool.specs.declared.limits.TheConstants.{GROUP_LIMIT};
ghost use Rattle.tenant_messages.specs.Forms.{FindsExactly, ReadsExactly, RefusesOthers};
ghost use Rattle.tenant_resources.specs.Devices.{IsDevicesBody, changes_of, devices_request_of};
ghost use Rattle.tenant_resources.specs.Exceptions.{IsExceptionsBody, exceptions_of, exceptions_request_of};
ghost use Rattle.tenant_resources.specs.Groups.{IsLocateBody, name_of, locate_request_of};
ghost use Rattle.tenant_resources.specs.Maps.{IsImportBody, import_of, import_request_of};
ghost use Rattle.tenant_resources.specs.Pools.{IsPoolBody, IsRemovalBody, pool_of, pool_request_of, removal_of, removal_request_of};
ghost use Rattle.tenant_resources.specs.RuleTests.{IsTestBody, test_of, test_request_of};

/// An import is read from a body exactly where the body has its form and says that import; any
/// other body is refused.
pub fn imports_are_of_the_form()
    ensures value { FindsExactly import_of IsImportBody }
    ensures body { ReadsExactly import_request_of IsImportBody }
    ensures refused { RefusesOthers import_request_of IsImportBody }
{}

/// A rule test is read from a body exactly where the body has its form and says that test; any
/// other body is refused.
pub fn tests_are_of_the_form()
    ensures value { FindsExactly test_of IsTestBody }
    ensures body { ReadsExactly test_request_of IsTestBody }
    ensures refused { RefusesOthers test_request_of IsTestBody }
{}

/// Changes of devices are read from a body exactly where the body has their form and says them; any
/// other body is refused.
pub fn device_changes_are_of_the_form()
    ensures value { FindsExactly changes_of IsDevicesBody }
    ensures body { ReadsExactly devices_request_of IsDevicesBody }
    ensures refused { RefusesOthers devices_request_of IsDevicesBody }
{}

/// The name of an object is read from a body exactly where the body has its form and says that
/// name; any other body is refused.
pub fn object_names_are_of_the_form()
    ensures value { FindsExactly name_of IsLocateBody }
    ensures body { ReadsExactly locate_request_of IsLocateBody }
    ensures refused { RefusesOthers locate_request_of IsLocateBody }
{}

/// A pool is read from a body exactly where the body has its form and says that pool; any other
/// body is refused.
pub fn pools_are_of_the_form()
    ensures value { FindsExactly pool_of IsPoolBody }
    ensures body { ReadsExactly pool_request_of IsPoolBody }
    ensures refused { RefusesOthers pool_request_of IsPoolBody }
{}

/// The removal of a pool is read from a body exactly where the body has its form and says that
/// removal; any other body is refused.
pub fn removals_are_of_the_form()
    ensures value { FindsExactly removal_of IsRemovalBody }
    ensures body { ReadsExactly removal_request_of IsRemovalBody }
    ensures refused { RefusesOthers removal_request_of IsRemovalBody }
{}

/// The exceptions of a pool are read from a body exactly where the body has their form and says
/// them; any other body is refused.
pub fn exceptions_are_of_the_form()
    ensures value { FindsExactly exceptions_of IsExceptionsBody }
    ensures body { ReadsExactly exceptions_request_of IsExceptionsBody }
    ensures refused { RefusesOthers exceptions_request_of IsExceptionsBody }
{}

/// A pool with `groups` groups can have pairs that some pool can have, as those of a body are,
/// exactly where it has the group of each pair.
pub fn pools_may_lack_groups()
    ensures { (groups : ℕ) (pairs : List Pair) → are_pairs GROUP_LIMIT pairs ≡ true → are_pairs groups pairs ≡ list_all (λ p. nat_lt p.group groups) pairs }
{}
