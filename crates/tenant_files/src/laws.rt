//! A law of the bytes that are kept. A call does nothing; its contract is the law.

ghost use Rattle.std.specs.Prelude.{◌≡◌, ◌^◌};
ghost use Rattle.tenant_files.specs.declared.ready.TheConstants.{READY_BYTES};

/// A ready store keeps at most 256 MiB of what tenants have, where more than one tenant's are kept.
pub fn ready_bytes_are_256_mebibytes()
    ensures { READY_BYTES ≡ 2 ^ 28 }
{}
