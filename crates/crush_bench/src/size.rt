//! The size that a mapping asks for.

ghost use Rattle.std.specs.Prelude.{◌≤◌};
ghost use Rattle.crush_choose.specs.declared.limits.TheConstants.{SIZE_LIMIT};

/// How many slots an answer has at most.
#[derive(Clone, Copy)]
pub struct Size {
    pub slots: u32,
    ghost some: { 1 ≤ slots },
    ghost few: { slots ≤ SIZE_LIMIT },
}
