//! The watch on the files of a store.

ghost use Rattle.std.specs.Prelude.{◌≡◌, List, Bool, Option, None};
ghost use Rattle.tenant_store.specs.Looks.{Looks};

/// Looks whether the files of a store are where they were when it was opened, so that the next
/// opening finds what is written to them.
///
/// The ghosts: what each look before a change, and what each look after one, finds from here on,
/// where contracts know it. Of real files contracts know nothing.
pub trait Watch {
    ghost looks_before: { Self → Option (List Bool) } = { λ _. None };

    ghost looks_after: { Self → Option (List Bool) } = { λ _. None };

    /// Returns whether the files are there, and no shorter than they were after the last change.
    /// The store calls it before each change.
    fn is_whole(&mut self) -> bool
        ensures found { Looks result (looks_before self.old) (looks_before self.new) }
        ensures other { looks_after self.new ≡ looks_after self.old };

    /// Returns whether the files are there, and stores their lengths. The store calls it after each
    /// change.
    fn is_there(&mut self) -> bool
        ensures found { Looks result (looks_after self.old) (looks_after self.new) }
        ensures other { looks_before self.new ≡ looks_before self.old };
}
