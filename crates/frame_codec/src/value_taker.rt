//! What takes the values of frames, one after another.

ghost use Rattle.std.specs.Prelude.{IfOk};

use std::alloc::AllocError;

/// What is handed values one after another, for as long as it wants more.
pub trait ValueTaker<V> {
    ghost use Rattle.std.specs.Prelude.{Bool};

    /// What it was and is, a value that it took in between, and whether it wants more.
    ghost takes: { Self → Self → V → Bool → Type 0 };

    /// Takes a value, and returns whether it wants more. An error says that memory ran out, or that the value could not be taken.
    fn take(&mut self, value: V) -> Result<bool, AllocError>
        ensures { IfOk result (λ more. takes self.old self.new value more) };
}

impl<V: Drop> ValueTaker<V> for Vec<V> {
    ghost use Rattle.std.specs.Prelude.{◌≡◌, ◌++◌, ◌∷◌, [], true};

    ghost takes = { λ old new value more. (new.items ≡ old.items ++ value ∷ []) × (more ≡ true) };

    #[inline(always)]
    fn take(&mut self, value: V) -> Result<bool, AllocError> {
        self.push(value)?;
        Ok(true)
    }
}
