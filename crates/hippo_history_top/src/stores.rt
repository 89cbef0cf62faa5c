//! Which stores there are.
ghost use Rattle.std.specs.Prelude.{ℕ, List, Bool};

/// Tells whether there is a store with a name. A program that only reads asks first, so that it
/// does not make the store.
pub trait Stores {
    // Whether this may be the answer for this name.
    ghost Answers: { Self → List ℕ → Bool → Type 0 };

    /// Whether there is a store with this name.
    fn has(&self, name: &str) -> bool
        ensures { Answers self.now name.now result };
}
