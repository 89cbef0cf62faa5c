//! A list of bytes that only clauses read: what a stream has returned or accepted so far.
ghost use Rattle.std.specs.Prelude.{◌≡◌, ℕ, List, [], ◌++◌};
ghost use Rattle.std.specs.Borrow.{ftrue};

use std::marker::{Model, PhantomData};

/// The bytes that went through a stream. They exist in contracts alone: a trace takes no memory and
/// no time.
#[derive(Drop)]
pub struct Trace {
    marker: PhantomData<u8>,
    pub ghost bytes: { List ℕ },
}

impl Model for Trace {
    ghost also_owns = { λ _. ftrue };
}

impl Trace {
    /// The trace of a stream through which nothing went yet.
    pub(crate) fn new() -> Trace
        ensures { result.bytes ≡ [] }
    {
        Trace {
            marker: PhantomData,
        }
    }

    /// Notes bytes that went through, after those that did before.
    pub(crate) fn note(&mut self, _bytes: &[u8])
        ensures { self.new.bytes ≡ self.old.bytes ++ _bytes.now }
    {}
}
