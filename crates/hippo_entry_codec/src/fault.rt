//! Why a part was not read.
ghost use Rattle.std.specs.Prelude.{◌≡◌};
ghost use Rattle.hippo_entry_codec.specs.declared.fault.Fault.TheVariants as fault;

use hippo_values::Memory;

/// Why a part was not read.
#[derive(Clone, Copy, PartialEq, Eq)]
pub enum Fault {
    /// The bytes do not begin with such a part.
    NoPart,
    /// Out of memory.
    Memory,
}

impl From<Memory> for Fault {
    ghost from_gives = { λ _ made. made ≡ fault.Memory };

    fn from(_refused: Memory) -> Fault {
        Fault::Memory
    }
}
