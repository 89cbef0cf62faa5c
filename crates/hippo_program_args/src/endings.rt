//! How a call of a program ends.
ghost use Rattle.std.specs.Prelude.{◌≡◌};
ghost use Rattle.hippo_program_args.specs.Endings.{status_of};

/// How a call of a program ends, with its exit status.
#[derive(Clone, Copy, PartialEq, Eq)]
pub enum Ending {
    /// Everything was done. What was asked for is shown; in a run, the input was read to its end,
    /// and every line has its reply.
    Served = 0,
    /// The words ask for nothing.
    Refused = 2,
    /// The keeper failed.
    KeeperFault = 3,
    /// The source failed.
    ReadFault = 4,
    /// The sink failed.
    WriteFault = 5,
    /// The stored entries are those of no valid history.
    Damaged = 6,
    /// The program ran out of memory; in a run, before the first byte was read.
    NoMemory = 7,
    /// The input has more than 2^40 bytes.
    TooMuch = 8,
}

impl Ending {
    /// The exit status.
    pub fn status(self) -> u8
        ensures { result ≡ status_of self }
    {
        self as u8
    }
}
