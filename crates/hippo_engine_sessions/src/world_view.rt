//! A view of the state of a run.
ghost use Rattle.std.specs.Prelude.{◌≡◌, is_some, option_copied};
ghost use Rattle.hippo_engine_sessions.specs.Worlds.{at_number, free_number, session_at};

use crate::sessions::Session;
use hippo_values::Moment;

/// The parts of a run's state that the judgement on a command reads. The state of audit jobs and
/// watches is not among them.
pub trait WorldView {
    ghost use Rattle.hippo_engine_sessions.specs.Worlds.{World};

    /// The state of the run, as the definitions see it.
    ghost seen: { Self → World };

    /// The moment of the clock.
    fn clock(&self) -> Moment
        ensures { result ≡ (seen self.now).clock };

    /// The greatest number of entries that the history may have.
    fn limit(&self) -> u32
        ensures { result ≡ (seen self.now).limit };

    /// The open session with a number; none if it is not open.
    fn session(&self, number: u8) -> Option<&Session>
        ensures { option_copied result ≡ session_at (seen self.now) number };

    /// Whether there is an audit job at a number.
    fn has_job(&self, number: u8) -> bool
        ensures { result ≡ is_some (at_number (seen self.now).jobs number) };

    /// The lowest number without an audit job; none if all have one.
    fn free_job(&self) -> Option<usize>
        ensures { result ≡ free_number (seen self.now).jobs };

    /// Whether there is a watch at a number.
    fn has_watch(&self, number: u8) -> bool
        ensures { result ≡ is_some (at_number (seen self.now).watches number) };

    /// The lowest number without a watch; none if all have one.
    fn free_watch(&self) -> Option<usize>
        ensures { result ≡ free_number (seen self.now).watches };
}
