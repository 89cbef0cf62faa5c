//! The sender of a line.
ghost use Rattle.std.specs.Prelude.{◌≡◌};
ghost use Rattle.hippo_report.specs.Speakers.{speaker_at};

/// The sender of a line. The reply to the line begins with the sender.
#[derive(Clone, Copy, PartialEq, Eq)]
pub enum Speaker {
    /// The line names no session.
    Nobody,
    /// The line begins with 0.
    Console,
    /// The line begins with the number of a user's session.
    Session(u8),
}

impl Speaker {
    /// The sender of a line that begins with this number.
    #[tactic(auto, using(crate::proofs::SpeakerLemmas::console_at, crate::proofs::SpeakerLemmas::session_at))]
    pub fn at(number: u8) -> Speaker
        ensures { result ≡ speaker_at number }
    {
        if number == 0 {
            Speaker::Console
        } else {
            Speaker::Session(number)
        }
    }
}
