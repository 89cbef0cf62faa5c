//! Replies, written into a text with reserved memory.
ghost use Rattle.std.specs.Prelude.{◌≡◌, ◌⊎◌, ◌<◌, ◌≤◌, ℕ, length};
ghost use Rattle.hippo_report.specs.declared.refusal.Refusal.TheVariants.{Memory as NoMemory};
ghost use Rattle.hippo_report.specs.Notices.{done_line, number_line};
ghost use Rattle.hippo_report.specs.declared.speaker.Speaker.TheVariants.{Session};
ghost use Rattle.hippo_report.specs.Refusals.{refusal_line};
ghost use Rattle.hippo_engine_checks.specs.Checks.{reply_room};

use hippo_report::{Refusal, Speaker, done_line, number_line, refusal_line};
use hippo_values::RoomyTxt;

/// The number of bytes that are reserved for a reply. Every reply that must not run out of memory
/// is shorter.
pub const REPLY_ROOM: usize = 64;

/// The reply to a line, with reserved memory for the replies that must not run out of memory.
pub type Reply = RoomyTxt<REPLY_ROOM>;

fn session_fits(number: u8)
    ensures { number < 256 }
{
    let _number = number;
}

// The number of a session is a byte, by its type.
fn speaker_fits(who: Speaker)
    ensures { (number : ℕ) → who ≡ Session number → number < 256 }
{
    if let Speaker::Session(number) = who {
        session_fits(number);
    }
}

/// Replaces the reply by the out-of-memory refusal. Takes no memory.
pub fn refuse_out_of_memory(who: Speaker, reply: &mut Reply)
    ensures { reply.new ≡ refusal_line who NoMemory }
{
    speaker_fits(who);
    reply.clear();
    if refusal_line(who, &Refusal::Memory, reply).is_err() {
        unreachable!()
    }
}

/// Replaces the reply by that of a refusal. If the refusal is longer than `REPLY_ROOM` and memory
/// runs out, the reply is the out-of-memory refusal.
pub fn refuse(who: Speaker, refusal: &Refusal, reply: &mut Reply)
    ensures said { (reply.new ≡ refusal_line who refusal.now)
        ⊎ (reply.new ≡ refusal_line who NoMemory) }
    ensures fits { length (refusal_line who refusal.now) ≤ reply_room
        → reply.new ≡ refusal_line who refusal.now }
{
    reply.clear();
    if refusal_line(who, refusal, reply).is_err() {
        refuse_out_of_memory(who, reply);
    }
}

/// Replaces the reply by that of a line that was carried out. Takes no memory.
pub fn say_done(who: Speaker, reply: &mut Reply)
    ensures { reply.new ≡ done_line who }
{
    speaker_fits(who);
    reply.clear();
    if done_line(who, reply).is_err() {
        unreachable!()
    }
}

/// Replaces the reply by a word and a number, addressed to a session or to the console. Takes no
/// memory.
pub fn say_number(session: u8, word: &str, number: u64, reply: &mut Reply)
    requires short { length word.now ≤ 8 }
    ensures { reply.new ≡ number_line session word.now number }
{
    reply.clear();
    if number_line(session, word, number, reply).is_err() {
        unreachable!()
    }
}
