//! Checks of sessions and cursors.
ghost use Rattle.std.specs.Prelude.{◌≡◌, ◌≤◌, Some, length, ok_or, IfErr};
ghost use Rattle.std.specs.Result.{result_map_both};
ghost use Rattle.hippo_model.specs.Terms.{History};
ghost use Rattle.hippo_replay.specs.Standing.{Represents};
ghost use Rattle.hippo_report.specs.declared.refusal.Refusal.TheVariants.{NoCursor as CursorMissing};
ghost use Rattle.hippo_report.specs.Refusals.{refusal_line};
ghost use Rattle.hippo_report.specs.declared.speaker.Speaker.TheVariants as speaker;
ghost use Rattle.hippo_engine_sessions.specs.Worlds.{at_number};
ghost use Rattle.hippo_engine_checks.specs.Checks.{open_session, cursor_in_session, closed_session, by_authorized_user};
ghost use Rattle.hippo_engine_checks.specs.Checks.{may_log_in, reply_room};

use hippo_engine_sessions::{Cursor, Session, WorldView};
use hippo_model::{Authorization, Pair};
use hippo_replay::State;
use hippo_report::Refusal;
use hippo_values::Name;

/// The open session with this number, or `NoSession`, whose reply is short.
pub(crate) fn open_session<W: WorldView>(world: &W, number: u8) -> Result<&Session, Refusal>
    ensures found { result_map_both (λ session. session.now) (λ refusal. refusal) result
        ≡ open_session (W.seen world.now) number }
    ensures fits { IfErr result (λ refusal. length (refusal_line (speaker.Session number) refusal)
        ≤ reply_room) }
{
    match world.session(number) {
        Some(session) => Ok(session),
        None => Err(Refusal::NoSession),
    }
}

fn held_cursor(session: &Session, number: u8, cursor: u8) -> Result<&Cursor, Refusal>
    ensures found { result_map_both (λ held. held.now) (λ refusal. refusal) result
        ≡ ok_or (at_number session.now.cursors cursor) (CursorMissing cursor) }
    ensures fits { IfErr result (λ refusal. length (refusal_line (speaker.Session number) refusal)
        ≤ reply_room) }
{
    match session.cursors.at(usize::from(cursor)) {
        Some(held) => Ok(held),
        None => Err(Refusal::NoCursor(u64::from(cursor))),
    }
}

/// The cursor with a number in the open session with a number, or the refusal of `open_session`, or
/// that there is no such cursor. The replies to these refusals are short.
pub(crate) fn open_cursor<W: WorldView>(
    world: &W,
    number: u8,
    cursor: u8,
) -> Result<&Cursor, Refusal>
    ensures found { result_map_both (λ held. held.now) (λ refusal. refusal) result
        ≡ cursor_in_session (W.seen world.now) number cursor }
    ensures fits { IfErr result (λ refusal. length (refusal_line (speaker.Session number) refusal)
        ≤ reply_room) }
{
    match open_session(world, number) {
        Ok(session) => held_cursor(session, number, cursor),
        Err(refusal) => Err(refusal),
    }
}

// Checks that no session is open with this number.
fn check_closed<W: WorldView>(world: &W, number: u8) -> Result<(), Refusal>
    ensures { result ≡ closed_session (W.seen world.now) number }
{
    match world.session(number) {
        Some(_) => Err(Refusal::SessionOpen),
        None => Ok(()),
    }
}

/// Checks that a user may ask for a purpose and recipient.
pub(crate) fn check_allowed(state: &State, user: &Name, pair: &Pair) -> Result<(), Refusal>
    ensures { (history : History) → Represents state.now history → result
        ≡ by_authorized_user history user.now pair.now }
{
    let word = state
        .book
        .authorized_at(state.count, user, &pair.purpose, &pair.recipient);
    match word {
        Authorization::Yes => Ok(()),
        Authorization::No(number) => Err(Refusal::NotAuthorized(number)),
    }
}

/// Checks that a user may open the session with a number to ask for a purpose and recipient. It is
/// refused if a session is already open with the number, or if the user is not authorized.
pub(crate) fn check_login<W: WorldView>(
    state: &State,
    world: &W,
    number: u8,
    user: &Name,
    pair: &Pair,
) -> Result<(), Refusal>
    ensures { (history : History) → Represents state.now history
        → result ≡ may_log_in history (W.seen world.now) number user.now pair.now }
{
    match check_closed(world, number) {
        Ok(()) => check_allowed(state, user, pair),
        Err(refusal) => Err(refusal),
    }
}
