//! Which line is at a place of the script.
ghost use Rattle.std.specs.Prelude.{◌≡◌, ℕ, ◌+◌, ◌*◌, ◌≤◌, option_map, slice_get, IfSome};
ghost use Rattle.hippo_drill.specs.Script.{lines_for};
ghost use Rattle.hippo_drill.specs.Kinds.{script_text, after_login, after_visits, after_opening};

use crate::script_line::ScriptLine;

// The lines with which each script begins.
const OPENING: [&str; 10] = [
    "at 2024-01-01T00:00:00Z",
    "0 CREATE TABLE patient (pid INTEGER, name TEXT, phone TEXT, zip INTEGER, PRIMARY KEY (pid), SUBJECT pid)",
    "0 CREATE TABLE visit (vno INTEGER, pid INTEGER, ward TEXT, PRIMARY KEY (vno), SUBJECT pid)",
    "0 CREATE PURPOSE treatment",
    "0 CREATE RECIPIENT nurse",
    "0 CREATE ITEM contact OPT OUT",
    "0 AUTHORIZE ann FOR treatment, nurse",
    "0 ALLOW treatment TO nurse ON patient (pid, name, zip)",
    "0 ALLOW treatment TO nurse ON patient (phone) WITH contact",
    "0 ALLOW treatment TO nurse ON visit (vno, pid, ward)",
];

const LOGIN: &str = "1 login ann treatment nurse";

// The line at a place after the login. Lines that change a phone alternate with questions, and the
// last line is an audit.
fn line_after_login(patients: u64, place: u128) -> Option<ScriptLine>
    ensures text { (number : ℕ) → option_map (script_text number) result
        ≡ slice_get (after_login patients number) place }
    ensures limit { IfSome result (λ line. place ≤ 2 * patients) }
{
    let turn = place / 2;
    if turn < u128::from(patients) {
        let j = turn as u64 + 1;
        return if place % 2 == 0 {
            Some(ScriptLine::Phone(j))
        } else {
            Some(ScriptLine::Question(j))
        };
    }
    if place == 2 * u128::from(patients) {
        Some(ScriptLine::Audit)
    } else {
        None
    }
}

// The line at a place after the visits. One patient in ten opts out, and then a nurse logs in.
fn line_after_visits(patients: u64, place: u128) -> Option<ScriptLine>
    ensures text { (number : ℕ) → option_map (script_text number) result
        ≡ slice_get (after_visits patients number) place }
    ensures limit { IfSome result (λ line. place ≤ 3 * patients + 1) }
{
    let choices = u128::from(patients / 10);
    if place < choices {
        return Some(ScriptLine::Choice(10 * (place as u64 + 1)));
    }
    if place == choices {
        return Some(ScriptLine::Same(LOGIN));
    }
    line_after_login(patients, place - choices - 1)
}

// The line at a place after the opening. The patients are inserted, and then their visits.
fn line_after_opening(patients: u64, place: u128) -> Option<ScriptLine>
    ensures text { (number : ℕ) → option_map (script_text number) result
        ≡ slice_get (after_opening patients number) place }
    ensures limit { IfSome result (λ line. place ≤ 5 * patients + 1) }
{
    let each = u128::from(patients);
    if place < each {
        return Some(ScriptLine::Patient(place as u64 + 1));
    }
    let place = place - each;
    if place < each {
        return Some(ScriptLine::Visit(place as u64 + 1));
    }
    line_after_visits(patients, place - each)
}

/// The line at a place, counted from 0, of the script for this many patients. `None` after the last
/// line.
pub(crate) fn line_at(patients: u64, place: u128) -> Option<ScriptLine>
    ensures text { (number : ℕ) → option_map (script_text number) result
        ≡ slice_get (lines_for patients number) place }
    ensures limit { IfSome result (λ line. place ≤ 5 * patients + 11) }
{
    if place < 10 {
        Some(ScriptLine::Same(OPENING[place as usize]))
    } else {
        line_after_opening(patients, place - 10)
    }
}
